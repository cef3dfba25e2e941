//! What the port of a server answers by itself, to all requests but those of clients, who are handed on; and what a server counts.
#![tactic(auto)]

mod answers;
mod counters;
mod door;
mod hall;
mod log;
mod noes;
mod options;
mod page;
mod streams;
mod tokens;
mod workers;

pub use counters::Figures;
pub use door::{Door, stand};
pub use log::{Log, write_lines};
pub use options::{Limits, Shared};
pub use page::Page;
pub use workers::{Load, Worker, Workers};
