//! A connection that is served step by step, by whoever serves others between its steps.
#![tactic(auto)]

mod connection;
mod handler;
mod laws;
mod serving;
mod sides;
mod waits;

pub use connection::{Connection, Step};
pub use handler::{Handler, Push};
pub use laws::every_connection;
pub use waits::{LineEnd, Waits, Woken};
