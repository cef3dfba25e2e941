//! Clients at the seats of one room. Each follows what its seat has seen: it shows the document at its version with what waits laid over it,
//! and after an exchange the room's document as its seat has seen it. It may also hear what is published without asking. And clients on
//! threads of their own: one that takes its commands as messages, and several that edit at seats of one room at once.
#![tactic(auto)]

mod client_node;
mod error;
mod gate;
mod hall;
mod laws;
mod listening;
mod node;
mod nodes;
mod plan;
mod pushes;
mod seats;

pub use client_node::{ClientNode, Command};
pub use gate::{Gate, NoGate};
pub use laws::{every_follower, every_push, found_again};
pub use nodes::{run_nodes, run_plans};
pub use plan::Plan;
pub use pushes::hear;
pub use seats::{exchange_at, hear_at, join_at};
