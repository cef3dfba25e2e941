//! The desk of a room: its one writer, which judges requests, one by one or as a batch, has their entries kept, owes these to the board, and
//! publishes them.
#![tactic(auto)]

mod batch;
mod desk;
mod faults;
mod judging;
mod laws;
mod tails;

pub use desk::Desk;
pub use faults::{Refusal, SubmitError};
pub use laws::found_after_every_crash;
pub use tails::TailLimit;
