//! Laws of a client's edits: what undoes a step, and which waiting edit may replace another.
#![tactic(auto)]

mod laws;

pub use laws::{every_fold, every_undo};
