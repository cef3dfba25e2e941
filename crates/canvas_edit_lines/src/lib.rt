//! The lines of a client that is told what to do: how its edits are read, what answers them, and its block.
#![tactic(auto)]

mod answers;
mod blocks;
mod edits;
mod words;

pub use answers::{edit_line, number_line, refused_line};
pub use blocks::write_client;
pub use edits::read_edit;
