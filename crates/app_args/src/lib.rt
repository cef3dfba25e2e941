//! The words that the program `lugcurrant` is called with, and what they ask for.
#![tactic(auto)]

mod args;
mod asked;
mod error;

pub use args::read_words;
pub use asked::{DocumentPlace, Invocation, Options, Serving};
pub use error::{WordError, WordsError};
