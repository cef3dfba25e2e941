//! A document's segments in a store in memory, for tests: an honest one, of which calls fail and answers are lost as it is told, with
//! what another finds that takes the document over.
#![tactic(auto)]

mod failing;
mod held;
mod lost;
mod notes;
mod store;

pub use store::MemStore;
