//! What messages are made of, as JSON, both ways: ids, kinds, places, changes, outcomes and the rows of documents, read from the members of
//! JSON arrays; and whether rows stand in order.
//!
//! A reader answers what it read, and whether each whole number in it was in range, as those of `canvas_value` do. So a JSON tree is read
//! once, and a caller still can tell a JSON tree of another shape from one with a number out of range.
//!
//! A [`SharedEntry`] is an entry with its text, which several values share.
#![tactic(auto)]

pub mod changes;
mod ids;
pub mod json_tree;
mod kinds;
pub mod order;
pub mod outcomes;
mod places;
pub mod rows;
mod shared_entry;
pub mod sound;

pub use shared_entry::SharedEntry;
