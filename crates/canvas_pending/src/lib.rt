//! The edits of a client that wait to be judged, and how many of them write each field.
#![tactic(auto)]

mod objects;
mod pending;
mod props;
mod tallies;
mod writes;

pub use pending::Pending;
