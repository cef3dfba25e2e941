//! The words of live connections, none of them a message of the wire. By `["live",ID,VERSION]` a client asks to be told what is published, and by
//! `["here",ID,VALUE]` it shows the others something of itself, as its pointer's place.
#![tactic(auto)]

mod here;
mod laws;
mod place;
mod word;

pub use here::{Here, MOST_VALUE_BYTES};
pub use laws::{every_here, every_place};
pub use place::Place;
pub use word::{Word, word_in};
