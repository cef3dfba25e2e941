//! A seat of a room that replies to clients: the answer to each message, what is pushed, the terms, an answerer for connections, and a link in
//! the same process.
#![tactic(auto)]

mod answerer;
mod asking;
mod large;
mod laws;
mod messages;
mod requests;
mod seat_link;
mod shared_copy;
mod sharing;
mod terms;
mod told;

pub use answerer::SeatAnswerer;
pub use asking::push;
pub use large::is_too_large;
pub use laws::every_exchange;
pub use messages::answer;
pub use seat_link::SeatLink;
pub use shared_copy::SharedCopy;
pub use sharing::{ask_texts, copy_for, held_copy, held_texts, share};
pub use terms::{Plain, Terms};
pub use told::{Told, messages_of, told_texts};
