//! A room: one writer under a lock, and seats that read what it has published without waiting.
#![tactic(auto)]

mod asking;
mod batch;
mod faults;
mod mailbox;
mod pace;
mod room;
mod seat;
mod seat_slot;

pub use faults::RoomError;
pub use pace::{EveryEntries, Pace};
pub use room::{BlankRoom, Lock, Room, blank_room};
pub use seat::Seat;
