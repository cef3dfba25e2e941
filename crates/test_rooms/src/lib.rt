//! For tests: ids, creations, and rooms over journals. A room is opened here, and what is asked of it owns nothing: the room and its seats are lent to it.
#![tactic(auto)]

mod asking;
mod blanks;
mod samples;

pub use asking::{RoomTest, SeatOf, told_by, told_in_memory};
pub use blanks::{Bench, BlankMem, room_in_memory, room_on};
pub use samples::{new_page, object};
