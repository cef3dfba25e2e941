//! A room's published side: its history, its board, and the ends that write and read it.
#![tactic(auto)]

mod board;
mod faults;
mod history;
mod laws;
mod mark;
mod news;
mod opening;
mod page;
mod publisher;
mod reader;
mod receipt;
mod rule;
mod snapshot;

pub use board::{Board, Step};
pub use faults::SeatError;
pub use history::{Blank, Book, Front, RoomName};
pub use laws::read_back;
pub use mark::{Mark, MarkVariant, Opening};
pub use news::News;
pub use opening::open_board;
pub use page::{Page, RoomServer};
pub use publisher::Publisher;
pub use reader::Reader;
pub use receipt::Receipt;
pub use rule::Published;
pub use snapshot::Snapshot;
