//! A document's segments in a replicated store of keys, as etcd, by a trait of store calls, and the shelf that it is: which calls in
//! which order make it an honest one for as long as it owns the document.
#![tactic(auto)]

mod change;
mod error;
mod laws;
mod opening;
mod row;
mod segments;
mod shelf;
mod state;
mod store;
mod turn;
mod writing;

pub use change::ShelfChange;
pub use error::EtcdError;
pub use laws::{
    every_note_keeps_a_shelf_sound, every_takeover_is_a_crash, every_takeover_of_what_stands,
};
pub use shelf::EtcdShelf;
pub use store::{CHUNK, Standing, Store};
pub use turn::{
    OwnerMark, Turn, every_late_one_changes_nothing, every_put_back_is_refused,
    every_repeat_is_done_once, every_told_one_was_done,
};
