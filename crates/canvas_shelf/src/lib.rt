//! Numbered segments of bytes that outlast a crash: what they are, what a crash may leave of them, and a shelf of them in memory, for
//! tests. And the records that a journal keeps in them.
#![tactic(auto)]

mod calls;
mod laws;
mod memory;
mod records;
mod segments;
mod shelf;
mod stored;

pub use calls::Call;
pub use laws::every_segment;
pub use memory::MemShelf;
pub use records::{RecordError, first_record, push_record, record};
pub use shelf::{CreateError, DeviceFailed, Shelf, ShelfError};
