//! A client for programs in other languages: its edits from numbers and bytes, what it receives as bytes, and the bytes that it sends.
//!
//! Each call says the very thing that the client's core says of it, of the message or the value that the bytes spell. After each error
//! the client is unchanged.
#![tactic(auto)]

mod changed;
mod edits;
mod fault;
mod heard;
mod ids;
mod messages;
mod objects;
mod placed;
mod resuming;
mod saves;
mod trees;
mod values;

pub use edits::{clear, create, delete, kind_of, move_to, set};
pub use fault::{
    ClearError, CreateAtError, CreateEndError, CreateError, LoadError, MoveAtError, ResumeError,
    SetError, ValueError,
};
pub use heard::Heard;
pub use messages::{ask_text, edit_text, join_text, receive, receive_and_tell};
pub use objects::{children_text, is_in_tree, object_text};
pub use placed::{
    create_at, create_first, create_last, every_placed_edit, move_at, move_first, move_last,
};
pub use resuming::{Resumed, resume};
pub use saves::{load, save};
pub use trees::tree_text;
pub use values::read_value;
