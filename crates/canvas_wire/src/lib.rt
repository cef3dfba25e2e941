//! Messages, entries and checkpoints as JSON, both ways. A checkpoint is a head and a text for each row; the older form, which is one
//! text, is read alone.
#![tactic(auto)]

mod clients;
mod copies;
mod entries;
mod fault;
mod heads;
mod laws;
mod messages;
mod old_checkpoints;
mod rows;
mod shared;
mod sound;

pub use copies::{encode_copy_start, encode_rows};
pub use entries::{decode_entry, encode_entry};
pub use fault::WireError;
pub use heads::{CheckpointHead, decode_head, encode_head};
pub use laws::{every_checkpoint, every_entry, every_head, every_message, every_row};
pub use messages::{decode, encode};
pub use old_checkpoints::decode_checkpoint;
pub use rows::{decode_row, encode_row};
pub use shared::{encode_entry_of, share_entry};
