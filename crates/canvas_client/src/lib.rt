//! A client of the canvas: what it shows, the edits of its own that wait for the server, and what it does with each message.
#![tactic(auto)]

mod changes;
mod client;
mod drafting;
mod ends;
mod error;
mod fields;
mod laws;
mod local;
mod merged;
mod overlay;
mod parts;
mod placed;
mod received;
mod request;
mod resuming;
mod shown;

pub use changes::Changes;
pub use client::Client;
pub use error::{EditError, EndError, PlaceError};
pub use laws::{every_placed_edit, every_told_entry};
pub use merged::Merged;
pub use parts::ClientParts;
pub use received::Received;
pub use request::{EditRequest, EditRequestVariant};
