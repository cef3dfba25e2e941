//! The server of a canvas: what it knows, how it judges requests in turn, and what it tells of its log.
#![tactic(auto)]

mod form;
mod request;
mod server;
mod taking;

pub use form::{EntryForm, Plain};
pub use request::Request;
pub use server::{Server, ServerWith};
pub use taking::{Looked, TakeError, Took};
