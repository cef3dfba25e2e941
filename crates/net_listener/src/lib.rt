//! What the port of a server knows of connections whose head isn't whole yet: a bounded queue of what waits, with deadlines, and the request
//! that the bytes so far begin with. Bytes and times in, decisions out: this crate knows no sockets.
#![tactic(auto)]

mod hearing;
mod queue;

pub use hearing::{MOST_HEAD_BYTES, request_in};
pub use queue::{Queue, Waiting};
