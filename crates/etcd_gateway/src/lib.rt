//! What is said to an etcd by its gateway, which takes JSON over HTTP/1.1: requests as bytes, and answers from bytes. This crate knows no
//! sockets.
#![tactic(auto)]

mod answers;
mod chunk;
mod error;
mod head;
mod host;
mod keys;
mod owner;
mod posts;
mod reader;
mod requests;

pub use answers::{
    Committed, Found, GatewayRefusal, KeyValue, Lease, read_committed, read_found, read_granted,
    read_kept, read_refused,
};
pub use error::GatewayError;
pub use head::MAX_HEAD;
pub use host::{Host, copy_hosts, host_of};
pub use keys::{
    ChunkPlace, Keys, all_chunks, chunk_key, chunks_of, end_key, every_chunk_key, identity_key,
    is_name, one_key, owner_key, place_digits, place_in, place_of,
};
pub use owner::{every_owner_value, owner_value};
pub use posts::GatewayCall;
pub use reader::{Answer, AnswerReader};
pub use requests::{
    Expected, KeyChange, ask_commit, ask_grant, ask_keep_alive, ask_range, ask_revoke,
};
