//! The unsent bytes of a connection, which let every write return at once; texts that may share a part; and a check for peers that take too
//! little.
#![tactic(auto)]

mod outbox;
mod patience;
mod text;
mod unsent;

pub use outbox::{Backlog, Outbox, SharedWrite};
pub use patience::Patience;
pub use text::{Text, own_texts};

/// So many bytes that wait are much: 256 KiB.
pub const MUCH_WAITS: usize = 256 * 1024;
