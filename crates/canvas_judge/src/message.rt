// Messages between nodes and the server.
ghost use Rattle.std.specs.Prelude.{◌≡◌, ◌↔◌, ℕ, IfOk, IfSome, IfNone, IsTrue};
ghost use Rattle.canvas_model.specs.Change as change;
ghost use Rattle.canvas_model.specs.Messages as messages;
ghost use Rattle.canvas_judge.specs.Reasons.{number_of};
ghost use Rattle.canvas_judge.specs.Seen.{seen_copy, seen_message};

use crate::Entry;
use canvas_doc::{Change, Doc};
use std::alloc::{AllocError, Allocator, Global};
use thiserror::Error;

/// What a node and the server send each other. Contracts see it by `seen_message`.
#[derive(Debug)]
pub enum Message<A: Allocator = Global> {
    /// A node asks for an id.
    Join,
    /// The server gives this id.
    Welcome(u32),
    /// A client's edit.
    Edit {
        /// The client's id.
        client: u32,
        /// The client's number of the edit, from 1.
        seq: u64,
        /// What it asks for.
        change: Change<A>,
    },
    /// A client asks for what came after the version that it has.
    Ask {
        /// The client's id.
        client: u32,
        /// The version that it has.
        version: u64,
    },
    /// An entry of the log.
    Entry {
        /// The version that it leads to.
        version: u64,
        /// The judged request.
        entry: Entry<A>,
    },
    /// The document, for a client that is too far behind to be told each entry.
    Copy(DocCopy<A>),
    /// There is nothing more to tell.
    Idle,
    /// What was asked is refused.
    No(NoReason),
}

impl<A: Allocator> Drop for Message<A> {
    fn drop(self) {
        match self {
            Message::Join => {}
            Message::Welcome(_) => {}
            Message::Edit {
                client: _,
                seq: _,
                change: _,
            } => {}
            Message::Ask {
                client: _,
                version: _,
            } => {}
            Message::Entry {
                version: _,
                entry: _,
            } => {}
            Message::Copy(_) => {}
            Message::Idle => {}
            Message::No(_) => {}
        }
    }
}

/// A copy of the server's document for one client.
#[derive(Debug)]
pub struct DocCopy<A: Allocator = Global> {
    /// The version that it is of.
    pub version: u64,
    /// The number of the client's last edit that was judged by then.
    pub done: u64,
    /// The document at that version.
    pub doc: Doc<A>,
}

impl<A: Allocator> Drop for DocCopy<A> {
    fn drop(self) {
        let DocCopy {
            version: _,
            done: _,
            doc: _,
        } = self;
    }
}

/// Why the server doesn't do what a message asks.
#[derive(Clone, Copy, Debug, PartialEq, Eq)]
pub enum NoReason {
    /// No client has the id.
    Stranger = 1,
    /// The edit was judged before. A server never sends it: what is repeated is answered as what is new.
    Repeat = 2,
    /// An edit of a lower number is missing.
    Gap = 3,
    /// No version or no id is left.
    Full = 4,
    /// The device failed while the edit was kept.
    Device = 5,
    /// The device failed before.
    Failed = 6,
    /// Memory ran out.
    Memory = 7,
    /// The entry's record is too large.
    TooLarge = 8,
    /// The bytes are no message that a client sends.
    NotRead = 9,
}

impl NoReason {
    /// The reason's number, as it is sent.
    pub fn number(self) -> u8
        ensures { result ≡ number_of self }
    {
        self as u8
    }
}

/// No reason has the number.
#[derive(Clone, Copy, Debug, PartialEq, Eq, Error)]
#[error("the number of a No is from 1 to 9")]
pub struct NotANoReason;

/// The reason of this number.
impl TryFrom<u8> for NoReason {
    type Error = NotANoReason;

    ghost use Rattle.canvas_judge.specs.Reasons.{ReadsNumber};

    ghost try_from_gives = { ReadsNumber };

    fn try_from(number: u8) -> Result<NoReason, NotANoReason> {
        match number {
            1 => Ok(NoReason::Stranger),
            2 => Ok(NoReason::Repeat),
            3 => Ok(NoReason::Gap),
            4 => Ok(NoReason::Full),
            5 => Ok(NoReason::Device),
            6 => Ok(NoReason::Failed),
            7 => Ok(NoReason::Memory),
            8 => Ok(NoReason::TooLarge),
            9 => Ok(NoReason::NotRead),
            _ => Err(NotANoReason),
        }
    }
}

impl<A: Allocator> DocCopy<A> {
    /// The same under another allocator. Errors: out of memory.
    pub fn copy_in<B: Allocator + Copy>(&self, alloc: B) -> Result<DocCopy<B>, AllocError>
        ensures { IfOk result (λ copy. seen_copy copy ≡ seen_copy self.now) }
    {
        let doc = self.doc.copy(alloc)?;
        Ok(DocCopy {
            version: self.version,
            done: self.done,
            doc,
        })
    }

    /// Checks whether both are the same.
    pub fn same<B: Allocator>(&self, other: &DocCopy<B>) -> bool
        ensures { IsTrue result ↔ (seen_copy self.now ≡ seen_copy other.now) }
    {
        self.version == other.version && self.done == other.done && self.doc.same(&other.doc)
    }
}

impl<A: Allocator> Message<A> {
    /// The same under another allocator. Errors: out of memory.
    pub fn copy_in<B: Allocator + Copy>(&self, alloc: B) -> Result<Message<B>, AllocError>
        ensures { IfOk result (λ copy. seen_message copy ≡ seen_message self.now) }
    {
        match self {
            Message::Join => Ok(Message::Join),
            Message::Welcome(client) => Ok(Message::Welcome(*client)),
            Message::Edit {
                client,
                seq,
                change,
            } => {
                let change = change.copy_in(alloc)?;
                Ok(Message::Edit {
                    client: *client,
                    seq: *seq,
                    change,
                })
            }
            Message::Ask { client, version } => Ok(Message::Ask {
                client: *client,
                version: *version,
            }),
            Message::Entry { version, entry } => {
                let entry = entry.copy_in(alloc)?;
                Ok(Message::Entry {
                    version: *version,
                    entry,
                })
            }
            Message::Copy(copy) => Ok(Message::Copy(copy.copy_in(alloc)?)),
            Message::Idle => Ok(Message::Idle),
            Message::No(reason) => Ok(Message::No(*reason)),
        }
    }

    /// The client, the number and the change of an Edit. None of any other message.
    pub fn into_edit(self) -> Option<(u32, u64, Change<A>)>
        ensures some { IfSome result (λ edit. seen_message self ≡ messages.Edit edit.0 edit.1 edit.2) }
        ensures none { IfNone result ((client seq : ℕ) (change : change.Change) → seen_message self ≡ messages.Edit client seq change → ⊥) }
    {
        match self {
            Message::Edit {
                client,
                seq,
                change,
            } => Some((client, seq, change)),
            _ => None,
        }
    }

    /// Checks whether both say the same.
    pub fn same<B: Allocator>(&self, other: &Message<B>) -> bool
        ensures { IsTrue result ↔ (seen_message self.now ≡ seen_message other.now) }
    {
        match (self, other) {
            (Message::Join, Message::Join) => true,
            (Message::Welcome(client), Message::Welcome(other)) => *client == *other,
            (
                Message::Edit {
                    client,
                    seq,
                    change,
                },
                Message::Edit {
                    client: other_client,
                    seq: other_seq,
                    change: other_change,
                },
            ) => *client == *other_client && *seq == *other_seq && change.same(other_change),
            (
                Message::Ask { client, version },
                Message::Ask {
                    client: other_client,
                    version: other_version,
                },
            ) => *client == *other_client && *version == *other_version,
            (
                Message::Entry { version, entry },
                Message::Entry {
                    version: other_version,
                    entry: other_entry,
                },
            ) => *version == *other_version && entry.same(other_entry),
            (Message::Copy(copy), Message::Copy(other)) => copy.same(other),
            (Message::Idle, Message::Idle) => true,
            (Message::No(reason), Message::No(other)) => *reason == *other,
            _ => false,
        }
    }
}
