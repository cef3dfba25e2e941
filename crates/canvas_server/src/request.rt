// Requests.
ghost use Rattle.std.specs.Prelude.{◌≡◌, ◌↔◌, IfNone, IfOk, IfSome, IsTrue};
ghost use Rattle.std.specs.Option.{option_map};
ghost use Rattle.canvas_model.specs.Log.{Edit, Join};
ghost use Rattle.canvas_judge.specs.Seen.{seen_message};
ghost use Rattle.canvas_server.specs.Asked.{asked_by, seen_request};

use canvas_doc::Change;
use canvas_judge::Message;
use std::alloc::{AllocError, Allocator, Global};

/// What the server is asked. Contracts see it by `seen_request`.
#[derive(Debug)]
pub enum Request<A: Allocator = Global> {
    /// An id for a new client.
    Join,
    /// A client's edit.
    Edit {
        /// The client that asks.
        client: u32,
        /// The client's number of the edit, from 1 on without gaps.
        seq: u64,
        /// What it asks for.
        change: Change<A>,
    },
}

impl<A: Allocator> Drop for Request<A> {
    fn drop(self) {
        match self {
            Request::Join => {}
            Request::Edit {
                client: _,
                seq: _,
                change: _,
            } => {}
        }
    }
}

impl<A: Allocator> Request<A> {
    /// Returns the request that a message makes; `None` if it is no Join and no edit.
    pub fn asked_by(message: Message<A>) -> Option<Request<A>>
        ensures { option_map seen_request result ≡ asked_by (seen_message message) }
    {
        if let Message::Join = &message {
            return Some(Request::Join);
        }
        match message.into_edit() {
            Some(edit) => {
                let (client, seq, change) = edit;
                Some(Request::Edit {
                    client,
                    seq,
                    change,
                })
            }
            None => None,
        }
    }

    /// Returns the same under another allocator. Errors: out of memory.
    pub fn copy_in<B: Allocator + Copy>(&self, alloc: B) -> Result<Request<B>, AllocError>
        ensures { IfOk result (λ copy. seen_request copy ≡ seen_request self.now) }
    {
        match self {
            Request::Join => Ok(Request::Join),
            Request::Edit {
                client,
                seq,
                change,
            } => Ok(Request::Edit {
                client: *client,
                seq: *seq,
                change: change.copy_in(alloc)?,
            }),
        }
    }

    /// Returns the client, the number and the change of an edit; `None` for a Join.
    pub fn into_edit(self) -> Option<(u32, u64, Change<A>)>
        ensures some { IfSome result (λ edit. seen_request self ≡ record { author = edit.0; seq = edit.1; what = Edit edit.2 }) }
        ensures none { IfNone result (seen_request self ≡ record { author = 0; seq = 0; what = Join }) }
    {
        match self {
            Request::Join => None,
            Request::Edit {
                client,
                seq,
                change,
            } => Some((client, seq, change)),
        }
    }

    /// Checks whether both ask the same.
    pub fn same<B: Allocator>(&self, other: &Request<B>) -> bool
        ensures { IsTrue result ↔ (seen_request self.now ≡ seen_request other.now) }
    {
        match (self, other) {
            (Request::Join, Request::Join) => true,
            (
                Request::Edit {
                    client,
                    seq,
                    change,
                },
                Request::Edit {
                    client: other_client,
                    seq: other_seq,
                    change: other_change,
                },
            ) => *client == *other_client && *seq == *other_seq && change.same(other_change),
            _ => false,
        }
    }
}
