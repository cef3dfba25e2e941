// The parts of a network.
ghost use Rattle.std.specs.Prelude.{◌≡◌, ◌<◌, ◌+◌, length, OnErr, IfOk, IfSome, IfNone, None, Some};
ghost use Rattle.std.specs.Option.{option_copied, option_map};
ghost use Rattle.canvas_model.specs.Numbered.{nth};
ghost use Rattle.canvas_model.specs.Receive.{Receives};
ghost use Rattle.canvas_model.specs.World as world;
ghost use Rattle.canvas_model.specs.Local as local;
ghost use Rattle.canvas_client.specs.Asked.{refusal};
ghost use Rattle.canvas_client.specs.Follow.{CanFollow};
ghost use Rattle.canvas_client.specs.Seen.{seen_received};
ghost use Rattle.canvas_judge.specs.Seen.{seen_message, seen_outcome};
ghost use Rattle.canvas_server.specs.Asked.{asked_by, seen_request};
ghost use Rattle.canvas_world.specs.Parts.{NodeEdits, asker_of};
ghost use Rattle.canvas_world.specs.Seen.{seen_answer};

use crate::Answer;
use canvas_client::{Client, EditError, EditRequest, Received};
use canvas_doc::Change;
use canvas_judge::{Message, Outcome};
use canvas_server::Request;
use std::alloc::{AllocError, Allocator, Global};
use std::marker::Model;

/// A message that was sent, by whom and to whom: 0 is the server.
pub struct Letter<A: Allocator = Global> {
    pub from: u64,
    pub to: u64,
    pub message: Message<A>,
}

impl<A: Allocator> Drop for Letter<A> {
    fn drop(self) {
        let Letter {
            from: _,
            to: _,
            message: _,
        } = self;
    }
}

impl<A: Allocator> Model for Letter<A> {
    ghost use Rattle.std.specs.Coded.{codes};
    ghost use Rattle.canvas_model.specs.World as world;
    ghost use Rattle.canvas_model.specs.Codes.{value_code, doc_code};
    ghost use Rattle.canvas_judge.specs.Seen.{seen_message};

    ghost Value = { world.Letter };

    ghost coded = { Prim.hlevel (codes, value_code, doc_code) };

    ghost view = { λ l. record { from = l.from; to = l.to; message = seen_message l.message } };
}

/// A client, and all edits that it ever made.
pub struct Node<A: Allocator = Global> {
    pub client: Client<A>,
    pub edits: Vec<Change<A>, A>,
}

impl<A: Allocator> Drop for Node<A> {
    fn drop(self) {
        let Node {
            client: _,
            edits: _,
        } = self;
    }
}

impl<A: Allocator> Model for Node<A> {
    ghost use Rattle.std.specs.Coded.{codes};
    ghost use Rattle.canvas_model.specs.World as world;
    ghost use Rattle.canvas_model.specs.Codes.{value_code, doc_code};

    ghost Value = { world.Node };

    ghost coded = { Prim.hlevel (codes, value_code, doc_code) };

    ghost view = { λ n. record { client = n.client; edits = n.edits.items } };
}

impl<A: Allocator + Copy> Node<A> {
    /// A new client, which has made no edit. Errors: out of memory.
    pub fn new(alloc: A) -> Result<Self, AllocError>
        ensures { IfOk result (λ n. n ≡ world.new_node) }
    {
        let client = Client::new(alloc)?;
        Ok(Node {
            client,
            edits: Vec::new(alloc),
        })
    }

    /// The client receives a message. If memory runs out, nothing has changed.
    pub fn receive(&mut self, message: &Message<A>) -> Result<Received, AllocError>
        ensures receives { IfOk result (λ answer. CanFollow (seen_message message.now) → Receives self.old.client (seen_message message.now) (seen_received answer) self.new.client) }
        ensures edits { self.new.edits ≡ self.old.edits }
        ensures err { OnErr result (self.new ≡ self.old) }
    {
        self.client.receive(message)
    }

    /// The client makes an edit, or refuses it. If memory runs out, nothing has changed.
    pub fn edit(&mut self, alloc: A, request: &EditRequest<A>) -> Result<Answer, AllocError>
        ensures edits { IfOk result (λ answer. NodeEdits self.old request.now (seen_answer answer) self.new) }
        ensures err { OnErr result (self.new ≡ self.old) }
    {
        let change = match self.client.draft(alloc, request) {
            Ok(change) => change,
            Err(error) => return refused(error),
        };
        let copy = change.copy_in(alloc)?;
        self.edits.reserve(1)?;
        let number = self.client.commit(change)?;
        self.edits.push_reserved(copy);
        Ok(Answer::EditIs(number))
    }
}

// The answer to a refused edit, unless memory ran out.
fn refused(error: EditError) -> Result<Answer, AllocError>
    ensures { IfOk result (λ answer. (e : local.EditError) × (refusal error ≡ Some e) × (seen_answer answer ≡ world.RefusedEdit e)) }
{
    match error {
        EditError::Memory => Err(AllocError),
        _ => Ok(Answer::RefusedEdit(error)),
    }
}

/// The element of this number, counted from 1.
pub fn numbered<T>(xs: &[T], n: u64) -> Option<&T>
    ensures { option_copied result ≡ nth xs.now n }
{
    if n == 0 { None } else { xs.get(n as usize - 1) }
}

/// The index of the element of this number, counted from 1.
pub fn index_of<T>(xs: &[T], n: u64) -> Option<usize>
    ensures some { IfSome result (λ i. (n ≡ i + 1) × (i < length xs.now)) }
    ensures none { IfNone result (nth xs.now n ≡ None) }
{
    if n == 0 || n > xs.len() as u64 {
        None
    } else {
        Some(n as usize - 1)
    }
}

/// The id that this outcome gave, if any.
pub fn joined_as<A: Allocator>(outcome: &Outcome<A>) -> Option<u32>
    ensures { result ≡ world.joined_as (seen_outcome outcome.now) }
{
    match outcome {
        Outcome::Joined(client) => Some(*client),
        Outcome::Created(_) => None,
        Outcome::WasSet => None,
        Outcome::Moved(_) => None,
        Outcome::Removed(_) => None,
        Outcome::Refused { .. } => None,
    }
}

/// The request that a message is, if it is one. Errors: out of memory.
pub fn request_in<A: Allocator + Copy>(
    alloc: A,
    message: &Message<A>,
) -> Result<Option<Request<A>>, AllocError>
    ensures { IfOk result (λ request. option_map seen_request request ≡ asked_by (seen_message message.now)) }
{
    match message {
        Message::Join => Ok(Some(Request::Join)),
        Message::Edit {
            client,
            seq,
            change,
        } => {
            let change = change.copy_in(alloc)?;
            Ok(Some(Request::Edit {
                client: *client,
                seq: *seq,
                change,
            }))
        }
        Message::Welcome(_) => Ok(None),
        Message::Ask { .. } => Ok(None),
        Message::Entry { .. } => Ok(None),
        Message::Copy(_) => Ok(None),
        Message::Idle => Ok(None),
        Message::No(_) => Ok(None),
    }
}

/// The node that asked for the request: the one that sent it, if it is a Join, else 0.
pub fn asker_of<A: Allocator>(request: &Request<A>, from: u64) -> u64
    ensures { result ≡ asker_of (seen_request request.now) from }
{
    match request {
        Request::Join => from,
        Request::Edit { .. } => 0,
    }
}
