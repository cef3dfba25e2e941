// Events and their answers.
ghost use Rattle.std.specs.Prelude.{◌≡◌};
ghost use Rattle.canvas_world.specs.Seen.{seen_event};

use canvas_client::{EditError, EditRequest, Received};
use std::alloc::{Allocator, Global};
use std::marker::Model;

/// What can happen in a world.
pub struct Event<A: Allocator = Global> {
    variant: EventVariant<A>,
}

impl<A: Allocator> Drop for Event<A> {
    fn drop(self) {
        let Event { variant: _ } = self;
    }
}

/// What happens. Nodes, messages and versions count from 1. What needs something that isn't there answers `Nothing`, and then nothing
/// changes.
#[derive(Drop)]
pub enum EventVariant<A: Allocator = Global> {
    /// A new client is the next node.
    AddNode,
    /// Node `k` asks for an id, if it has none.
    AskJoin(u64),
    /// Node `k` makes an edit, or refuses it.
    Edit(u64, EditRequest<A>),
    /// Node `k` sends the `i`-th of its edits that wait.
    Send(u64, u64),
    /// The server takes message `m`, if it was sent to it.
    Take(u64),
    /// The whole log is synced.
    Sync,
    /// All that is synced is published.
    Publish,
    /// The id that published entry `v` gave is sent to the node that asked for it.
    Welcome(u64),
    /// Entry `v`, which is published and past the floor, is told to node `k`.
    Tell(u64, u64),
    /// A copy of the document, all of which is published, is sent to node `k`, if it has an id.
    Copy(u64),
    /// Message `m` reaches its node.
    Deliver(u64),
    /// The floor is the last version, if all is published.
    Checkpoint,
    /// The server starts again with the first `n` entries, no fewer than are synced.
    Restart(u64),
}

impl<A: Allocator> Model for Event<A> {
    ghost use Rattle.std.specs.Coded.{codes};
    ghost use Rattle.canvas_model.specs.World as world;
    ghost use Rattle.canvas_model.specs.Codes.{value_code};

    ghost Value = { world.Event };

    ghost coded = { Prim.hlevel (codes, value_code) };

    ghost use Rattle.canvas_world.specs.Seen.{seen_event};

    ghost view = { λ e. seen_event e.variant };
}

impl<A: Allocator> Event<A> {
    /// An event.
    pub fn new(variant: EventVariant<A>) -> Self
        ensures { result ≡ seen_event variant }
    {
        Event { variant }
    }

    /// What happens.
    pub fn variant(&self) -> &EventVariant<A>
        ensures { seen_event result.now ≡ self.now }
    {
        &self.variant
    }
}

/// What an event answers.
#[derive(Clone, Copy, Debug, PartialEq, Eq)]
pub enum Answer {
    /// It can't happen, and nothing has changed.
    Nothing,
    /// The number of the new node.
    NodeIs(u64),
    /// The number of the message that was sent.
    MessageIs(u64),
    /// The number of the node's edit.
    EditIs(u64),
    /// The node refuses the edit.
    RefusedEdit(EditError),
    /// The server judged the request, and its entry made this version.
    Judged(u64),
    /// The edit was judged already.
    Repeat,
    /// An edit before this one is missing.
    Gap,
    /// The edit's client hasn't joined.
    Stranger,
    /// No version or no id is left.
    FullServer,
    /// So many entries are synced.
    SyncedIs(u64),
    /// So many entries are published.
    PublishedIs(u64),
    /// What the node did with the message.
    Delivered(Received),
    /// So many entries were passed by the checkpoint.
    FloorIs(u64),
    /// The version at which the server starts again.
    VersionIs(u64),
}
