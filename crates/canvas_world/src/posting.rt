// The messages that events send.
ghost use Rattle.std.specs.Prelude.{◌≡◌, ◌+◌, length, IfOk, OnErr};
ghost use Rattle.canvas_model.specs.World.{Event, MessageIs, Step};
ghost use Rattle.canvas_model.specs.World as world;
ghost use Rattle.canvas_world.specs.Parts.{IsPost};
ghost use Rattle.canvas_world.specs.Seen.{seen_answer};

use crate::parts::{Letter, joined_as, numbered};
use crate::{Answer, Network};
use canvas_client::Client;
use canvas_judge::Message;
use canvas_model::{every_good_world, every_step};
use std::alloc::{AllocError, Allocator};

impl<A: Allocator + Copy> Network<A> {
    // A node without an id asks for one.
    pub(crate) fn asking(&self, k: u64) -> Option<Letter<A>>
        ensures { IsPost self.now (world.AskJoin k) result }
    {
        let node = numbered(&self.nodes, k)?;
        if node.client.id().is_some() {
            return None;
        }
        let message = Client::join_message();
        Some(Letter {
            from: k,
            to: 0,
            message,
        })
    }

    // A node sends an edit that waits.
    pub(crate) fn sending(&self, alloc: A, k: u64, i: u64) -> Result<Option<Letter<A>>, AllocError>
        ensures { IfOk result (λ letter. IsPost self.now (world.Send k i) letter) }
    {
        let Some(node) = numbered(&self.nodes, k) else {
            return Ok(None);
        };
        if i == 0 || i > node.client.unacknowledged() {
            return Ok(None);
        }
        let message = node.client.message(alloc, i)?;
        Ok(Some(Letter {
            from: k,
            to: 0,
            message,
        }))
    }

    // The id that a published entry gave goes to the node that asked.
    pub(crate) fn welcoming(&self, v: u64) -> Option<Letter<A>>
        ensures { IsPost self.now (world.SendWelcome v) result }
    {
        if v > self.server.published() {
            return None;
        }
        let entry = numbered(&self.log, v)?;
        let client = joined_as(&entry.outcome)?;
        let asker = numbered(&self.askers, v)?;
        Some(Letter {
            from: 0,
            to: *asker,
            message: Message::Welcome(client),
        })
    }

    // A published entry past the floor is told to a node.
    pub(crate) fn telling(&self, alloc: A, v: u64, k: u64) -> Result<Option<Letter<A>>, AllocError>
        ensures { IfOk result (λ letter. IsPost self.now (world.Tell v k) letter) }
    {
        if v == 0 {
            return Ok(None);
        }
        let Some(_node) = numbered(&self.nodes, k) else {
            return Ok(None);
        };
        let Some(mut tail) = self.server.tail(alloc, v - 1, 1)? else {
            return Ok(None);
        };
        let Some(entry) = tail.pop() else {
            return Ok(None);
        };
        Ok(Some(Letter {
            from: 0,
            to: k,
            message: Message::Entry { version: v, entry },
        }))
    }

    // The document, all of which is published, goes to a node that has an id.
    pub(crate) fn copying(&self, alloc: A, k: u64) -> Result<Option<Letter<A>>, AllocError>
        ensures { IfOk result (λ letter. IsPost self.now (world.Copy k) letter) }
    {
        every_good_world();
        let Some(node) = numbered(&self.nodes, k) else {
            return Ok(None);
        };
        let Some(client) = node.client.id() else {
            return Ok(None);
        };
        let Some(copy) = self.server.copy_for(alloc, client)? else {
            return Ok(None);
        };
        Ok(Some(Letter {
            from: 0,
            to: k,
            message: Message::Copy(copy),
        }))
    }

    // A node asks for an id. If memory runs out, nothing has changed.
    pub(crate) fn ask_join(&mut self, k: u64) -> Result<Answer, AllocError>
        ensures step { IfOk result (λ answer. Step self.old (world.AskJoin k) (seen_answer answer) self.new) }
        ensures err { OnErr result (self.new ≡ self.old) }
    {
        let letter = self.asking(k);
        self.post(letter)
    }

    // A node sends an edit that waits. If memory runs out, nothing has changed.
    pub(crate) fn send(&mut self, k: u64, i: u64) -> Result<Answer, AllocError>
        ensures step { IfOk result (λ answer. Step self.old (world.Send k i) (seen_answer answer) self.new) }
        ensures err { OnErr result (self.new ≡ self.old) }
    {
        let letter = self.sending(*self.nodes.allocator(), k, i)?;
        self.post(letter)
    }

    // An id is sent to the node that asked. If memory runs out, nothing has changed.
    pub(crate) fn welcome(&mut self, v: u64) -> Result<Answer, AllocError>
        ensures step { IfOk result (λ answer. Step self.old (world.SendWelcome v) (seen_answer answer) self.new) }
        ensures err { OnErr result (self.new ≡ self.old) }
    {
        let letter = self.welcoming(v);
        self.post(letter)
    }

    // An entry is told to a node. If memory runs out, nothing has changed.
    pub(crate) fn tell(&mut self, v: u64, k: u64) -> Result<Answer, AllocError>
        ensures step { IfOk result (λ answer. Step self.old (world.Tell v k) (seen_answer answer) self.new) }
        ensures err { OnErr result (self.new ≡ self.old) }
    {
        let letter = self.telling(*self.nodes.allocator(), v, k)?;
        self.post(letter)
    }

    // A copy of the document is sent to a node. If memory runs out, nothing has changed.
    pub(crate) fn copy(&mut self, k: u64) -> Result<Answer, AllocError>
        ensures step { IfOk result (λ answer. Step self.old (world.Copy k) (seen_answer answer) self.new) }
        ensures err { OnErr result (self.new ≡ self.old) }
    {
        let letter = self.copying(*self.nodes.allocator(), k)?;
        self.post(letter)
    }

    // Sends the message of an event, if it has one. If memory runs out, nothing has changed.
    pub(crate) fn post(&mut self, letter: Option<Letter<A>>) -> Result<Answer, AllocError>
        requires { (event : Event) × IsPost self.old event letter }
        ensures step { IfOk result (λ answer. (event : Event) → IsPost self.old event letter → Step self.old event (seen_answer answer) self.new) }
        ensures err { OnErr result (self.new ≡ self.old) }
    {
        every_step();
        let Some(letter) = letter else {
            return Ok(Answer::Nothing);
        };
        self.letters.push(letter)?;
        Ok(Answer::MessageIs(self.letters.len() as u64))
    }
}
