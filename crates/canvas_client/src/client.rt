// A client.
ghost use Rattle.std.specs.Prelude.{◌≡◌, ◌↔◌, ℕ, ◌≤◌, ◌<◌, ◌+◌, ◌-◌, true, false, Some, cond, IsTrue, IfOk, OnOk, OnErr, length, slice_get};
ghost use Rattle.std.specs.Option.{option_copied, option_map};
ghost use Rattle.canvas_model.specs.Client.{last_number, new_client};
ghost use Rattle.canvas_model.specs.Messages.{Welcome};
ghost use Rattle.canvas_model.specs.Messages as messages;
ghost use Rattle.canvas_model.specs.Receive.{IsNextEdit, Receives, after_copy, after_entry};
ghost use Rattle.canvas_judge.specs.Seen.{seen_copy, seen_message};
ghost use Rattle.canvas_client.specs.Follow.{CanFollow, LeavesRoot};
ghost use Rattle.canvas_client.specs.Kept.{IsKept};
ghost use Rattle.canvas_client.specs.Receives.{ChangesOnlyWhereTook, IsWaiting, ReceivesApart, StaysUpright, showing};
ghost use Rattle.canvas_client.specs.Seen.{seen_received};

use crate::laws::every_told_entry;
use crate::{Merged, Received};
use canvas_doc::{Change, Doc};
use canvas_judge::{DocCopy, Entry, Message, What};
use canvas_model::every_view;
use std::alloc::{AllocError, Allocator, Global};
use std::marker::Model;

/// A client: what it shows, and those edits of its own that wait to be judged. It keeps no copy of the server's document.
///
/// What its waiting edits create is its own, each object once, and never the root; without an id nothing waits. It makes at most
/// 2^62 edits.
pub struct Client<A: Allocator = Global> {
    pub(crate) id: Option<u32>,
    pub(crate) counter: u32,
    pub(crate) version: u64,
    pub(crate) acknowledged: u64,
    pub(crate) merged: Merged<A>,
}

impl<A: Allocator> Drop for Client<A> {
    fn drop(self) {
        let Client {
            id: _,
            counter: _,
            version: _,
            acknowledged: _,
            merged: _,
        } = self;
    }
}

impl<A: Allocator> Model for Client<A> {
    ghost use Rattle.std.specs.Coded.{codes};
    ghost use Rattle.canvas_model.specs.Client as client;
    ghost use Rattle.canvas_model.specs.Codes.{value_code, doc_code};
    ghost use Rattle.canvas_client.specs.Kept.{IsKept};

    ghost Value = { client.Client };

    ghost coded = { Prim.hlevel (codes, value_code, doc_code) };

    ghost view = { λ c. record { id = c.id; counter = c.counter; version = c.version; acknowledged = c.acknowledged; waiting = c.merged.waiting; view = c.merged.shown.doc } };

    ghost invariant = { λ c. IsKept (record { id = c.id; counter = c.counter; version = c.version; acknowledged = c.acknowledged; waiting = c.merged.waiting; view = c.merged.shown.doc }) };
}

impl<A: Allocator> Client<A> {
    /// The id that it was given, if it has one.
    pub fn id(&self) -> Option<u32>
        ensures { result ≡ self.now.id }
    {
        self.id
    }

    /// The version up to which it has taken the log, 0 at first.
    pub fn version(&self) -> u64
        ensures { result ≡ self.now.version }
    {
        self.version
    }

    /// The number of its last edit that it knows to be judged, 0 at first.
    pub fn acknowledged(&self) -> u64
        ensures { result ≡ self.now.acknowledged }
    {
        self.acknowledged
    }

    /// The counter of its last creation, 0 at first.
    pub fn counter(&self) -> u32
        ensures { result ≡ self.now.counter }
    {
        self.counter
    }

    /// How many of its edits wait to be judged.
    pub fn unacknowledged(&self) -> u64
        ensures { result ≡ length self.now.waiting }
    {
        self.merged.waiting.len() as u64
    }

    /// The edit at this index of those that wait, the oldest first, or none from the end on.
    pub fn waiting_edit(&self, index: usize) -> Option<&Change<A>>
        ensures { option_copied result ≡ slice_get self.now.waiting index }
    {
        self.merged.waiting.get(index)
    }

    /// What it shows: the document as far as it knows it, with the waiting edits laid over it.
    pub fn view(&self) -> &Doc<A>
        ensures view { result.now ≡ self.now.view }
        ensures kept { IsKept self.now }
    {
        &self.merged.shown.doc
    }

    /// What it shows and what waits, with the count of their changes.
    pub fn merged(&self) -> &Merged<A>
        ensures waiting { result.now.waiting ≡ self.now.waiting }
        ensures view { result.now.shown.doc ≡ self.now.view }
    {
        &self.merged
    }

    /// How many changes of the view and of the counts of waiting edits the last taken entry made, 0 after a copy or a welcome.
    pub fn last_changes(&self) -> u64 {
        self.merged.last_changes()
    }

    /// The message with which a node asks for an id.
    pub fn join_message() -> Message<A>
        ensures { seen_message result ≡ messages.Join }
    {
        Message::Join
    }

    /// The message with which it asks for what came after its version; none while it has no id.
    pub fn ask_message(&self) -> Option<Message<A>>
        ensures { option_map seen_message result ≡ option_map (λ client. messages.Ask client self.now.version) self.now.id }
    {
        let client = self.id?;
        Some(Message::Ask {
            client,
            version: self.version,
        })
    }

    /// The i-th of the edits that wait, counted from 1, as the message to send. Errors: out of memory.
    pub fn message<B: Allocator + Copy>(&self, alloc: B, i: u64) -> Result<Message<B>, AllocError>
        requires least { 0 < i }
        requires most { i ≤ length self.now.waiting }
        ensures { IfOk result (λ message. IsWaiting self.now i (seen_message message)) }
    {
        let change = self
            .merged
            .waiting
            .get(i as usize - 1)
            .unwrap()
            .copy_in(alloc)?;
        let client = self.id.unwrap_or(0);
        Ok(Message::Edit {
            client,
            seq: self.acknowledged + i,
            change,
        })
    }

    // Checks whether the entry has the number and the change of the first edit that waits.
    fn is_next<B: Allocator>(&self, entry: &Entry<B>) -> bool
        ensures { IsTrue result ↔ IsNextEdit self.now entry.now }
    {
        let What::Edit(change) = &entry.what else {
            return false;
        };
        match self.merged.waiting.get(0) {
            Some(first) => entry.seq == self.acknowledged + 1 && change.same(first),
            None => false,
        }
    }

    // Checks whether the entry of the next version may be taken; `own` says that it is of this client's id.
    fn may_take<B: Allocator>(&self, own: bool, entry: &Entry<B>) -> bool
        ensures yes { IsTrue result → own ≡ true → IsNextEdit self.now entry.now }
        ensures no { result ≡ false → (own ≡ true) × (IsNextEdit self.now entry.now → ⊥) }
    {
        !own || self.is_next(entry)
    }

    // Checks whether so many of its edits may be judged: those that it knows to be, and some of those that wait.
    fn may_be_judged(&self, done: u64) -> bool
        ensures { IsTrue result ↔ (self.now.acknowledged ≤ done) × (done ≤ last_number self.now) }
    {
        self.acknowledged <= done && done - self.acknowledged <= self.merged.waiting.len() as u64
    }

    // Takes an id, where it has none.
    fn receive_welcome(&mut self, id: u32) -> Received
        ensures receives { Receives self.old (Welcome id) (seen_received result) self.new }
        ensures unchanged { ChangesOnlyWhereTook self.old (seen_received result) self.new }
    {
        if self.id.is_some() {
            return Received::Old;
        }
        self.id = Some(id);
        self.merged.last = 0;
        Received::Took
    }
}

impl<A: Allocator + Copy> Client<A> {
    /// A client without an id, which shows the root alone. Errors: out of memory.
    pub fn new(alloc: A) -> Result<Self, AllocError>
        ensures { IfOk result (λ client. client ≡ new_client) }
    {
        let merged = Merged::new(alloc)?;
        Ok(Client {
            id: None,
            counter: 0,
            version: 0,
            acknowledged: 0,
            merged,
        })
    }

    /// Receives a message, and answers what it did with it. `Took`: a welcome while it has no id; the entry of the next version, where
    /// one of its own is the first edit that waits; a copy of a later version, whose `done` counts the edits that it knows to be judged
    /// and some of those that wait. An entry that gives the root a place, or removes it, which no server tells, is taken like every
    /// other, but the view then takes something of it or nothing. Any other answer than `Took` changes nothing. Fails only if
    /// memory runs out, and then nothing has changed.
    pub fn receive<B: Allocator + Copy>(
        &mut self,
        message: &Message<B>,
    ) -> Result<Received, AllocError>
        ensures apart { IfOk result (λ answer. ReceivesApart self.old (seen_message message.now) (seen_received answer) self.new) }
        ensures receives { IfOk result (λ answer. CanFollow (seen_message message.now) → Receives self.old (seen_message message.now) (seen_received answer) self.new) }
        ensures unchanged { IfOk result (λ answer. ChangesOnlyWhereTook self.old (seen_received answer) self.new) }
        ensures stands { IfOk result (λ answer. StaysUpright self.old (seen_message message.now) (seen_received answer) self.new) }
        ensures err { OnErr result (self.new ≡ self.old) }
    {
        every_view();
        every_told_entry();
        // The view is lent, as with it comes what holds of every client.
        let _ = self.view();
        self.respond(message)
    }

    // Receives a message; where the client then stands isn't said.
    fn respond<B: Allocator + Copy>(&mut self, message: &Message<B>) -> Result<Received, AllocError>
        ensures apart { IfOk result (λ answer. ReceivesApart self.old (seen_message message.now) (seen_received answer) self.new) }
        ensures receives { IfOk result (λ answer. CanFollow (seen_message message.now) → Receives self.old (seen_message message.now) (seen_received answer) self.new) }
        ensures unchanged { IfOk result (λ answer. ChangesOnlyWhereTook self.old (seen_received answer) self.new) }
        ensures err { OnErr result (self.new ≡ self.old) }
    {
        match message {
            Message::Welcome(id) => Ok(self.receive_welcome(*id)),
            Message::Entry { version, entry } => self.receive_entry(*version, entry),
            Message::Copy(copy) => self.receive_copy(copy),
            _ => Ok(Received::NotForMe),
        }
    }

    // Receives the entry of this version.
    fn receive_entry<B: Allocator>(
        &mut self,
        version: u64,
        entry: &Entry<B>,
    ) -> Result<Received, AllocError>
        ensures apart { IfOk result (λ answer. ReceivesApart self.old (messages.Entry version entry.now) (seen_received answer) self.new) }
        ensures receives { IfOk result (λ answer. LeavesRoot entry.now → Receives self.old (messages.Entry version entry.now) (seen_received answer) self.new) }
        ensures unchanged { IfOk result (λ answer. ChangesOnlyWhereTook self.old (seen_received answer) self.new) }
        ensures err { OnErr result (self.new ≡ self.old) }
    {
        let Some(id) = self.id() else {
            return Ok(Received::NotForMe);
        };
        if version <= self.version() {
            return Ok(Received::Old);
        }
        if version - self.version() > 1 {
            return Ok(Received::Ahead);
        }
        let own = id == entry.author;
        if !self.may_take(own, entry) {
            return Ok(Received::NotForMe);
        }
        self.take_entry(own, version, entry)?;
        Ok(Received::Took)
    }

    // Takes the entry of the next version; `own` says that it is the client's own next one.
    fn take_entry<B: Allocator>(
        &mut self,
        own: bool,
        version: u64,
        entry: &Entry<B>,
    ) -> Result<(), AllocError>
        requires { own ≡ true → IsNextEdit self.old entry.now }
        ensures apart { OnOk result (showing (after_entry own self.old version entry.now).view self.new ≡ after_entry own self.old version entry.now) }
        ensures takes { OnOk result (LeavesRoot entry.now → self.new ≡ after_entry own self.old version entry.now) }
        ensures err { OnErr result (self.new ≡ self.old) }
    {
        self.merged.take(own, entry)?;
        self.acknowledged += judged_by(own);
        self.version = version;
        Ok(())
    }

    // Receives a copy of the document.
    fn receive_copy<B: Allocator + Copy>(
        &mut self,
        copy: &DocCopy<B>,
    ) -> Result<Received, AllocError>
        ensures receives { IfOk result (λ answer. Receives self.old (seen_copy copy.now) (seen_received answer) self.new) }
        ensures unchanged { IfOk result (λ answer. ChangesOnlyWhereTook self.old (seen_received answer) self.new) }
        ensures err { OnErr result (self.new ≡ self.old) }
    {
        if self.id().is_none() {
            return Ok(Received::NotForMe);
        }
        if copy.version <= self.version() {
            return Ok(Received::Old);
        }
        if !self.may_be_judged(copy.done) {
            return Ok(Received::NotForMe);
        }
        self.take_copy(copy)?;
        Ok(Received::Took)
    }

    // Takes a copy of the document, and lays over it what still waits.
    fn take_copy<B: Allocator + Copy>(&mut self, copy: &DocCopy<B>) -> Result<(), AllocError>
        requires least { self.old.acknowledged ≤ copy.now.done }
        requires most { copy.now.done ≤ last_number self.old }
        ensures ok { OnOk result (self.new ≡ after_copy self.old copy.now.version copy.now.done copy.now.doc) }
        ensures err { OnErr result (self.new ≡ self.old) }
    {
        let count = (copy.done - self.acknowledged) as usize;
        self.merged.lay_anew(&copy.doc, count)?;
        self.acknowledged = copy.done;
        self.version = copy.version;
        Ok(())
    }
}

// How many of the edits that wait an entry judges; `own` says that it is the client's own next one.
fn judged_by(own: bool) -> u64
    ensures { result ≡ cond own 1 0 }
{
    if own { 1 } else { 0 }
}
