// The terms of a server's seat.
ghost use Rattle.std.specs.Prelude.{◌≡◌, IfErr, IfNone, IfOk, IfSome, map};
ghost use Rattle.canvas_model.specs.Messages as messages;
ghost use Rattle.canvas_board.specs.Marks.{board};
ghost use Rattle.canvas_judge.specs.Seen.{seen_message};
ghost use Rattle.canvas_live.specs.Words.{SpellsNoWord, SpellsWord};
ghost use Rattle.canvas_nodes.specs.Answers.{GivesTexts, IsUnasked, SpellsAsked};
ghost use Rattle.net_outbox.specs.Texts.{text_bytes};
ghost use Rattle.room_handler.specs.Table.{Gives, SeesOn, TellsCopyAt};
ghost use Rattle.canvas_turns.specs.Told.{AreAll};
ghost use Rattle.app_server.specs.Live.{TellsSomeHere};

use crate::budget::{Budget, bytes_of_answer, bytes_of_push};
use crate::copies::Copies;
use crate::presence::Presence;
use app_listener::Shared;
use canvas_board::RoomName;
use canvas_desk::TailLimit;
use canvas_judge::{Message, NoReason};
use canvas_live::{Here, Word};
use canvas_room::{Pace, Seat};
use net_outbox::Text;
use room_handler::{Terms, Told, is_too_large};
use std::alloc::{AllocError, Global};
use std::cell::Cell;
use std::sync::{Arc, Wait};
use std::time::Clock;

/// What a seat of a server keeps of a connection from one message to the next.
#[derive(Drop)]
pub(crate) struct SeatFlags {
    // True if it was given a copy since all was sent.
    has_copy: Cell<bool>,
    // The bytes that it has taken of the budget, and those that its next push needs.
    taken: Cell<u64>,
    wanted: Cell<Option<u64>>,
    // True if the last message could be read and got a reply.
    has_answered: Cell<bool>,
    // The version of a published entry of this seat, until the bell is rung.
    published: Cell<Option<u64>>,
    // True if there was no room for its last long answer.
    is_refused: Cell<bool>,
    // The number of what was whispered last to its client, and of what that has told last of itself, or 0.
    heard: Cell<u64>,
    told: Cell<u64>,
    // True if its client waits for a copy, and if one was written for it in its step.
    awaits_copy: Cell<bool>,
    has_written: Cell<bool>,
}

impl SeatFlags {
    /// Returns the flags of a seat that has read no message.
    pub(crate) fn new() -> SeatFlags {
        SeatFlags {
            has_copy: Cell::new(false),
            taken: Cell::new(0),
            wanted: Cell::new(None),
            has_answered: Cell::new(false),
            published: Cell::new(None),
            is_refused: Cell::new(false),
            heard: Cell::new(0),
            told: Cell::new(0),
            awaits_copy: Cell::new(false),
            has_written: Cell::new(false),
        }
    }

    /// Exchanges what these keep with what those keep.
    pub(crate) fn swap(&self, others: &SeatFlags) {
        self.has_copy.swap(&others.has_copy);
        self.taken.swap(&others.taken);
        self.wanted.swap(&others.wanted);
        self.has_answered.swap(&others.has_answered);
        self.published.swap(&others.published);
        self.is_refused.swap(&others.is_refused);
        self.heard.swap(&others.heard);
        self.told.swap(&others.told);
        self.awaits_copy.swap(&others.awaits_copy);
        self.has_written.swap(&others.has_written);
    }

    /// Checks whether its client waits for a copy.
    pub(crate) fn awaits_copy(&self) -> bool {
        self.awaits_copy.get()
    }

    /// Checks whether a copy was written for it in its step, once.
    pub(crate) fn take_written(&self) -> bool {
        self.has_written.replace(false)
    }
}

/// The terms of a server's seat. Its options limit edits, and its figures set the pace of checkpoints. A client below the floor is sent the copy
/// that is written for all. Noes are counted.
///
/// A long answer is counted in the budget of all connections until all is sent or the connection ends. If the budget has no room, it is a No
/// for Memory. Once all is sent, it closes a file that the folder has removed, if there is one.
pub(crate) struct SeatTerms<'a, N: RoomName, W> {
    rt: &'a W,
    shared: &'a Shared,
    copies: Arc<Copies<N>, Global>,
    budget: &'a Budget,
    flags: &'a SeatFlags,
    presence: &'a Presence,
    // Whether the seat is for clients that need a copy.
    is_for_copies: bool,
}

impl<N: RoomName, W> Drop for SeatTerms<'_, N, W> {
    fn drop(self) {
        let SeatTerms {
            rt: _,
            shared: _,
            copies: _,
            budget: _,
            flags: _,
            presence: _,
            is_for_copies: _,
        } = self;
    }
}

impl<'a, N: RoomName, W: Wait + Clock> SeatTerms<'a, N, W> {
    /// Returns the terms of a seat with these flags, which waits by `rt`. It may be one for clients that need a copy.
    pub(crate) fn new(
        rt: &'a W,
        shared: &'a Shared,
        copies: Arc<Copies<N>, Global>,
        budget: &'a Budget,
        flags: &'a SeatFlags,
        presence: &'a Presence,
        is_for_copies: bool,
    ) -> SeatTerms<'a, N, W> {
        SeatTerms {
            rt,
            shared,
            copies,
            budget,
            flags,
            presence,
            is_for_copies,
        }
    }

    /// Returns the message that these bytes are a text of, if a client sends such messages. A long one is parsed while no other is. Errors:
    /// NotRead if they are a text of none, and Memory.
    pub(crate) fn asked(&self, alloc: Global, bytes: &[u8]) -> Result<Message, NoReason>
        ensures ok { IfOk result (λ m. SpellsAsked bytes.now (seen_message m)) }
        ensures err { IfErr result (IsUnasked bytes.now) }
    {
        self.budget
            .parsing
            .asked(self.rt, alloc, bytes, self.shared.limits.message_bytes)
    }

    /// Returns the word of live connections that these bytes are a text of, if they are. A long one is parsed while no other is. Errors: out of
    /// memory.
    pub(crate) fn word_in(&self, alloc: Global, bytes: &[u8]) -> Result<Option<Word>, AllocError>
        ensures some { IfOk result (λ found. IfSome found (SpellsWord bytes.now)) }
        ensures none { IfOk result (λ found. IfNone found (SpellsNoWord bytes.now)) }
    {
        self.budget.parsing.word_in(self.rt, alloc, bytes)
    }

    /// Tells the others what its client tells of itself. Errors: out of memory.
    pub(crate) fn tell_here(&self, here: Here) -> Result<(), AllocError> {
        let number = self.presence.tell(self.rt, here)?;
        self.flags.told.set(number);
        Ok(())
    }

    /// Returns the texts of what was told of themselves by others up to this number and isn't whispered yet: the first of them. Errors: out of
    /// memory.
    pub(crate) fn whispers(&self, alloc: Global, until: u64) -> Result<Vec<Vec<u8>>, AllocError>
        ensures { IfOk result (λ texts. AreAll TellsSomeHere (map (λ t. t.items) texts.items)) }
    {
        let after = self.flags.heard.get();
        if after >= until {
            return Ok(Vec::new(alloc));
        }
        let (texts, heard) = self.presence.news(self.rt, after, until)?;
        self.flags.heard.set(heard);
        Ok(texts)
    }

    /// Tells the others that this client has gone, if it told something of itself on this connection, and nothing later on another one.
    pub(crate) fn end_here(&self, client: u32) {
        let told = self.flags.told.replace(0);
        if told > 0 {
            self.presence.end(self.rt, client, told);
        }
    }

    /// Gives all back to the budget, and forgets its last reply. Called once its connection has ended.
    pub(crate) fn leave(&self) {
        self.flags.has_answered.set(false);
        self.flags.awaits_copy.set(false);
        self.want_no_more();
        self.allow();
        self.end_copy();
    }

    // Gives all back to the budget, and drops its copy.
    fn end_copy(&self) {
        self.give_back();
        if self.flags.has_copy.replace(false) {
            self.copies.tidy(self.rt, self.budget);
        }
    }

    // Gives back the bytes that it has taken of the budget.
    fn give_back(&self) {
        let taken = self.flags.taken.replace(0);
        if taken > 0 {
            self.budget.give(taken);
        }
    }

    // Records that a push needs room for these bytes.
    fn want(&self, bytes: u64) {
        let wanted = self.flags.wanted.replace(Some(bytes));
        if wanted.is_none() {
            self.budget.want();
        }
    }

    // Records that no push needs room.
    fn want_no_more(&self) {
        let wanted = self.flags.wanted.replace(None);
        if wanted.is_some() {
            self.budget.want_no_more();
        }
    }

    /// Gives all back to the budget, and closes a file that the folder has removed, if there is one. Called once all is sent.
    pub(crate) fn rest(&self) {
        self.end_copy();
        if let Some(removed) = &self.shared.removed {
            removed.close();
        }
    }

    /// Called once a reply is in the output. Counts a No 9 if the message couldn't be read.
    pub(crate) fn sent(&self) {
        if !self.flags.has_answered.replace(false) {
            self.shared.figures.refuse(NoReason::NotRead);
        }
    }

    /// Returns the version of the last entry of this seat's that was published, if one was since this was asked the last time.
    pub(crate) fn take_published(&self) -> Option<u64> {
        self.flags.published.replace(None)
    }

    /// Records that the last message got a reply.
    pub(crate) fn answer(&self) {
        self.flags.has_answered.set(true);
    }

    /// Records that the reply was a No for this reason, and counts it.
    pub(crate) fn refuse(&self, reason: NoReason) -> NoReason
        ensures { result ≡ reason }
    {
        self.answer();
        self.shared.figures.refuse(reason);
        reason
    }

    /// Checks whether there may be room by now for the bytes of a push that had none before.
    pub(crate) fn may_tell(&self) -> bool {
        match self.flags.wanted.get() {
            Some(bytes) if bytes > 0 => {
                let has_room = self.budget.has_room(bytes);
                if has_room {
                    self.want_no_more();
                }
                has_room
            }
            _ => true,
        }
    }

    /// Checks whether its client waits for a copy that isn't written yet, or at which the seat can't be.
    pub(crate) fn awaits_copy(&self) -> bool {
        self.flags.awaits_copy.get()
    }

    // Records that its client waits for a copy. One is written soon if there is none, or the seat for copies can't be there.
    fn await_copy(&self, least: u64, client: u32, version: u64) {
        self.flags.awaits_copy.set(true);
        let is_there = !self.is_for_copies && self.copies.is_for(self.rt, least, client, version);
        if !is_there && !self.copies.want(self.rt) {
            self.want(0);
        }
    }

    // Records that its client doesn't wait for a copy.
    fn await_none(&self) {
        if self.flags.awaits_copy.replace(false) {
            self.want_no_more();
        }
    }

    // Records that there was no room for an answer: until there is, or its connection ends, slow peers are ended sooner.
    fn deny(&self) {
        if !self.flags.is_refused.replace(true) {
            self.budget.want();
        }
    }

    // Records that there was room for an answer.
    fn allow(&self) {
        if self.flags.is_refused.replace(false) {
            self.budget.want_no_more();
        }
    }

    // Makes room for a copy for a client at this version. Returns whether there is room.
    fn makes_room_for_copy(&self, client: u32, version: u64) -> bool {
        let least = self.shared.figures.least_copy();
        self.copies
            .makes_room(self.rt, self.budget, least, client, version)
    }

    /// Takes the bytes that these texts need, which are pushed, of the budget. Returns whether there was room.
    pub(crate) fn takes(&self, texts: &[Text]) -> bool {
        let bytes = bytes_of_push(texts);
        self.give_back();
        let has_room = bytes == 0 || self.budget.take(bytes);
        if has_room {
            self.flags.taken.set(bytes);
        } else {
            self.want(bytes);
        }
        has_room
    }

    // Takes the bytes that an answer of these messages needs of the budget. Returns whether there was room.
    fn takes_answer(&self, told: &[Told]) -> bool {
        let bytes = bytes_of_answer(told, self.shared.figures.checkpoint_bytes());
        if bytes == 0 {
            return true;
        }
        self.give_back();
        let has_room = self.budget.take(bytes);
        if has_room {
            self.flags.taken.set(bytes);
            self.allow();
        } else {
            self.deny();
        }
        has_room
    }

    // Returns the text of the copy that is pushed to a client at this version, and the copy's version. Returns `None` if there is none for it yet, or
    // the seat can't be there. Errors: out of memory.
    fn held_copy<D: Drop>(
        &self,
        alloc: Global,
        seat: &mut Seat<N, D>,
        client: u32,
        version: u64,
    ) -> Result<Option<(Text, u64)>, AllocError>
        ensures copy { IfOk result (λ told. IfSome told (λ copy. TellsCopyAt (board N.opening seat.new) client version (text_bytes copy.0) copy.1)) }
        ensures sees { SeesOn N.opening seat.old seat.new }
    {
        let least = self.shared.figures.least_copy();
        let copy = self
            .copies
            .copy_for(self.rt, alloc, seat, least, client, version)?;
        if copy.is_some() {
            self.flags.has_copy.set(true);
            self.await_none();
        } else {
            self.await_copy(least, client, version);
        }
        Ok(copy)
    }

    // Returns the texts of the answer to an Ask that needs a copy. Errors: no room for another copy, or out of memory.
    fn copied<D: Drop>(
        &self,
        alloc: Global,
        seat: &mut Seat<N, D>,
        client: u32,
        version: u64,
    ) -> Result<Vec<Text>, AllocError>
        ensures gives { IfOk result (λ ts. GivesTexts (Gives N.opening) seat.old (messages.Ask client version) (map text_bytes ts.items) seat.new) }
        ensures sees { SeesOn N.opening seat.old seat.new }
    {
        let least = self.shared.figures.least_copy();
        if !self.makes_room_for_copy(client, version) {
            self.deny();
            return Err(AllocError);
        }
        self.allow();
        self.flags.has_copy.set(true);
        let written = &self.flags.has_written;
        self.copies.texts(
            self.rt,
            alloc,
            self.budget,
            written,
            seat,
            least,
            client,
            version,
        )
    }
}

impl<N: RoomName, W: Wait + Clock> Pace for SeatTerms<'_, N, W> {
    fn is_due(&self, _kept: u64) -> bool {
        self.shared.figures.is_checkpoint_due()
    }

    fn tail(&self) -> TailLimit {
        TailLimit {
            entries: self.shared.figures.tail_entries(),
            bytes: self.shared.figures.tail_bytes(),
        }
    }
}

impl<N: RoomName, W: Wait + Clock> Terms<N> for SeatTerms<'_, N, W> {
    ghost use Rattle.std.specs.Prelude.{Some};

    ghost limit = { λ t. Some t.shared.now.limits.message_bytes };

    fn is_over_limit(&self, alloc: Global, message: &Message) -> Result<bool, AllocError> {
        is_too_large(alloc, message, self.shared.limits.message_bytes)
    }

    // At the seat for copies nothing is looked at, so that it can be where one was written.
    fn shares_copy<D: Drop>(&self, alloc: Global, seat: &mut Seat<N, D>, version: u64) -> bool {
        if self.is_for_copies && version < self.shared.figures.floor() {
            return true;
        }
        is_below_floor(alloc, seat, version)
    }

    fn ask_texts<D: Drop>(
        &self,
        alloc: Global,
        seat: &mut Seat<N, D>,
        client: u32,
        version: u64,
    ) -> Result<Vec<Text>, AllocError> {
        let texts = self.copied(alloc, seat, client, version);
        self.answer();
        if texts.is_err() {
            self.refuse(NoReason::Memory);
        }
        texts
    }

    fn push_copy<D: Drop>(
        &self,
        alloc: Global,
        seat: &mut Seat<N, D>,
        client: u32,
        version: u64,
    ) -> Result<Option<(Text, u64)>, AllocError> {
        // At the seat for copies nothing is looked at, as in `shares_copy`.
        if self.is_for_copies {
            return self.held_copy(alloc, seat, client, version);
        }
        if !is_below_floor(alloc, seat, version) {
            self.await_none();
            return Ok(None);
        }
        self.held_copy(alloc, seat, client, version)
    }

    fn may_send(&self, told: &[Told]) -> bool {
        let has_room = self.takes_answer(told);
        if !has_room {
            self.refuse(NoReason::Memory);
        }
        has_room
    }

    fn published(&self, version: u64) {
        self.flags.published.set(Some(version));
    }

    fn answered(&self, refusal: Option<NoReason>) {
        self.answer();
        if let Some(reason) = refusal {
            self.refuse(reason);
        }
    }
}

// Checks whether this version is below the floor, by what is published.
fn is_below_floor<N: RoomName, D: Drop>(alloc: Global, seat: &mut Seat<N, D>, version: u64) -> bool
    ensures { SeesOn N.opening seat.old seat.new }
{
    matches!(seat.tail(alloc, version, 0), Ok(None))
}
