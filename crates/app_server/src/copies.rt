// The copies of a document that clients are sent.
ghost use Rattle.std.specs.Prelude.{IfOk, IfSome, map};
ghost use Rattle.net_outbox.specs.Texts.{text_bytes};
ghost use Rattle.canvas_model.specs.Messages as messages;
ghost use Rattle.canvas_board.specs.Marks.{board};
ghost use Rattle.canvas_nodes.specs.Answers.{GivesTexts};
ghost use Rattle.room_handler.specs.Table.{Gives, SeesOn, TellsCopyAt};

use crate::budget::Budget;
use app_storage::Task;
use bytes::Bytes;
use canvas_board::RoomName;
use canvas_journal::Keeper;
use canvas_room::{Lock, Seat};
use crossbeam_channel::{Receiver, Sender, bounded};
use net_outbox::Text;
use room_handler::{SharedCopy, ask_texts, held_copy, held_texts, share};
use std::alloc::{AllocError, Global};
use std::cell::Cell;
use std::io;
use std::sync::{Arc, Mutex, Wait};
use std::thread::sleep;
use std::time::{Clock, Duration, Instant};

// For how long a copy is kept that no client is sent.
const KEPT_MILLIS: u64 = 1_000;

// The last copy that was written, and the texts of earlier ones that clients are still sent. The budget counts the latter.
struct Held<N: RoomName> {
    copy: Option<SharedCopy<N>>,
    earlier: Vec<Bytes>,
    wishes: Wishes,
}

// Which copies are wanted, and were.
#[derive(Drop)]
struct Wishes {
    // Whether the last copy is kept although no client is sent it, as some wait for it.
    is_fresh: bool,
    // Whether another one is wanted, and whether there was no room for the one that was wanted last.
    is_wanted: bool,
    lacks_room: bool,
    // How many were written because they were wanted.
    written: u64,
}

impl<N: RoomName> Drop for Held<N> {
    fn drop(self) {
        let Held {
            copy: _,
            earlier: _,
            wishes: _,
        } = self;
    }
}

impl<N: RoomName> Held<N> {
    // Drops the texts that no client is sent any more.
    fn tidy(&mut self, budget: &Budget) {
        self.earlier.retain(|end| is_sent(end, budget));
        let is_sent = match &self.copy {
            Some(copy) => !copy.end().is_unique(),
            None => false,
        };
        if !is_sent && !self.wishes.is_fresh {
            self.copy = None;
        }
    }

    // Checks whether the last copy is of version `least` or later, and for a client at this version.
    fn is_for(&self, least: u64, client: u32, version: u64) -> bool {
        match &self.copy {
            Some(copy) => copy.version() >= least && copy.is_for(client, version),
            None => false,
        }
    }

    // Makes room for another copy. Returns whether there is room: no client is sent the last one, or its text could be counted.
    fn makes_room(&mut self, budget: &Budget) -> bool {
        let is_free = match &self.copy {
            Some(copy) => copy.end().is_unique(),
            None => true,
        };
        is_free || self.sets_aside(budget)
    }

    // Counts the text of the last copy, which clients are still sent, and makes place for another one. Returns whether it did: the budget has room
    // for the text, or it is the only one.
    fn sets_aside(&mut self, budget: &Budget) -> bool {
        let Ok(Some(end)) = self.end() else {
            return false;
        };
        let bytes = end.len() as u64;
        if self.earlier.is_empty() {
            budget.take_anyway(bytes);
        } else if !budget.take(bytes) {
            return false;
        }
        if self.earlier.push(end).is_err() {
            budget.give(bytes);
            return false;
        }
        self.copy = None;
        true
    }

    // Returns the text of the last copy. Errors: out of memory.
    fn end(&self) -> Result<Option<Bytes>, AllocError> {
        match &self.copy {
            Some(copy) => Ok(Some(copy.end().clone()?)),
            None => Ok(None),
        }
    }

    // Takes a copy in as the last one. If clients are still sent the text of the one before, that is counted.
    fn renew(&mut self, budget: &Budget, copy: SharedCopy<N>) {
        if !self.makes_room(budget) {
            self.count(budget);
        }
        self.copy = Some(copy);
    }

    // Counts the text of the last copy, for which the budget has no room.
    fn count(&mut self, budget: &Budget) {
        let Ok(Some(end)) = self.end() else {
            return;
        };
        budget.take_anyway(end.len() as u64);
        if let Err(error) = self.earlier.push(end) {
            budget.give(error.value.len() as u64);
        }
    }
}

// Checks whether a client is sent this text. If none is, its bytes are given back to the budget.
fn is_sent(end: &Bytes, budget: &Budget) -> bool {
    if end.is_unique() {
        budget.give(end.len() as u64);
        return false;
    }
    true
}

/// The copy of a document that clients are sent. It is written once for all that need one at about the same time, and dropped once it is sent.
/// The unsent bytes of each client refer to its text.
///
/// A thread of its own writes it, at a seat of its own, if one is wanted.
pub(crate) struct Copies<N: RoomName> {
    held: Mutex<Held<N>>,
    writer: Writer,
}

// What is known of that thread.
#[derive(Drop)]
struct Writer {
    // Held while a copy is written: one at a time.
    writing: Mutex<()>,
    // Where it is told that one is wanted.
    wanted: Sender<(), Global>,
}

/// Where the thread that writes copies is told that one is wanted.
#[derive(Drop)]
pub(crate) struct Wants {
    calls: Receiver<(), Global>,
}

impl<N: RoomName> Drop for Copies<N> {
    fn drop(self) {
        let Copies { held: _, writer: _ } = self;
    }
}

impl<N: RoomName> Copies<N> {
    /// Returns one without a copy, and what the thread that writes copies is told by. Errors: out of memory.
    pub(crate) fn new(alloc: Global) -> Result<(Copies<N>, Wants), AllocError> {
        let wishes = Wishes {
            is_fresh: false,
            is_wanted: false,
            lacks_room: false,
            written: 0,
        };
        let held = Held {
            copy: None,
            earlier: Vec::new(alloc),
            wishes,
        };
        let (wanted, calls) = bounded(alloc, 1)?;
        let writer = Writer {
            writing: Mutex::new(()),
            wanted,
        };
        let copies = Copies {
            held: Mutex::new(held),
            writer,
        };
        Ok((copies, Wants { calls }))
    }

    /// Drops the texts that no client is sent any more. Called once a client has its copy, or has left.
    pub(crate) fn tidy<R: Wait>(&self, rt: &R, budget: &Budget) {
        self.held.lock(rt).tidy(budget);
    }

    /// Drops the last copy too, if no client is sent it. Called if none was wanted for a while.
    pub(crate) fn forget<R: Wait>(&self, rt: &R, budget: &Budget) {
        let mut held = self.held.lock(rt);
        held.wishes.is_fresh = false;
        held.tidy(budget);
    }

    /// Checks whether there is a copy of version `least` or later, for a client at this version.
    pub(crate) fn is_for<R: Wait>(&self, rt: &R, least: u64, client: u32, version: u64) -> bool {
        self.held.lock(rt).is_for(least, client, version)
    }

    /// Has a copy written soon, by the thread that writes them. Returns false if there was no room for the one that was wanted last.
    pub(crate) fn want<R: Wait>(&self, rt: &R) -> bool {
        let mut held = self.held.lock(rt);
        if !held.wishes.is_wanted {
            held.wishes.is_wanted = self.writer.wanted.try_send(rt, ()).is_ok();
        }
        !held.wishes.lacks_room
    }

    /// Writes a copy of what is published, if there is room for it.
    pub(crate) fn write<R: Wait, D: Drop>(
        &self,
        rt: &R,
        alloc: Global,
        budget: &Budget,
        seat: &mut Seat<N, D>,
    ) {
        let _one = self.writer.writing.lock(rt);
        if !self.begin(rt, budget) {
            return;
        }
        let copy = share(alloc, seat);
        let mut held = self.held.lock(rt);
        held.wishes.is_wanted = false;
        held.wishes.written = held.wishes.written.saturating_add(1);
        if let Ok(copy) = copy {
            held.renew(budget, copy);
            held.wishes.is_fresh = true;
        }
    }

    /// Returns how many copies were written because they were wanted.
    pub(crate) fn written<R: Wait>(&self, rt: &R) -> u64 {
        self.held.lock(rt).wishes.written
    }

    // Makes room for the copy that is wanted. Returns whether there is room.
    fn begin<R: Wait>(&self, rt: &R, budget: &Budget) -> bool {
        let mut held = self.held.lock(rt);
        held.tidy(budget);
        let has_room = held.makes_room(budget);
        held.wishes.lacks_room = !has_room;
        if !has_room {
            held.wishes.is_wanted = false;
        }
        has_room
    }

    /// Makes room for a copy of version `least` or later, for a client at this version. Returns whether there is room. To make a copy, the budget
    /// must have room for the text of the last one, if clients are still sent that.
    pub(crate) fn makes_room<R: Wait>(
        &self,
        rt: &R,
        budget: &Budget,
        least: u64,
        client: u32,
        version: u64,
    ) -> bool {
        let mut held = self.held.lock(rt);
        held.tidy(budget);
        held.is_for(least, client, version) || held.makes_room(budget)
    }

    /// The texts of what a client is answered that asks from this version, by a copy of version `least` at least, where one is due. If there is
    /// none at which the seat can be, it is written now, which is recorded in `written`. Fails only if memory runs out.
    pub(crate) fn texts<R: Wait, D: Drop>(
        &self,
        rt: &R,
        alloc: Global,
        budget: &Budget,
        written: &Cell<bool>,
        seat: &mut Seat<N, D>,
        least: u64,
        client: u32,
        version: u64,
    ) -> Result<Vec<Text>, AllocError>
        ensures gives { IfOk result (λ ts. GivesTexts (Gives N.opening) seat.old (messages.Ask client version) (map text_bytes ts.items) seat.new) }
        ensures sees { SeesOn N.opening seat.old seat.new }
    {
        if let Some(texts) = self.held_texts(rt, alloc, seat, least, client, version)? {
            return Ok(texts);
        }
        written.set(true);
        let _one = self.writer.writing.lock(rt);
        let mut copy = None;
        let texts = ask_texts(alloc, seat, &mut copy, least, client, version);
        if let Some(copy) = copy {
            self.held.lock(rt).renew(budget, copy);
        }
        texts
    }

    // Returns these texts, if there is a copy for them at which the seat can be.
    fn held_texts<R: Wait, D: Drop>(
        &self,
        rt: &R,
        alloc: Global,
        seat: &mut Seat<N, D>,
        least: u64,
        client: u32,
        version: u64,
    ) -> Result<Option<Vec<Text>>, AllocError>
        ensures gives { IfOk result (λ told. IfSome told (λ ts. GivesTexts (Gives N.opening) seat.old (messages.Ask client version) (map text_bytes ts.items) seat.new)) }
        ensures sees { SeesOn N.opening seat.old seat.new }
    {
        let held = self.held.lock(rt);
        held_texts(alloc, seat, &held.copy, least, client, version)
    }

    /// Returns the text of the copy for a client at this version, and the copy's version. Returns `None` if there is none of version `least` or later
    /// for it, or the seat has seen more. Errors: out of memory.
    pub(crate) fn copy_for<R: Wait, D: Drop>(
        &self,
        rt: &R,
        alloc: Global,
        seat: &mut Seat<N, D>,
        least: u64,
        client: u32,
        version: u64,
    ) -> Result<Option<(Text, u64)>, AllocError>
        ensures copy { IfOk result (λ told. IfSome told (λ copy. TellsCopyAt (board N.opening seat.new) client version (text_bytes copy.0) copy.1)) }
        ensures sees { SeesOn N.opening seat.old seat.new }
    {
        let held = self.held.lock(rt);
        held_copy(alloc, seat, &held.copy, least, client, version)
    }
}

/// What a thread that writes copies has: its seat, and where it is told that one is wanted.
pub(crate) struct CopyTask<N: RoomName, D: Drop, R: Drop> {
    pub(crate) rt: R,
    pub(crate) seat: Seat<N, D>,
    pub(crate) copies: Arc<Copies<N>, Global>,
    pub(crate) budget: Arc<Budget, Global>,
    pub(crate) wants: Wants,
}

impl<N: RoomName, D: Drop, R: Drop> Drop for CopyTask<N, D, R> {
    fn drop(self) {
        let CopyTask {
            rt: _,
            seat: _,
            copies: _,
            budget: _,
            wants: _,
        } = self;
    }
}

impl<K, N, L, R> Task for CopyTask<N, Lock<K, N, L>, R>
where
    K: Keeper + Drop,
    N: RoomName,
    L: Wait + Drop,
    R: Wait + Clock + AllocGlobal + Drop,
{
    // Writes a copy whenever one is wanted, and then rests as long as that took. One that no client is sent is dropped once none was wanted for a
    // second.
    fn run(self) {
        let CopyTask {
            rt,
            mut seat,
            copies,
            budget,
            wants,
        } = self;
        for _ in rt.forever() {
            match wants
                .calls
                .recv_timeout(&rt, Duration::from_millis(KEPT_MILLIS))
            {
                Ok(()) => {
                    let begun = Instant::now(&rt);
                    copies.write(&rt, rt.alloc(), &budget, &mut seat);
                    rest(&rt, begun);
                }
                Err(_) => copies.forget(&rt, &budget),
            }
        }
        unreachable!()
    }
}

// Rests as long as has passed since this instant.
fn rest<R: Clock>(rt: &R, begun: io::Result<Instant>) {
    let Ok(begun) = begun else {
        return;
    };
    if let Ok(passed) = begun.elapsed(rt) {
        sleep(rt, passed);
    }
}
