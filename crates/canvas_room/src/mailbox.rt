// A room's mailbox: seats queue their requests here for the seat that leads.
ghost use Rattle.std.specs.Prelude.{◌≡◌, ◌<◌, ◌≤◌, [], ◌∷◌, IfOk, IfSome, IsTrue, length, map, vec_len};
ghost use mathlib.Core.List.{IsPrefix};
ghost use Rattle.canvas_server.specs.Asked.{seen_request};
ghost use Rattle.canvas_room.specs.Seats.{IsAnswerTo};

use crate::asking::SeatAnswer;
use crate::batch::MOST_SEATS;
use canvas_board::{Front, Receipt, RoomName};
use canvas_server::Request;
use std::alloc::{AllocError, Global};
use std::collections::VecDeque;
use std::marker::Model;
use std::mem::replace;
use std::sync::atomic::{AtomicBool, Ordering};
use std::sync::{Condvar, Mutex, Wait};

/// A run of queued requests of one seat, in their order, and what the seat had seen.
#[derive(Drop)]
pub struct Run<N: RoomName> {
    /// The requests.
    pub requests: Vec<Request>,
    /// The history that the seat had seen.
    pub seen: Front<N>,
    /// A queue with places for the replies, so none is lost if memory runs out later.
    pub replies: VecDeque<Reply<N>>,
}

/// A request that was queued, and what its seat had seen.
#[derive(Drop)]
pub struct Ticket<N: RoomName> {
    /// The request.
    pub request: Request,
    /// The history that its seat had seen.
    pub seen: Front<N>,
}

/// The answer to a queued request, together with the request. Contracts see it as the history that the seat had seen.
pub struct Reply<N: RoomName> {
    ticket: Ticket<N>,
    told: SeatAnswer<N>,
}

impl<N: RoomName> Drop for Reply<N> {
    fn drop(self) {
        let Reply { ticket: _, told: _ } = self;
    }
}

impl<N: RoomName> Model for Reply<N> {
    ghost use Rattle.std.specs.Prelude.{List};
    ghost use Rattle.std.specs.Coded.{codes};
    ghost use Rattle.canvas_model.specs.Codes.{value_code};
    ghost use Rattle.canvas_server.specs.Asked.{seen_request};
    ghost use Rattle.canvas_board.specs.Marks.{Mark};
    ghost use Rattle.canvas_room.specs.Seats.{IsAnswerTo};

    ghost Value = { List Mark };

    ghost coded = { Prim.hlevel (codes, value_code) };

    ghost view = { λ r. r.ticket.seen };

    ghost invariant = { λ r. IsAnswerTo N.opening r.ticket.seen (seen_request r.ticket.request) r.told.answer r.told.learns };
}

/// The content of a mailbox slot.
#[derive(Drop)]
pub enum Content<N: RoomName> {
    /// Nothing.
    Empty,
    /// Requests that no leader has taken yet.
    Waiting(Run<N>),
    /// Requests that their seat must submit itself: no batch included them, or their batch has no reply to any of them.
    Alone,
    /// The replies to the requests, in their order. Some may be missing.
    Answered(VecDeque<Reply<N>>),
}

impl<N: RoomName> Content<N> {
    // The number of requests that wait.
    fn waiting(&self) -> usize {
        match self {
            Content::Waiting(run) => run.requests.len(),
            Content::Empty | Content::Alone | Content::Answered(_) => 0,
        }
    }

    // Takes the queued run, unless its seat has seen more than `shown`, or it has more requests than `most`. Leaves `Alone` in the slot until
    // replies are put there.
    fn take_run(&mut self, shown: &Front<N>, most: usize) -> Option<Run<N>>
        ensures seen { IfSome result (λ run. IsPrefix run.seen shown.now) }
        ensures most { IfSome result (λ run. vec_len run.requests ≤ most) }
    {
        match replace(self, Content::Alone) {
            Content::Waiting(run) => {
                if run.requests.len() <= most && run.seen.begins(shown) {
                    return Some(run);
                }
                *self = Content::Waiting(run);
            }
            content => *self = content,
        }
        None
    }

    // Puts replies in the place of `Alone`, if there are some. Anything else stays.
    fn answer(&mut self, replies: VecDeque<Reply<N>>) {
        if !replies.is_empty() && matches!(self, Content::Alone) {
            *self = Content::Answered(replies);
        }
    }

    // Takes the replies, if there are some.
    fn take_replies(&mut self) -> Option<VecDeque<Reply<N>>> {
        match replace(self, Content::Empty) {
            Content::Answered(replies) => Some(replies),
            content => {
                *self = content;
                None
            }
        }
    }
}

/// A seat's slot: its content, and the condition variable on which the seat waits. Each slot has its own lock, so a seat waits only for
/// the leader.
pub struct Slot<N: RoomName> {
    content: Mutex<Content<N>>,
    call: Condvar,
}

impl<N: RoomName> Drop for Slot<N> {
    fn drop(self) {
        let Slot {
            content: _,
            call: _,
        } = self;
    }
}

/// One slot per seat; whether a seat leads, that is, commits what is queued; and whether a seat is making a checkpoint.
pub struct Mailbox<N: RoomName> {
    slots: Vec<Slot<N>>,
    is_led: AtomicBool,
    is_tidied: AtomicBool,
}

impl<N: RoomName> Drop for Mailbox<N> {
    fn drop(self) {
        let Mailbox {
            slots: _,
            is_led: _,
            is_tidied: _,
        } = self;
    }
}

// The seats to wake when the leader steps down: one with queued requests, and all with replies or with `Alone`.
struct Calls {
    next: Option<usize>,
    done: [bool; MOST_SEATS],
}

impl<N: RoomName> Run<N> {
    /// Creates a run of these requests, with what their seat has seen. Errors: out of memory.
    pub fn new(alloc: Global, requests: Vec<Request>, seen: &Front<N>) -> Result<Run<N>, AllocError>
        ensures { IfOk result (λ run. (run.requests.items ≡ requests.items) × (run.seen ≡ seen.now)) }
    {
        let replies = VecDeque::with_capacity(alloc, requests.len())?;
        Ok(Run {
            requests,
            seen: seen.again(),
            replies,
        })
    }

    /// Copies a request, as a run of one, with what its seat has seen. Errors: out of memory.
    pub fn of_one(alloc: Global, request: &Request, seen: &Front<N>) -> Result<Run<N>, AllocError>
        ensures { IfOk result (λ run. (map seen_request run.requests.items ≡ seen_request request.now ∷ []) × (run.seen ≡ seen.now)) }
    {
        let mut requests = Vec::with_capacity(alloc, 1)?;
        requests.push_reserved(request.copy_in(alloc)?);
        Run::new(alloc, requests, seen)
    }
}

impl<N: RoomName> Reply<N> {
    /// Pairs a ticket with its answer.
    pub fn new(ticket: Ticket<N>, told: SeatAnswer<N>) -> Reply<N>
        requires { IsAnswerTo N.opening ticket.seen (seen_request ticket.request) told.answer told.learns }
        ensures { result ≡ ticket.seen }
    {
        Reply { ticket, told }
    }

    /// Returns the answer if it belongs to this request, for a seat that has seen exactly `seen`: the seat had seen that when it asked; or the
    /// answer is a receipt, and `seen` is a later prefix of its history, without its entry.
    #[tactic(auto, using(crate::proofs::Saying::answer_as, crate::proofs::Saying::answer_later))]
    pub fn told_of(self, request: &Request, seen: &Front<N>) -> Option<SeatAnswer<N>>
        ensures { IfSome result (λ told. IsAnswerTo N.opening seen.now (seen_request request.now) told.answer told.learns) }
    {
        let Reply { ticket, told } = self;
        let Ticket {
            request: asked,
            seen: had,
        } = ticket;
        if !asked.same(request) {
            return None;
        }
        if had.is_same(seen) {
            return Some(told);
        }
        let SeatAnswer { answer, learns: _ } = told;
        let Ok(receipt) = answer else {
            return None;
        };
        if !ends_later(&receipt, seen) {
            return None;
        }
        Some(SeatAnswer {
            answer: Ok(receipt),
            learns: seen.again(),
        })
    }
}

// Checks whether a receipt's history begins with what was seen, and is longer.
fn ends_later<N: RoomName>(receipt: &Receipt<N>, seen: &Front<N>) -> bool
    ensures { IsTrue result → IsPrefix seen.now receipt.now.history × (length seen.now < length receipt.now.history) }
{
    let front = receipt.front();
    seen.begins(front) && seen.len() < front.len()
}

impl<N: RoomName> Mailbox<N> {
    /// Creates a mailbox with `seats` empty slots and no leader. Errors: out of memory.
    pub fn new(alloc: Global, seats: usize) -> Result<Mailbox<N>, AllocError> {
        let mut slots = Vec::with_capacity(alloc, seats)?;
        for _ in 0..seats {
            slots.push(Slot {
                content: Mutex::new(Content::Empty),
                call: Condvar::new(),
            })?;
        }
        Ok(Mailbox {
            slots,
            is_led: AtomicBool::new(false),
            is_tidied: AtomicBool::new(false),
        })
    }

    /// Replaces the content of a seat's slot.
    pub fn put<W: Wait>(&self, rt: &W, seat: usize, content: Content<N>) {
        if let Some(slot) = self.slots.get(seat) {
            *slot.content.lock(rt) = content;
        }
    }

    /// Takes the content of a seat's slot, and leaves the slot empty.
    pub fn take<W: Wait>(&self, rt: &W, seat: usize) -> Content<N> {
        match self.slots.get(seat) {
            Some(slot) => replace(&mut *slot.content.lock(rt), Content::Empty),
            None => Content::Empty,
        }
    }

    /// Puts replies into a seat's slot, if there are some, and the seat has put nothing there since a leader took its requests.
    pub fn answer<W: Wait>(&self, rt: &W, seat: usize, replies: VecDeque<Reply<N>>) {
        if let Some(slot) = self.slots.get(seat) {
            slot.content.lock(rt).answer(replies);
        }
    }

    /// Takes the run queued in a seat's slot, unless the seat has seen more than `shown`, or the run has more requests than `most`. Leaves
    /// `Alone` there until replies are put.
    pub fn take_run<W: Wait>(
        &self,
        rt: &W,
        seat: usize,
        shown: &Front<N>,
        most: usize,
    ) -> Option<Run<N>>
        ensures seen { IfSome result (λ run. IsPrefix run.seen shown.now) }
        ensures most { IfSome result (λ run. vec_len run.requests ≤ most) }
    {
        self.slots.get(seat)?.content.lock(rt).take_run(shown, most)
    }

    /// Counts the requests that wait, up to `most`.
    pub fn waiting<W: Wait>(&self, rt: &W, most: usize) -> usize
        ensures { result ≤ most }
    {
        let mut count: usize = 0;
        for slot in &self.slots {
            count = count.saturating_add(slot.content.lock(rt).waiting());
        }
        count.min(most)
    }

    // Blocks while another seat leads and this slot has no replies. Takes the replies, if there are some.
    fn wait<W: Wait>(&self, rt: &W, seat: usize) -> Option<VecDeque<Reply<N>>> {
        let Slot { content, call } = self.slots.get(seat)?;
        let content = content.lock(rt);
        let mut content = call.wait_while(rt, content, |content| self.is_pending(content));
        content.take_replies()
    }

    // Checks whether a seat with this content must keep waiting: another seat leads, and there are no replies.
    fn is_pending(&self, content: &Content<N>) -> bool {
        self.is_led.load(Ordering::SeqCst) && !matches!(content, Content::Answered(_))
    }

    /// Marks that a seat leads. Returns false if one already did.
    pub fn lead(&self) -> bool {
        !self.is_led.swap(true, Ordering::SeqCst)
    }

    /// Blocks while another seat leads and this slot has no replies. Returns the replies, or `None` if this seat leads from now on.
    pub fn follow<W: Wait>(&self, rt: &W, seat: usize) -> Option<VecDeque<Reply<N>>> {
        for _turn in rt.forever() {
            if let Some(replies) = self.wait(rt, seat) {
                return Some(replies);
            }
            if self.lead() {
                return None;
            }
        }
        unreachable!()
    }

    /// Checks whether a seat's slot is empty.
    pub fn is_empty<W: Wait>(&self, rt: &W, seat: usize) -> bool {
        match self.slots.get(seat) {
            Some(slot) => matches!(*slot.content.lock(rt), Content::Empty),
            None => true,
        }
    }

    /// Checks whether another seat has queued requests.
    pub fn has_others<W: Wait>(&self, rt: &W, seat: usize) -> bool {
        for (other, slot) in self.slots.iter().enumerate() {
            if other != seat && matches!(*slot.content.lock(rt), Content::Waiting(_)) {
                return true;
            }
        }
        false
    }

    // Collects the seats to wake when this one steps down. The next leader is the first after it in a circle, so each has its turn.
    fn calls<W: Wait>(&self, rt: &W, leader: usize) -> Calls {
        let mut before = None;
        let mut after = None;
        let mut done = [false; MOST_SEATS];
        for (seat, (slot, is_done)) in self.slots.iter().zip(done.iter_mut()).enumerate() {
            match *slot.content.lock(rt) {
                Content::Waiting(_) if seat > leader => after = after.or(Some(seat)),
                Content::Waiting(_) => before = before.or(Some(seat)),
                Content::Answered(_) | Content::Alone => *is_done = true,
                Content::Empty => {}
            }
        }
        Calls {
            next: after.or(before),
            done,
        }
    }

    /// Marks that a seat is making a checkpoint. Returns false if one already was.
    pub fn begin_tidying(&self) -> bool {
        !self.is_tidied.swap(true, Ordering::SeqCst)
    }

    /// Marks that no seat is making a checkpoint.
    pub fn end_tidying(&self) {
        self.is_tidied.store(false, Ordering::SeqCst);
    }

    /// Marks that no seat leads, after this one did. Wakes first one seat with queued requests, to lead next, and then all with replies or with
    /// `Alone`.
    pub fn step_down<W: Wait>(&self, rt: &W, leader: usize) {
        self.is_led.store(false, Ordering::SeqCst);
        let Calls { next, done } = self.calls(rt, leader);
        if let Some(slot) = next.and_then(|seat| self.slots.get(seat)) {
            slot.call.notify_one();
        }
        for (slot, is_done) in self.slots.iter().zip(done) {
            if is_done {
                slot.call.notify_one();
            }
        }
    }
}
