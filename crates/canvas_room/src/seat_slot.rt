// A seat's slot in the mailbox of its room.
ghost use Rattle.std.specs.Prelude.{IfErr, IfSome};
ghost use Rattle.canvas_server.specs.Asked.{seen_request};
ghost use Rattle.canvas_room.specs.Batches.{IsUnanswered};
ghost use Rattle.canvas_room.specs.Seats.{IsAnswerTo};

use crate::asking::SeatAnswer;
use crate::batch::{MOST_IN_RUN, commit};
use crate::mailbox::{Content, Mailbox, Reply, Run};
use canvas_board::{Front, RoomName};
use canvas_desk::{Desk, SubmitError};
use canvas_journal::Keeper;
use canvas_server::Request;
use std::alloc::Global;
use std::collections::VecDeque;
use std::sync::{Arc, Wait};

/// The slot of a seat in the mailbox of its room.
pub struct SeatSlot<N: RoomName> {
    alloc: Global,
    mailbox: Arc<Mailbox<N>, Global>,
    seat: usize,
}

impl<N: RoomName> Drop for SeatSlot<N> {
    fn drop(self) {
        let SeatSlot {
            alloc: _,
            mailbox: _,
            seat: _,
        } = self;
    }
}

// Returns the answer to a request, if the first of these replies belongs to it.
fn first_told<N: RoomName>(
    mut replies: VecDeque<Reply<N>>,
    request: &Request,
    seen: &Front<N>,
) -> Option<SeatAnswer<N>>
    ensures { IfSome result (λ told. IsAnswerTo N.opening seen.now (seen_request request.now) told.answer told.learns) }
{
    replies.pop_front()?.told_of(request, seen)
}

impl<N: RoomName> SeatSlot<N> {
    /// The slot of this seat.
    pub fn new(alloc: Global, mailbox: Arc<Mailbox<N>, Global>, seat: usize) -> SeatSlot<N> {
        SeatSlot {
            alloc,
            mailbox,
            seat,
        }
    }

    /// This seat leads from now on, if no other does. Returns whether it does.
    pub fn lead(&self) -> bool {
        self.mailbox.lead()
    }

    /// Leaves a copy of a request in the slot, with what the seat has seen; if memory runs out for that, the request comes alone.
    /// It may wait for the slot's lock.
    pub fn post<W: Wait>(&self, rt: &W, request: &Request, seen: &Front<N>) {
        let content = match Run::of_one(self.alloc, request, seen) {
            Ok(run) => Content::Waiting(run),
            Err(_) => Content::Alone,
        };
        self.mailbox.put(rt, self.seat, content);
    }

    /// Returns the first 64 of these requests as a run, with what the seat has seen. `None` if there are none, or memory runs out.
    pub fn run_of(&self, mut requests: Vec<Request>, seen: &Front<N>) -> Option<Run<N>> {
        if requests.is_empty() {
            return None;
        }
        requests.truncate(MOST_IN_RUN);
        Run::new(self.alloc, requests, seen).ok()
    }

    /// Leaves a run in the slot. It may wait for the slot's lock.
    pub fn post_run<W: Wait>(&self, rt: &W, run: Run<N>) {
        self.mailbox.put(rt, self.seat, Content::Waiting(run));
    }

    /// Blocks while another seat leads and the slot has no replies. Takes the replies; if there are none, this seat leads from now on.
    pub fn follow_run<W: Wait>(&self, rt: &W) -> Option<VecDeque<Reply<N>>> {
        self.mailbox.follow(rt, self.seat)
    }

    /// Takes the replies in the slot, if there are some; requests that wait there are taken back. It may wait for the slot's lock.
    pub fn clear_run<W: Wait>(&self, rt: &W) -> VecDeque<Reply<N>> {
        match self.mailbox.take(rt, self.seat) {
            Content::Answered(replies) => replies,
            Content::Empty | Content::Waiting(_) | Content::Alone => VecDeque::new(self.alloc),
        }
    }

    /// Waits so long as another seat leads and the slot has no reply. Takes then what was told of a request, if it stands in the slot; else
    /// this seat leads from now on.
    pub fn follow<W: Wait>(
        &self,
        rt: &W,
        request: &Request,
        seen: &Front<N>,
    ) -> Option<SeatAnswer<N>>
        ensures { IfSome result (λ told. IsAnswerTo N.opening seen.now (seen_request request.now) told.answer told.learns) }
    {
        let told = first_told(self.mailbox.follow(rt, self.seat)?, request, seen);
        if told.is_none() {
            self.mailbox.lead();
        }
        told
    }

    /// This seat leads no more. Calls one whose request waits, so that it leads, and those whose request was answered, or comes alone.
    pub fn step_down<W: Wait>(&self, rt: &W) {
        self.mailbox.step_down(rt, self.seat);
    }

    /// Says that this seat is about a checkpoint from now on. False where one is already.
    pub fn begin_tidying(&self) -> bool {
        self.mailbox.begin_tidying()
    }

    /// Says that no seat is about a checkpoint.
    pub fn end_tidying(&self) {
        self.mailbox.end_tidying();
    }

    /// Takes what was told of a request, if it stands in the slot; a request that waits there is taken back. It may wait for the slot's lock.
    pub fn clear<W: Wait>(
        &self,
        rt: &W,
        request: &Request,
        seen: &Front<N>,
    ) -> Option<SeatAnswer<N>>
        ensures { IfSome result (λ told. IsAnswerTo N.opening seen.now (seen_request request.now) told.answer told.learns) }
    {
        first_told(self.clear_run(rt), request, seen)
    }

    /// Commits the requests that wait in the mailbox as one batch, this seat's first.
    pub fn commit_waiting<K: Keeper, R: Wait + Drop, W: Wait>(
        &self,
        rt: &W,
        desk: &mut Desk<K, N, R>,
    ) -> Result<(), SubmitError>
        ensures { IfErr result (IsUnanswered desk.new.failed) }
    {
        commit(self.alloc, rt, desk, &self.mailbox, self.seat)
    }

    /// Commits the requests that wait in the mailbox as one batch, if other seats have some there. A copy of this seat's request is in it, unless
    /// memory runs out for the copy.
    pub fn commit<K: Keeper, R: Wait + Drop, W: Wait>(
        &self,
        rt: &W,
        desk: &mut Desk<K, N, R>,
        request: &Request,
        seen: &Front<N>,
    ) -> Result<(), SubmitError>
        ensures { IfErr result (IsUnanswered desk.new.failed) }
    {
        if !self.mailbox.has_others(rt, self.seat) {
            return Ok(());
        }
        if self.mailbox.is_empty(rt, self.seat) {
            self.post(rt, request, seen);
        }
        self.commit_waiting(rt, desk)
    }
}
