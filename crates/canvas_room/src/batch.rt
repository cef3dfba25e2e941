// How the requests of a mailbox are committed as one batch.
ghost use Rattle.std.specs.Prelude.{◌≡◌, ◌<◌, ◌≤◌, ◌+◌, [], List, IfErr, IfOk, length, map, vec_capacity, vec_len};
ghost use mathlib.Core.List.{IsPrefix};
ghost use Rattle.canvas_server.specs.Asked.{seen_request};
ghost use Rattle.canvas_board.specs.Marks.{IsLegalHistory, Mark};
ghost use Rattle.canvas_room.specs.Batches.{AreSaid, AreSeen, IsUnanswered, Says, seen_of};

use crate::asking::{SeatAnswer, is_refusal, learned};
use crate::mailbox::{Mailbox, Reply, Run, Ticket};
use canvas_board::{Front, Receipt, RoomName};
use canvas_desk::{Desk, SubmitError};
use canvas_journal::Keeper;
use canvas_server::Request;
use std::alloc::{AllocError, Global};
use std::collections::VecDeque;
use std::sync::Wait;

/// A room has at most the given number seats.
pub const MOST_SEATS: usize = 64;

/// A run has at most the given number of requests.
pub const MOST_IN_RUN: usize = 64;

// A batch has at most the given number of requests.
const MOST_REQUESTS: usize = 1024;

/// The place of a request's run in its batch, and what its seat has seen.
#[derive(Drop)]
pub struct Sender<N: RoomName> {
    run: usize,
    seen: Front<N>,
}

/// The replies to a run, and its seat.
#[derive(Drop)]
pub struct Replies<N: RoomName> {
    seat: usize,
    replies: VecDeque<Reply<N>>,
}

/// Requests, beside each its sender, and for each run a queue without replies yet.
#[derive(Drop)]
pub struct Batch<N: RoomName> {
    requests: Vec<Request>,
    senders: Vec<Sender<N>>,
    runs: Vec<Replies<N>>,
}

impl<N: RoomName> Batch<N> {
    // Creates a batch with room for this number of requests. Errors: out of memory.
    fn new(alloc: Global, most: usize) -> Result<Batch<N>, AllocError>
        ensures empty { IfOk result (λ batch. (vec_len batch.requests ≡ 0) × (batch.senders.items ≡ []) × (vec_len batch.senders ≡ 0) × (vec_len batch.runs ≡ 0)) }
        ensures room { IfOk result (λ batch. (most ≤ vec_capacity batch.requests) × (most ≤ vec_capacity batch.senders) × (64 ≤ vec_capacity batch.runs)) }
    {
        Ok(Batch {
            requests: Vec::with_capacity(alloc, most)?,
            senders: Vec::with_capacity(alloc, most)?,
            runs: Vec::with_capacity(alloc, MOST_SEATS)?,
        })
    }

    // The number of its requests.
    fn len(&self) -> usize
        ensures { result ≡ vec_len self.now.requests }
    {
        self.requests.len()
    }

    // Adds the requests of the run that has this place. There is room for them.
    fn add(&mut self, run: usize, requests: Vec<Request>, seen: &Front<N>)
        requires requests { vec_len self.old.requests + vec_len requests ≤ vec_capacity self.old.requests }
        requires senders { vec_len self.old.senders + vec_len requests ≤ vec_capacity self.old.senders }
        ensures requests { vec_len self.new.requests ≡ vec_len self.old.requests + vec_len requests }
        ensures senders { vec_len self.new.senders ≡ vec_len self.old.senders + vec_len requests }
        ensures wide { vec_capacity self.new.requests ≡ vec_capacity self.old.requests }
        ensures long { vec_capacity self.new.senders ≡ vec_capacity self.old.senders }
        ensures runs { self.new.runs ≡ self.old.runs }
        ensures seen { (history : List Mark) → IsPrefix seen.now history → AreSeen history (map seen_of self.old.senders.items) → AreSeen history (map seen_of self.new.senders.items) }
    {
        for request in requests {
            self.requests.push_reserved(request);
            self.senders.push_reserved(Sender {
                run,
                seen: seen.again(),
            });
        }
    }

    // Adds a seat's run. There is room for it.
    fn add_run(&mut self, seat: usize, run: Run<N>)
        requires requests { vec_len self.old.requests + vec_len run.requests ≤ vec_capacity self.old.requests }
        requires senders { vec_len self.old.senders + vec_len run.requests ≤ vec_capacity self.old.senders }
        requires runs { vec_len self.old.runs < vec_capacity self.old.runs }
        ensures requests { vec_len self.new.requests ≡ vec_len self.old.requests + vec_len run.requests }
        ensures senders { vec_len self.new.senders ≡ vec_len self.old.senders + vec_len run.requests }
        ensures runs { vec_len self.new.runs ≡ vec_len self.old.runs + 1 }
        ensures wide { vec_capacity self.new.requests ≡ vec_capacity self.old.requests }
        ensures long { vec_capacity self.new.senders ≡ vec_capacity self.old.senders }
        ensures places { vec_capacity self.new.runs ≡ vec_capacity self.old.runs }
        ensures seen { (history : List Mark) → IsPrefix run.seen history → AreSeen history (map seen_of self.old.senders.items) → AreSeen history (map seen_of self.new.senders.items) }
    {
        let Run {
            requests,
            seen,
            replies,
        } = run;
        let place = self.runs.len();
        self.runs.push_reserved(Replies { seat, replies });
        self.add(place, requests, &seen);
    }
}

// Takes the runs that wait and fit into the batch, the leader's first, except those of seats that have seen more than this. Fails only if
// memory runs out, and then takes none.
fn gather<N: RoomName, W: Wait>(
    alloc: Global,
    rt: &W,
    mailbox: &Mailbox<N>,
    leader: usize,
    shown: &Front<N>,
) -> Result<Batch<N>, AllocError>
    ensures most { IfOk result (λ batch. length batch.requests.items ≤ 1024) }
    ensures seen { IfOk result (λ batch. AreSeen shown.now (map seen_of batch.senders.items)) }
{
    let most = mailbox.waiting(rt, MOST_REQUESTS);
    let mut batch = Batch::new(alloc, most)?;
    for turn in 0..MOST_SEATS {
        let seat = (leader % MOST_SEATS + turn) % MOST_SEATS;
        let room = most - batch.len();
        let Some(run) = mailbox.take_run(rt, seat, shown, room) else {
            continue;
        };
        batch.add_run(seat, run);
    }
    Ok(batch)
}

// The reply to a ticket that stood in a batch. None where the request was refused, and not all that is due is published.
fn reply<N: RoomName>(
    ticket: Ticket<N>,
    answer: Result<Receipt<N>, SubmitError>,
    due: &Front<N>,
    is_shown: bool,
) -> Option<Reply<N>>
    requires { Says N.opening ticket.seen due.now (seen_request ticket.request) answer }
{
    if !is_shown && is_refusal(&answer) {
        return None;
    }
    let learns = learned(&answer, &ticket.seen, due);
    Some(Reply::new(ticket, SeatAnswer { answer, learns }))
}

// The replies to each run of a batch.
fn replies_of<N: RoomName>(
    batch: Batch<N>,
    answers: Vec<Result<Receipt<N>, SubmitError>>,
    due: &Front<N>,
    is_shown: bool,
) -> Vec<Replies<N>>
    requires { AreSaid N.opening due.now (map seen_request batch.requests.items) (map seen_of batch.senders.items) answers.items }
{
    let Batch {
        requests,
        senders,
        mut runs,
    } = batch;
    let mut senders = senders.into_iter();
    let mut answers = answers.into_iter();
    for request in requests {
        let Some(Sender { run, seen }) = senders.next() else {
            break;
        };
        let Some(answer) = answers.next() else {
            break;
        };
        let reply = reply(Ticket { request, seen }, answer, due, is_shown);
        if let (Some(reply), Some(run)) = (reply, runs.get_mut(run)) {
            let _added = run.replies.push_back(reply);
        }
    }
    runs
}

// Leaves the replies to each run in the slot of its seat, all at once, so the seat never takes half of them.
fn leave_each<N: RoomName, W: Wait>(rt: &W, mailbox: &Mailbox<N>, runs: Vec<Replies<N>>) {
    for Replies { seat, replies } in runs {
        mailbox.answer(rt, seat, replies);
    }
}

/// Has the runs that wait and fit committed as one batch, the leader's first, and leaves the replies in their slots. A request is left without
/// a reply, and isn't kept, if memory runs out for the batch, or if it was refused and not all that is due is published. Fails where the batch
/// as a whole was refused, and then nothing of it is due.
#[tactic(auto, using(crate::proofs::Saying::answers_said, crate::proofs::Saying::batch_unanswered))]
pub fn commit<K: Keeper, N: RoomName, R: Wait + Drop, W: Wait>(
    alloc: Global,
    rt: &W,
    desk: &mut Desk<K, N, R>,
    mailbox: &Mailbox<N>,
    leader: usize,
) -> Result<(), SubmitError>
    ensures { IfErr result (IsUnanswered desk.new.failed) }
{
    let shown = desk.shown();
    let Ok(batch) = gather(alloc, rt, mailbox, leader, &shown) else {
        return Ok(());
    };
    let answers = desk.submit_many(rt, &batch.requests)?;
    let due = desk.due();
    let is_shown = due.is_same(&desk.shown());
    leave_each(rt, mailbox, replies_of(batch, answers, &due, is_shown));
    Ok(())
}
