// The connections that no worker serves: whose head isn't whole, that wait for a place, whose answer leaves, or that have it.
ghost use Rattle.std.specs.Prelude.{◌≡◌, ◌+◌, ◌<◌, ◌≤◌, ◌⊎◌, ◌++◌, ◌↔◌, [], IfNone, IfSome, IsTrue, None, Some, drop, length, min, option_to_list};
ghost use Rattle.net_listener.specs.Queues.{waiting_of};
ghost use Rattle.app_listener.specs.Halls.{HasEmptyQueues, IsBeforeAll, line_of};

use crate::answers::{answer_to, turn_away};
use crate::options::Shared;
use crate::streams::{Answer, Heard, hear, read_out};
use crate::tokens::Stage;
use crate::workers::Workers;
use mio::unix::SourceFd;
use mio::{Interest, Registry};
use net_http::{Endpoint, HttpRequest};
use net_listener::{Queue, Waiting};
use std::alloc::{AllocError, Global};
use std::io;
use std::net::{Shutdown, TcpStream};
use std::os::fd::AsRawFd;
use std::sync::Wait;

// How many connections may be there without a whole head, and how long each may take for it.
const MOST_HEADS: usize = 4_096;

const HEAD_MILLIS: u64 = 10_000;

// How many handshakes may wait for a place that may be given back meanwhile, and how long.
const MOST_HANDSHAKES: usize = 1_024;

const SEAT_MILLIS: u64 = 200;

// How many answers may be leaving, and how long a peer may take nothing of its answer.
const MOST_ANSWERS: usize = 128;

const ANSWER_MILLIS: u64 = 10_000;

// How many connections that have their answer may be there until their peer ends them, and how long.
const MOST_ENDS: usize = 1_024;

const END_MILLIS: u64 = 2_000;

// How many connections are closed where no descriptor is left for another.
const MADE_ROOM: usize = 64;

/// What the connections are served with, and the millisecond at which it is done.
#[derive(Drop)]
pub(crate) struct Round<'a, R> {
    pub(crate) rt: &'a R,
    pub(crate) shared: &'a Shared,
    pub(crate) workers: &'a Workers,
    pub(crate) registry: &'a Registry,
    pub(crate) now: u64,
}

impl<R> Round<'_, R> {
    // From now on an event is reported for this connection, if this is waited for.
    fn watch(&self, stream: &TcpStream, number: u64, stage: Stage) -> io::Result<()> {
        let interest = match stage {
            Stage::Head | Stage::End => Interest::READABLE,
            Stage::Answer => Interest::WRITABLE,
        };
        let fd = stream.as_raw_fd();
        let token = stage.token(number);
        let mut source = SourceFd(&fd);
        match self.registry.reregister(&mut source, token, interest) {
            Ok(()) => Ok(()),
            Err(_) => self.registry.register(&mut source, token, interest),
        }
    }

    // No event is reported for this connection any more.
    fn forget(&self, stream: &TcpStream) {
        let fd = stream.as_raw_fd();
        let _ = self.registry.deregister(&mut SourceFd(&fd));
    }
}

/// The connections that no worker serves. Each is in one queue, under a number that no other has.
#[derive(Drop)]
pub(crate) struct Hall {
    // Those without a whole head.
    heads: Queue<TcpStream>,
    // The handshakes, and the one that is given to a worker next.
    handshakes: Queue<TcpStream>,
    first: Option<Waiting<TcpStream>>,
    // The answers that leave.
    answers: Queue<Answer>,
    // Those that have their answer.
    ends: Queue<Answer>,
    // The number of the next connection.
    next: u64,
}

impl Hall {
    /// Nobody is there yet. Errors: out of memory.
    pub(crate) fn new(alloc: Global) -> Result<Hall, AllocError> {
        Ok(Hall {
            heads: Queue::new(alloc, MOST_HEADS, HEAD_MILLIS)?,
            handshakes: Queue::new(alloc, MOST_HANDSHAKES, SEAT_MILLIS)?,
            first: None,
            answers: Queue::new(alloc, MOST_ANSWERS, ANSWER_MILLIS)?,
            ends: Queue::new(alloc, MOST_ENDS, END_MILLIS)?,
            next: 0,
        })
    }

    /// Takes in a connection. If 4,096 have no whole head, the one that came first is closed.
    pub(crate) fn welcome<R>(&mut self, round: &Round<'_, R>, stream: TcpStream) {
        let number = self.next;
        self.next = number.wrapping_add(1);
        if stream.set_nonblocking(true).is_err() {
            return;
        }
        if round.watch(&stream, number, Stage::Head).is_ok() {
            let _ = self.heads.put(round.now, number, stream);
        }
    }

    /// Closes the 64 connections that have had their answer for longest, or, if none has it, the 64 that came first and have no whole head.
    /// Returns whether any was there.
    pub(crate) fn make_room(&mut self) -> bool
        ensures made { IsTrue result ↔ (0 < length (waiting_of self.old.ends) + length (waiting_of self.old.heads)) }
        ensures ends { waiting_of self.new.ends ≡ drop (min MADE_ROOM (length (waiting_of self.old.ends))) (waiting_of self.old.ends) }
        ensures heads { waiting_of self.old.ends ≡ [] → waiting_of self.new.heads ≡ drop (min MADE_ROOM (length (waiting_of self.old.heads))) (waiting_of self.old.heads) }
        ensures line { line_of self.new ≡ line_of self.old }
    {
        self.ends.drop_first(MADE_ROOM) > 0 || self.heads.drop_first(MADE_ROOM) > 0
    }

    /// Goes on with a connection of which something was reported.
    pub(crate) fn go_on<R>(
        &mut self,
        round: &Round<'_, R>,
        number: u64,
        stage: Stage,
        is_closed: bool,
    )
    where
        R: AllocGlobal,
    {
        match stage {
            Stage::Head => self.hear(round, number, is_closed),
            Stage::Answer => {
                if let Some(waiting) = self.answers.take(number) {
                    self.send(round, number, waiting.item);
                }
            }
            Stage::End => self.read_out(number),
        }
    }

    // Looks at a head. Once it is whole its request is served; one that ends before is closed.
    fn hear<R: AllocGlobal>(&mut self, round: &Round<'_, R>, number: u64, is_closed: bool) {
        let Some(stream) = self.heads.get(number) else {
            return;
        };
        let heard = hear(&round.shared.site, stream, is_closed);
        if let Heard::Part = heard {
            return;
        }
        let Some(waiting) = self.heads.take(number) else {
            return;
        };
        if let Heard::Request(request) = heard {
            self.serve(round, number, waiting.item, &request);
        }
    }

    // Has a handshake wait for a place, and answers every other request.
    fn serve<R: AllocGlobal>(
        &mut self,
        round: &Round<'_, R>,
        number: u64,
        stream: TcpStream,
        request: &HttpRequest,
    ) {
        if request.asked == Endpoint::Connection {
            round.forget(&stream);
            if let Some(displaced) = self.handshakes.put(round.now, number, stream) {
                self.turn_away(round, displaced);
            }
            return;
        }
        round.shared.figures.answer();
        if let Ok(reply) = answer_to(round.rt.alloc(), round.shared, request) {
            self.send(round, number, Answer::new(stream, reply));
        }
    }

    // Tells a client that there is no place.
    fn turn_away<R: AllocGlobal>(&mut self, round: &Round<'_, R>, waiting: Waiting<TcpStream>) {
        let Waiting {
            number,
            until: _,
            item,
        } = waiting;
        round.shared.figures.turn_away();
        if let Ok(reply) = turn_away(round.rt.alloc(), round.shared) {
            self.send(round, number, Answer::new(item, reply));
        }
    }

    // Gives a connection what it takes of its answer now. If 128 answers wait to leave, that of which nothing was taken for longest is cut.
    fn send<R>(&mut self, round: &Round<'_, R>, number: u64, answer: Answer) {
        let mut answer = answer;
        match answer.give() {
            Ok(true) => self.end(round, number, answer),
            Ok(false) => {
                if round.watch(answer.stream(), number, Stage::Answer).is_ok() {
                    let _ = self.answers.put(round.now, number, answer);
                }
            }
            Err(_) => {}
        }
    }

    // Ends a connection that has its answer, once its peer does, but no later than in 2 seconds.
    fn end<R>(&mut self, round: &Round<'_, R>, number: u64, answer: Answer) {
        let stream = answer.stream();
        if stream.shutdown(Shutdown::Write).is_err() || !read_out(stream) {
            return;
        }
        if round.watch(stream, number, Stage::End).is_ok() {
            let _ = self.ends.put(round.now, number, answer);
        }
    }

    // Reads what has come of a connection that has its answer.
    fn read_out(&mut self, number: u64) {
        let Some(answer) = self.ends.get(number) else {
            return;
        };
        if !read_out(answer.stream()) {
            let _ = self.ends.take(number);
        }
    }

    /// Gives the handshakes to workers, those that came first first, as far as there are places.
    pub(crate) fn seat<R: Wait>(&mut self, round: &Round<'_, R>) {
        for _ in 0..MOST_HANDSHAKES {
            let Some(waiting) = self.next_handshake() else {
                return;
            };
            let Waiting {
                number,
                until,
                item,
            } = waiting;
            if let Some(item) = round.workers.give(round.rt, item) {
                self.first = Some(Waiting {
                    number,
                    until,
                    item,
                });
                return;
            }
        }
    }

    // Takes out the handshake that came first.
    fn next_handshake(&mut self) -> Option<Waiting<TcpStream>>
        ensures line { line_of self.old ≡ option_to_list result ++ line_of self.new }
        ensures none { IfNone result (line_of self.old ≡ []) }
    {
        match self.first.take() {
            Some(waiting) => Some(waiting),
            None => self.handshakes.pop_first(),
        }
    }

    /// Closes the connections whose time is over, and turns clients away that waited for a place.
    pub(crate) fn end_due<R: AllocGlobal>(&mut self, round: &Round<'_, R>) {
        self.heads.drop_due(round.now);
        self.answers.drop_due(round.now);
        self.ends.drop_due(round.now);
        for _ in 0..=MOST_HANDSHAKES {
            match self.due_handshake(round.now) {
                Some(waiting) => self.turn_away(round, waiting),
                None => return,
            }
        }
    }

    // Takes out the handshake that came first, if it is due.
    fn due_handshake(&mut self, now: u64) -> Option<Waiting<TcpStream>>
        ensures line { line_of self.old ≡ option_to_list result ++ line_of self.new }
        ensures ended { IfSome result (λ w. w.until ≤ now) }
    {
        match self.first.take() {
            Some(waiting) if waiting.until <= now => Some(waiting),
            Some(waiting) => {
                self.first = Some(waiting);
                None
            }
            None => self.handshakes.pop_due(now),
        }
    }

    /// Checks whether a handshake waits for a place.
    pub(crate) fn has_handshake(&self) -> bool
        ensures { IsTrue result ↔ (0 < length (line_of self.now)) }
    {
        self.first.is_some() || self.handshakes.len() > 0
    }

    /// Returns the millisecond before which nothing is due, if a queue has anything.
    pub(crate) fn next_due(&self) -> Option<u64>
        ensures before { IfSome result (λ due. IsBeforeAll due self.now) }
        ensures none { IfNone result (HasEmptyQueues self.now) }
    {
        let heads = sooner(self.heads.next_due(), self.handshakes.next_due());
        let leaving = sooner(self.answers.next_due(), self.ends.next_due());
        sooner(heads, leaving)
    }
}

// The earlier of two times.
fn sooner(a: Option<u64>, b: Option<u64>) -> Option<u64>
    ensures first { IfSome result (λ at. IfSome a (λ x. at ≤ x) × IfSome b (λ y. at ≤ y)) }
    ensures either { IfSome result (λ at. (a ≡ Some at) ⊎ (b ≡ Some at)) }
    ensures none { IfNone result ((a ≡ None) × (b ≡ None)) }
{
    match (a, b) {
        (Some(a), Some(b)) => Some(a.min(b)),
        (Some(at), None) | (None, Some(at)) => Some(at),
        (None, None) => None,
    }
}
