// A worker: one thread that serves many connections, a step of one after the other.

use crate::budget::Budget;
use crate::connections::{End, Peer, peer_of, shake, step_at};
use crate::copies::Copies;
use crate::kicks::Kicks;
use crate::live_seat::{ASK, EDIT, LiveSeat};
use crate::polling::{Caller, Post, socket_of};
use crate::presence::Presence;
use crate::seat_terms::{SeatFlags, SeatTerms};
use crate::timing::Moment;
use app_listener::{Load, Shared};
use canvas_bell::Bell;
use canvas_board::RoomName;
use canvas_journal::Keeper;
use canvas_judge::Message;
use canvas_nodes::asked;
use canvas_room::Lock;
use canvas_turns::Step;
use crossbeam_channel::Receiver;
use room_handler::Terms;
use slab::Slab;
use std::alloc::{AllocError, Global};
use std::collections::VecDeque;
use std::io;
use std::net::TcpStream;
use std::sync::{Arc, Wait};
use std::thread::sleep;
use std::time::{Clock, Duration, Instant};

// How long a client that was told something is told nothing more: so long at least and at most, and within that a millisecond for so many
// connections of all workers, so that the pushes to a thousand who are told without a pause take less than a processor.
const LEAST_REST_MILLIS: u64 = 5;

const MOST_REST_MILLIS: u64 = 50;

const PUSHES_IN_A_MILLISECOND: usize = 64;

// How many connections are looked at in a millisecond, at most, for those that go on since their time has come.
const LOOKS_IN_A_MILLISECOND: usize = 1_024;

// The longest wait.
const MOST_MILLIS: u64 = 60_000;

// How often it is whispered what clients tell of themselves, at most: 30 times a second.
const WHISPER_MILLIS: u64 = 33;

// How many edits of several connections are judged together.
const MOST_TOGETHER: usize = 64;

// A connection of which so much was read, and whose step took so long, goes on only after so many times as long, so that others are served
// meanwhile.
const MUCH_READ: usize = 256 * 1024;

const LONG_MILLIS: u64 = 20;

const TIRED_FACTOR: u64 = 4;

// How long it rests where its post fails.
const FAILED_MILLIS: u64 = 50;

/// What a worker has for its connections, beside its seat.
pub(crate) struct Means<'a, N: RoomName> {
    /// What all threads share.
    pub(crate) shared: &'a Shared,
    /// What the seat keeps of the connection that it serves.
    pub(crate) flags: &'a SeatFlags,
    /// The budget of all connections.
    pub(crate) budget: &'a Budget,
    /// The bell.
    pub(crate) bell: &'a Bell<Caller>,
    /// What clients tell of themselves.
    pub(crate) presence: &'a Presence,
    /// The copies of the document.
    pub(crate) copies: &'a Arc<Copies<N>, Global>,
    /// The connections that an operator ends.
    pub(crate) kicks: &'a Kicks,
    /// The connections that it is given, and how many it serves.
    pub(crate) connections: &'a Receiver<TcpStream, Global>,
    pub(crate) load: &'a Load,
}

impl<N: RoomName> Drop for Means<'_, N> {
    fn drop(self) {
        let Means {
            shared: _,
            flags: _,
            budget: _,
            bell: _,
            presence: _,
            copies: _,
            kicks: _,
            connections: _,
            load: _,
        } = self;
    }
}

impl<'a, N: RoomName> Means<'a, N> {
    /// Returns the terms of a seat, which may be one for clients that need a copy. Errors: out of memory.
    pub(crate) fn terms<R: Wait + Clock>(
        &self,
        rt: &'a R,
        is_for_copies: bool,
    ) -> Result<SeatTerms<'a, N, R>, AllocError> {
        let copies = Arc::try_clone(self.copies)?;
        Ok(SeatTerms::new(
            rt,
            self.shared,
            copies,
            self.budget,
            self.flags,
            self.presence,
            is_for_copies,
        ))
    }
}

/// The seats of a worker: that of its connections, and that at which those are served whose clients need a copy of the document. As nothing else is
/// looked at there, that seat can be where a copy was written a moment ago.
pub(crate) struct Seats<'a, N: RoomName, D: Drop, W: Drop, T: Terms<N> + Drop> {
    pub(crate) usual: LiveSeat<'a, N, D, W, T>,
    pub(crate) copying: LiveSeat<'a, N, D, W, T>,
}

impl<N: RoomName, D: Drop, W: Drop, T: Terms<N> + Drop> Drop for Seats<'_, N, D, W, T> {
    fn drop(self) {
        let Seats {
            usual: _,
            copying: _,
        } = self;
    }
}

/// The connections of a worker.
#[derive(Drop)]
pub(crate) struct Round {
    post: Post,
    peers: Slab<Peer>,
    // Those that go on now, and those that go on once something is published.
    ready: VecDeque<usize>,
    listening: VecDeque<usize>,
    // Those that go on once all messages of this round are answered.
    late: VecDeque<usize>,
    begun: Instant,
    moment: Moment,
    // When one goes on at the latest, and when it was looked for those.
    due: u64,
    looked: u64,
    // When it was whispered last.
    whispered: u64,
    // Whether it listens at the bell.
    hears: bool,
    // How many files with connections that an operator ends it has looked at.
    kicked: u64,
}

impl Round {
    /// Returns a worker's that serves none. Errors: those of the clock.
    pub(crate) fn new<R: Clock + AllocGlobal>(rt: &R, post: Post) -> io::Result<Round> {
        Ok(Round {
            post,
            peers: Slab::new(rt.alloc()),
            ready: VecDeque::new(rt.alloc()),
            listening: VecDeque::new(rt.alloc()),
            late: VecDeque::new(rt.alloc()),
            begun: Instant::now(rt)?,
            moment: Moment {
                now: 0,
                least: 0,
                rest: LEAST_REST_MILLIS,
                tells: true,
                heard: 0,
            },
            due: u64::MAX,
            looked: 0,
            whispered: 0,
            hears: false,
            kicked: 0,
        })
    }

    // Returns how many milliseconds have passed since the beginning; if the clock fails, as many as before.
    fn millis<R: Clock>(&self, rt: &R) -> u64 {
        match self.begun.elapsed(rt) {
            Ok(passed) => u64::try_from(passed.as_millis()).unwrap_or(u64::MAX),
            Err(_) => self.moment.now,
        }
    }

    // Returns the millisecond at which it is looked again which connections go on.
    fn next_look(&self) -> u64 {
        let millis = self.peers.capacity() / LOOKS_IN_A_MILLISECOND;
        let next = self.looked.saturating_add(1).saturating_add(millis as u64);
        next.max(self.due)
    }

    // Returns how long may be waited.
    fn left(&self) -> Duration {
        if !self.ready.is_empty() {
            return Duration::from_millis(0);
        }
        let due = self.next_look();
        let left = due.saturating_sub(self.moment.now);
        Duration::from_millis(left.min(MOST_MILLIS))
    }

    // Has a connection go on in this round.
    fn rouse(&mut self, key: usize) {
        let Some(peer) = self.peers.get_mut(key) else {
            return;
        };
        if peer.may_go(self.moment.now) && self.ready.push_back(key).is_ok() {
            peer.is_ready = true;
        }
    }

    // Waits for reports, and has the connections go on that they are about. Returns whether it was called.
    fn wait<R: Clock>(&mut self, rt: &R) -> bool {
        let left = self.left();
        if self.post.wait(left).is_err() {
            sleep(rt, Duration::from_millis(FAILED_MILLIS));
        }
        let mut is_called = false;
        for event in self.post.events().iter() {
            let Some(key) = socket_of(event.token()) else {
                is_called = true;
                continue;
            };
            let Some(peer) = self.peers.get_mut(key) else {
                continue;
            };
            if event.is_readable() || event.is_read_closed() {
                peer.socket.rouse();
                peer.has_come = true;
            }
            if peer.may_go(self.moment.now) && self.ready.push_back(key).is_ok() {
                peer.is_ready = true;
            }
        }
        is_called
    }

    // Has the connections go on that wait for what is published.
    fn rouse_listening(&mut self) {
        for _ in 0..self.listening.len() {
            let Some(key) = self.listening.pop_front() else {
                return;
            };
            if let Some(peer) = self.peers.get_mut(key) {
                peer.is_listed = false;
            }
            self.rouse(key);
        }
    }

    // Doesn't listen at the bell any more.
    fn leave(&mut self, bell: &Bell<Caller>) {
        if self.hears {
            bell.leave(self.post.number());
            self.hears = false;
        }
    }

    // Listens for what is published after what was rung for by now, if a connection waits for that. Called before it is looked at what is
    // published.
    fn listen(&mut self, bell: &Bell<Caller>) {
        if !self.listening.is_empty() {
            bell.wait_at(self.post.number(), bell.rung());
            self.hears = true;
        }
    }

    // Has the connections go on that are told unasked, if some client has told something of itself, but not before its time.
    fn rouse_live(&mut self, presence: &Presence) {
        if presence.last() == self.moment.heard && self.looks_again(presence) {
            return;
        }
        let next = self.whispered.saturating_add(WHISPER_MILLIS);
        if self.moment.now < next {
            self.due = self.due.min(next);
            return;
        }
        self.whispered = self.moment.now;
        self.moment.heard = presence.look(self.post.number());
        for key in 0..self.peers.capacity() {
            if self.is_live(key) {
                self.rouse(key);
            }
        }
    }

    // Puts the connections that an operator ends into the list of those that take a step now, tired ones among them.
    fn rouse_kicked<R: Wait>(&mut self, rt: &R, kicks: &Kicks) {
        let count = kicks.count();
        if count == self.kicked {
            return;
        }
        self.kicked = count;
        for key in 0..self.peers.capacity() {
            let Some(peer) = self.peers.get_mut(key) else {
                continue;
            };
            if !kicks.has(rt, peer.number) {
                continue;
            }
            peer.is_kicked = true;
            if !peer.is_ready && self.ready.push_back(key).is_ok() {
                peer.is_ready = true;
            }
        }
        kicks.end();
    }

    // Looks once more if some client has told something, and is called once one does from then on: one that told something while it was looked the
    // last time may have called for what was seen then. Returns whether there is nothing new.
    fn looks_again(&self, presence: &Presence) -> bool {
        presence.look(self.post.number()) == self.moment.heard
    }

    // Checks whether the client of this connection is told unasked.
    fn is_live(&self, key: usize) -> bool {
        match self.peers.get(key) {
            Some(peer) => peer.place.is_some(),
            None => false,
        }
    }

    // Has the connections go on whose time has come.
    fn rouse_due(&mut self) {
        let now = self.moment.now;
        if now < self.next_look() {
            return;
        }
        self.looked = now;
        self.due = u64::MAX;
        for key in 0..self.peers.capacity() {
            let Some(peer) = self.peers.get(key) else {
                continue;
            };
            let due = peer.watch.due();
            if due <= now {
                self.rouse(key);
            } else {
                self.due = self.due.min(due);
            }
        }
    }

    // Has a connection rest until its time comes, or something is reported of it or published.
    fn settle(&mut self, key: usize) {
        let Some(peer) = self.peers.get_mut(key) else {
            return;
        };
        peer.read = 0;
        if peer.watch.is_late() && !peer.is_ready && self.late.push_back(key).is_ok() {
            peer.is_ready = true;
            return;
        }
        self.due = self.due.min(peer.watch.due());
        if peer.watch.is_listening() && !peer.is_listed && self.listening.push_back(key).is_ok() {
            peer.is_listed = true;
        }
    }

    // Has a connection go on at this millisecond, since its step took long.
    fn tire(&mut self, key: usize, until: u64) {
        if let Some(peer) = self.peers.get_mut(key) {
            peer.read = 0;
            peer.watch.tire(until);
            self.due = self.due.min(until);
        }
    }

    // Keeps a connection that begins. Errors: out of memory.
    fn keep(&mut self, peer: Peer) -> Result<(), AllocError> {
        self.ready.reserve(self.peers.len().saturating_add(1))?;
        self.listening.reserve(self.peers.len().saturating_add(1))?;
        self.late.reserve(self.peers.len().saturating_add(1))?;
        self.peers.reserve(1)?;
        let key = self.peers.insert_reserved(peer);
        self.ready.push_back(key)?;
        Ok(())
    }
}

// Logs what became of a connection.
fn tell<R: Wait + AllocGlobal>(rt: &R, shared: &Shared, number: u64, what: &str) {
    if shared.quiet {
        return;
    }
    if let Ok(line) = format!(in rt.alloc(); "connection {number} {what}") {
        shared.log.tell(rt, line);
    }
}

// Logs that a connection begins, and from where, also by the address that its proxy names.
fn tell_begin<R: Wait + AllocGlobal>(
    rt: &R,
    shared: &Shared,
    number: u64,
    stream: &TcpStream,
    client: Option<String>,
) {
    if shared.quiet {
        return;
    }
    let Ok(address) = stream.peer_addr() else {
        return tell(rt, shared, number, "begins");
    };
    let line = match client {
        Some(client) => {
            format!(in rt.alloc(); "connection {number} begins, from {client}, by {address}")
        }
        None => format!(in rt.alloc(); "connection {number} begins, from {address}"),
    };
    if let Ok(line) = line {
        shared.log.tell(rt, line);
    }
}

// Counts and logs a connection that has ended.
fn close<N: RoomName, R: Wait + AllocGlobal>(rt: &R, means: &Means<'_, N>, number: u64, end: End) {
    means.load.end();
    means.shared.figures.end();
    tell(rt, means.shared, number, end.words());
}

// Takes in a connection.
fn welcome<N: RoomName, R: Wait + Clock + AllocGlobal>(
    rt: &R,
    means: &Means<'_, N>,
    round: &mut Round,
    stream: TcpStream,
) {
    let number = means.shared.figures.begin();
    let (client, config) = shake(rt.alloc(), means.shared, &stream);
    tell_begin(rt, means.shared, number, &stream, client);
    let config = match config {
        Ok(config) => config,
        Err(end) => return close(rt, means, number, end),
    };
    let limits = means.shared.limits;
    let Ok(peer) = peer_of(rt.alloc(), limits, stream, config, number, round.moment) else {
        return close(rt, means, number, End::Memory);
    };
    let key = round.peers.vacant_key();
    if round.post.begin(peer.socket.stream(), key).is_err() {
        return close(rt, means, number, End::SocketFailed);
    }
    if round.keep(peer).is_err() {
        close(rt, means, number, End::Memory);
    }
}

// What a connection does after a step.
#[derive(Clone, Copy, Debug, PartialEq, Eq)]
enum Stepped {
    Goes,
    Rests,
    // It took no step yet.
    Waits,
    Ends(End),
}

// Takes a step of a connection.
fn step<K, N, L, R, T>(
    alloc: Global,
    flags: &SeatFlags,
    moment: Moment,
    seat: &mut LiveSeat<'_, N, Lock<K, N, L>, R, T>,
    peer: &mut Peer,
) -> Stepped
where
    K: Keeper + Drop,
    N: RoomName,
    L: Wait + Drop,
    R: Wait + Clock + AllocGlobal + Clone + Drop,
    T: Terms<N> + Drop,
{
    let Some(connection) = peer.connection.take() else {
        return Stepped::Ends(End::Memory);
    };
    let Ok(socket) = peer.socket.clone() else {
        return Stepped::Ends(End::Memory);
    };
    let read = peer.socket.take_read();
    let has_come = std::mem::replace(&mut peer.has_come, false);
    peer.read = peer.read.saturating_add(read);
    peer.watch.begin(moment, has_come || read > 0);
    flags.swap(&peer.flags);
    peer.socket.begin_step();
    seat.begin_step(socket, moment.heard);
    let (step, place) = step_at(alloc, seat, connection, peer.place, &mut peer.watch);
    peer.place = place;
    let stepped = match step {
        Step::Goes(connection) => {
            peer.connection = Some(connection);
            Stepped::Goes
        }
        Step::Rests(connection) => {
            peer.connection = Some(connection);
            if peer.socket.is_cut() {
                Stepped::Goes
            } else {
                Stepped::Rests
            }
        }
        Step::Ends(end) => {
            seat.leave();
            Stepped::Ends(End::Served(end))
        }
    };
    seat.end_step();
    flags.swap(&peer.flags);
    stepped
}

// Ends a connection in place of a step, since an operator does.
fn kick<K, N, L, R, T>(
    flags: &SeatFlags,
    seat: &mut LiveSeat<'_, N, Lock<K, N, L>, R, T>,
    peer: &Peer,
) -> Stepped
where
    K: Keeper + Drop,
    N: RoomName,
    L: Wait + Drop,
    R: Wait + Clock + AllocGlobal + Clone + Drop,
    T: Terms<N> + Drop,
{
    flags.swap(&peer.flags);
    seat.go_to_place(peer.place);
    seat.leave();
    flags.swap(&peer.flags);
    Stepped::Ends(End::Kicked)
}

// Where the next step of a connection is taken.
#[derive(Clone, Copy, Debug, PartialEq, Eq)]
enum StepPlace {
    Usual,
    Copying,
    // At no seat yet: its copy is being written.
    Later,
}

// Returns where the next step of a connection is taken: if its client asks from below the floor, where a copy is, once it is written. A client that no
// copy is for is served as others are.
fn place_of<N: RoomName, R: Wait + AllocGlobal>(
    rt: &R,
    means: &Means<'_, N>,
    peer: &mut Peer,
) -> StepPlace {
    let Some((client, version)) = asked_ahead(rt.alloc(), peer) else {
        return StepPlace::Usual;
    };
    let figures = &means.shared.figures;
    if version >= figures.floor() {
        return StepPlace::Usual;
    }
    if means
        .copies
        .is_for(rt, figures.least_copy(), client, version)
    {
        return StepPlace::Copying;
    }
    let written = means.copies.written(rt);
    let since = *peer.waits_since.get_or_insert(written);
    if written.saturating_sub(since) < 2 && means.copies.want(rt) {
        StepPlace::Later
    } else {
        StepPlace::Usual
    }
}

// Returns the client and the version of the Ask that comes next on a connection, if one does.
fn asked_ahead(alloc: Global, peer: &Peer) -> Option<(u32, u64)> {
    if peer.has_come && peer.socket.is_dry() {
        peer.socket.fetch();
    }
    let text = peer.socket.inbox().peek(ASK)?;
    match &asked(alloc, &text) {
        Ok(Message::Ask { client, version }) => Some((*client, *version)),
        _ => None,
    }
}

// Checks whether there is a copy for the client of a connection that waits for one.
fn has_copy<N: RoomName, R: Wait>(rt: &R, means: &Means<'_, N>, peer: &Peer) -> bool {
    let Some(place) = peer.place else {
        return false;
    };
    let least = means.shared.figures.least_copy();
    peer.flags.awaits_copy() && means.copies.is_for(rt, least, place.client, place.version)
}

// Takes a step of a connection at the seat where it is due. If its client waits for a copy that is there by now, and nothing that it has sent is left
// to be read, it is told that.
fn step_due<K, N, L, R, T>(
    rt: &R,
    means: &Means<'_, N>,
    moment: Moment,
    seats: &mut Seats<'_, N, Lock<K, N, L>, R, T>,
    peer: &mut Peer,
) -> Stepped
where
    K: Keeper + Drop,
    N: RoomName,
    L: Wait + Drop,
    R: Wait + Clock + AllocGlobal + Clone + Drop,
    T: Terms<N> + Drop,
{
    let stepped = match place_of(rt, means, peer) {
        StepPlace::Usual => step(rt.alloc(), means.flags, moment, &mut seats.usual, peer),
        StepPlace::Copying => step(rt.alloc(), means.flags, moment, &mut seats.copying, peer),
        StepPlace::Later => {
            peer.watch.hold(moment.now);
            return Stepped::Waits;
        }
    };
    peer.waits_since = None;
    if stepped == Stepped::Rests && has_copy(rt, means, peer) {
        return step(rt.alloc(), means.flags, moment, &mut seats.copying, peer);
    }
    stepped
}

// Takes a step of the connection of this key, and does what it says.
fn serve<K, N, L, R, T>(
    rt: &R,
    means: &Means<'_, N>,
    round: &mut Round,
    seats: &mut Seats<'_, N, Lock<K, N, L>, R, T>,
    key: usize,
)
where
    K: Keeper + Drop,
    N: RoomName,
    L: Wait + Drop,
    R: Wait + Clock + AllocGlobal + Clone + Drop,
    T: Terms<N> + Drop,
{
    let begun = round.millis(rt);
    let Some(peer) = round.peers.get_mut(key) else {
        return;
    };
    peer.is_ready = false;
    let stepped = if peer.is_kicked {
        kick(means.flags, &mut seats.usual, peer)
    } else {
        step_due(rt, means, round.moment, seats, peer)
    };
    let is_much = peer.read >= MUCH_READ || peer.flags.take_written();
    let due = peer.watch.due();
    let now = round.millis(rt);
    let spent = now.saturating_sub(begun);
    match stepped {
        Stepped::Goes | Stepped::Rests if is_much && spent >= LONG_MILLIS => {
            round.tire(key, now.saturating_add(spent.saturating_mul(TIRED_FACTOR)));
        }
        Stepped::Goes => round.rouse(key),
        Stepped::Rests => round.settle(key),
        Stepped::Waits => round.due = round.due.min(due),
        Stepped::Ends(end) => if let Some(peer) = round.peers.try_remove(key) {
            round.post.end(peer.socket.stream());
            close(rt, means, peer.number, end);
        },
    }
}

// Gets edits judged together that have come on the connections that go on next. Returns how many connections these are.
fn judge_next<K, N, L, R, T>(
    alloc: Global,
    round: &mut Round,
    seats: &mut Seats<'_, N, Lock<K, N, L>, R, T>,
) -> usize
where
    K: Keeper + Drop,
    N: RoomName,
    L: Wait + Drop,
    R: Wait + Clock + Drop,
    T: Terms<N> + Drop,
{
    let mut texts = Vec::new(alloc);
    let mut count: usize = 0;
    for key in round.ready.iter() {
        count = count.saturating_add(1);
        let Some(peer) = round.peers.get(*key) else {
            continue;
        };
        if peer.has_come && !peer.is_kicked && peer.socket.is_dry() {
            peer.socket.fetch();
            let most = MOST_TOGETHER.saturating_sub(texts.len());
            let mut run = peer.socket.inbox().take_ahead(EDIT, most);
            if texts.append(&mut run).is_err() {
                break;
            }
        }
        if texts.len() >= MOST_TOGETHER {
            break;
        }
    }
    round.moment.tells = texts.len() < 2;
    seats.usual.judge_all(alloc, &texts);
    count
}

// Takes a step of each connection that goes on in this round.
fn serve_ready<K, N, L, R, T>(
    rt: &R,
    means: &Means<'_, N>,
    round: &mut Round,
    seats: &mut Seats<'_, N, Lock<K, N, L>, R, T>,
)
where
    K: Keeper + Drop,
    N: RoomName,
    L: Wait + Drop,
    R: Wait + Clock + AllocGlobal + Clone + Drop,
    T: Terms<N> + Drop,
{
    let mut left = round.ready.len();
    for _ in 0..round.ready.len() {
        if left == 0 {
            break;
        }
        let count = judge_next(rt.alloc(), round, seats).min(left).max(1);
        serve_some(rt, means, round, seats, count);
        left = left.saturating_sub(count);
    }
    round.moment.tells = true;
    serve_late(rt, means, round, seats);
}

// Takes a step of each connection that is told something now that all messages are answered.
fn serve_late<K, N, L, R, T>(
    rt: &R,
    means: &Means<'_, N>,
    round: &mut Round,
    seats: &mut Seats<'_, N, Lock<K, N, L>, R, T>,
)
where
    K: Keeper + Drop,
    N: RoomName,
    L: Wait + Drop,
    R: Wait + Clock + AllocGlobal + Clone + Drop,
    T: Terms<N> + Drop,
{
    for _ in 0..round.late.len() {
        let Some(key) = round.late.pop_front() else {
            return;
        };
        serve(rt, means, round, seats, key);
    }
}

// Takes a step of so many of the connections that go on next.
fn serve_some<K, N, L, R, T>(
    rt: &R,
    means: &Means<'_, N>,
    round: &mut Round,
    seats: &mut Seats<'_, N, Lock<K, N, L>, R, T>,
    count: usize,
)
where
    K: Keeper + Drop,
    N: RoomName,
    L: Wait + Drop,
    R: Wait + Clock + AllocGlobal + Clone + Drop,
    T: Terms<N> + Drop,
{
    for _ in 0..count {
        let Some(key) = round.ready.pop_front() else {
            return;
        };
        serve(rt, means, round, seats, key);
    }
}

// Takes in the connections that the worker is given.
fn welcome_each<N: RoomName, R: Wait + Clock + AllocGlobal>(
    rt: &R,
    means: &Means<'_, N>,
    round: &mut Round,
) {
    for _ in 0..means.connections.len() {
        let Ok(stream) = means.connections.try_recv(rt) else {
            return;
        };
        welcome(rt, means, round, stream);
    }
}

// Returns how long a client that was told something is told nothing more, if each of so many workers serves so many.
fn rest_of(count: usize, workers: usize) -> u64 {
    let millis = count.saturating_mul(workers) / PUSHES_IN_A_MILLISECOND;
    (millis as u64).max(LEAST_REST_MILLIS).min(MOST_REST_MILLIS)
}

// Waits until there is something to do, and does it.
fn turn<K, N, L, R, T>(
    rt: &R,
    means: &Means<'_, N>,
    round: &mut Round,
    seats: &mut Seats<'_, N, Lock<K, N, L>, R, T>,
)
where
    K: Keeper + Drop,
    N: RoomName,
    L: Wait + Drop,
    R: Wait + Clock + AllocGlobal + Clone + Drop,
    T: Terms<N> + Drop,
{
    let is_called = round.wait(rt);
    round.moment.now = round.millis(rt);
    round.moment.least = means.budget.least_taken();
    round.moment.rest = rest_of(round.peers.len(), means.presence.workers());
    if is_called {
        round.leave(means.bell);
        round.listen(means.bell);
        welcome_each(rt, means, round);
        round.rouse_listening();
    }
    round.rouse_kicked(rt, means.kicks);
    round.rouse_due();
    round.rouse_live(means.presence);
    serve_ready(rt, means, round, seats);
    if !round.hears && !round.listening.is_empty() {
        // They look once more at what is published, now that the bell is heard.
        round.listen(means.bell);
        round.rouse_listening();
    }
}

/// Serves the connections that a worker is given, for as long as the server runs.
pub(crate) fn work<K, N, L, R, T>(
    rt: &R,
    means: &Means<'_, N>,
    round: &mut Round,
    seats: &mut Seats<'_, N, Lock<K, N, L>, R, T>,
)
where
    K: Keeper + Drop,
    N: RoomName,
    L: Wait + Drop,
    R: Wait + Clock + AllocGlobal + Clone + Drop,
    T: Terms<N> + Drop,
{
    for _ in rt.forever() {
        turn(rt, means, round, seats);
    }
    unreachable!()
}
