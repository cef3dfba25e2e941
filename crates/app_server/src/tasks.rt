// What the threads of a server do, each for as long as the server runs.

use crate::budget::Budget;
use crate::copies::Copies;
use crate::kicks::Kicks;
use crate::live_seat::LiveSeat;
use crate::polling::{Caller, Post};
use crate::presence::Presence;
use crate::seat_terms::{SeatFlags, SeatTerms};
use crate::worker::{Means, Round, Seats, work};
use app_listener::{Door, Load, Log, Shared, Workers, stand, write_lines};
use app_storage::Task;
use canvas_bell::Bell;
use canvas_board::RoomName;
use canvas_journal::Keeper;
use canvas_room::{Lock, Seat};
use crossbeam_channel::Receiver;
use room_handler::SeatAnswerer;
use std::alloc::{AllocError, Global};
use std::io::Eprint;
use std::net::TcpStream;
use std::sync::{Arc, Wait};
use std::time::Clock;

/// A worker: a seat, one for clients that need a copy, and where it is given connections.
pub(crate) struct WorkerTask<N: RoomName, D: Drop, R: Drop> {
    pub(crate) rt: R,
    pub(crate) seat: Seat<N, D>,
    pub(crate) copy_seat: Seat<N, D>,
    pub(crate) shared: Arc<Shared, Global>,
    pub(crate) copies: Arc<Copies<N>, Global>,
    pub(crate) budget: Arc<Budget, Global>,
    pub(crate) connections: Receiver<TcpStream, Global>,
    pub(crate) load: Arc<Load, Global>,
    pub(crate) post: Post,
    pub(crate) bell: Arc<Bell<Caller>, Global>,
    pub(crate) presence: Arc<Presence, Global>,
    pub(crate) kicks: Arc<Kicks, Global>,
}

impl<N: RoomName, D: Drop, R: Drop> Drop for WorkerTask<N, D, R> {
    fn drop(self) {
        let WorkerTask {
            rt: _,
            seat: _,
            copy_seat: _,
            shared: _,
            copies: _,
            budget: _,
            connections: _,
            load: _,
            post: _,
            bell: _,
            presence: _,
            kicks: _,
        } = self;
    }
}

impl<K, N, L, R> Task for WorkerTask<N, Lock<K, N, L>, R>
where
    K: Keeper + Drop,
    N: RoomName,
    L: Wait + Drop,
    R: Wait + Clock + AllocGlobal + Clone + Drop,
{
    // Serves the connections that it is given. If memory runs out at its beginning, it serves none.
    fn run(self) {
        let WorkerTask {
            rt,
            seat,
            copy_seat,
            shared,
            copies,
            budget,
            connections,
            load,
            post,
            bell,
            presence,
            kicks,
        } = self;
        let Ok(mut round) = Round::new(&rt, post) else {
            return;
        };
        let flags = SeatFlags::new();
        let means = Means {
            shared: &shared,
            flags: &flags,
            budget: &budget,
            bell: &bell,
            presence: &presence,
            copies: &copies,
            kicks: &kicks,
            connections: &connections,
            load: &load,
        };
        let Ok(usual) = live_seat(&rt, &means, seat, false) else {
            return;
        };
        let Ok(copying) = live_seat(&rt, &means, copy_seat, true) else {
            return;
        };
        let mut seats = Seats { usual, copying };
        work(&rt, &means, &mut round, &mut seats);
    }
}

// Returns this seat for connections of a worker, maybe those whose clients need a copy. Errors: out of memory.
fn live_seat<'a, N: RoomName, D: Drop, R: Wait + Clock + AllocGlobal + Clone + Drop>(
    rt: &'a R,
    means: &Means<'a, N>,
    seat: Seat<N, D>,
    is_for_copies: bool,
) -> Result<OwnSeat<'a, N, D, R>, AllocError> {
    let own = rt.clone()?;
    let answerer = SeatAnswerer::new(rt.alloc(), own, seat, means.terms(rt, is_for_copies)?);
    let terms = means.terms(rt, is_for_copies)?;
    Ok(LiveSeat::new(answerer, terms, means.shared, means.bell))
}

// A worker's seat.
type OwnSeat<'a, N, D, R> = LiveSeat<'a, N, D, R, SeatTerms<'a, N, R>>;

/// The door, and the workers to which it gives connections.
#[derive(Drop)]
pub(crate) struct DoorTask<R: Drop> {
    pub(crate) rt: R,
    pub(crate) shared: Arc<Shared, Global>,
    pub(crate) workers: Workers,
    pub(crate) door: Door,
}

impl<R> Task for DoorTask<R>
where
    R: Wait + Clock + AllocGlobal + Drop,
{
    // Serves all connections that no worker does.
    fn run(self) {
        let DoorTask {
            rt,
            shared,
            workers,
            mut door,
        } = self;
        stand(&rt, &shared, &workers, &mut door);
    }
}

/// The lines that are logged.
#[derive(Drop)]
pub(crate) struct LogTask<R: Drop> {
    pub(crate) rt: R,
    pub(crate) log: Arc<Log, Global>,
    pub(crate) lines: Receiver<String, Global>,
}

impl<R> Task for LogTask<R>
where
    R: Wait + Eprint + Drop,
{
    // Writes one line after the other.
    fn run(self) {
        let LogTask { rt, log, lines } = self;
        write_lines(&rt, &log, &lines);
    }
}
