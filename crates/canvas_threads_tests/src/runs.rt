//! Runs of nodes at rooms over journals in memory.
ghost use Rattle.std.specs.Prelude.{◌≡◌};

use canvas_board::RoomName;
use canvas_client::{Client, EditRequest};
use canvas_desk::SubmitError;
use canvas_doc::{Kind, ObjId};
use canvas_journal::Keeper;
use canvas_room::{BlankRoom, Room};
use canvas_server::Request;
use canvas_threads::{Gate, run_nodes};
use std::alloc::{AllocError, Global};
use std::marker::Brand;
use std::sync::Wait;
use std::test::Fail;
use std::thread::Threads;
use test_rooms::{Bench, SeatOf, room_in_memory};

/// An edit that a node is to make.
#[derive(Clone, Copy)]
pub enum Edit {
    /// A page.
    Page,
    /// The removal of an object that isn't there, which the client refuses.
    Refused,
}

/// What nodes are to do at a room.
#[derive(Clone, Copy)]
pub struct Work {
    /// The edits of each node.
    pub lists: &'static [&'static [Edit]],
    /// Whether a client joins first at the room's last seat, and a checkpoint passes its entry.
    pub has_floor: bool,
}

/// The clients of nodes that have run, and the room's version then.
#[derive(Drop)]
pub struct Ran {
    pub clients: Vec<Client>,
    pub version: u64,
}

/// What nodes have made of their work, or the error that they end with.
pub type Ended = Result<Ran, SubmitError>;

fn request_of(edit: Edit) -> EditRequest {
    match edit {
        Edit::Page => EditRequest::create(Kind::Page, ObjId::ROOT, None),
        Edit::Refused => EditRequest::delete(ObjId {
            client: 9,
            counter: 9,
        }),
    }
}

// The requests of one node's edits.
fn list_of(alloc: Global, edits: &[Edit]) -> Result<Vec<EditRequest>, AllocError> {
    let mut list = Vec::new(alloc);
    for edit in edits {
        list.push(request_of(*edit))?;
    }
    Ok(list)
}

// The requests of each node.
fn lists_of(alloc: Global, work: Work) -> Result<Vec<Vec<EditRequest>>, AllocError> {
    let mut lists = Vec::new(alloc);
    for edits in work.lists {
        let list = list_of(alloc, edits)?;
        lists.push(list)?;
    }
    Ok(lists)
}

// Checks whether a client joins at the last of these seats, and a checkpoint passes its entry.
fn makes_floor<K: Keeper + Drop, N: RoomName, Q: Wait + Drop, W: Wait>(
    rt: &W,
    seats: &mut [SeatOf<K, N, Q>],
) -> Result<bool, SubmitError> {
    let Some(seat) = seats.last_mut() else {
        return Ok(false);
    };
    seat.submit(rt, Request::Join)?;
    seat.tidy(rt, 0)
}

// What nodes that make these lists of edits come to at these seats of a room.
fn ended_by<
    K: Keeper + Drop + Send,
    N: RoomName + Send + Sync,
    Q: Wait + Drop + Send,
    R: Threads + Wait + AllocGlobal + Clone + Sync + Drop,
    G: Gate + Sync,
>(
    rt: &R,
    room: &Room<K, N, Q>,
    seats: Vec<SeatOf<K, N, Q>>,
    lists: Vec<Vec<EditRequest>>,
    gate: &G,
) -> Result<Ended, Fail> {
    if seats.len() < lists.len() {
        return Err(Fail::from("too few seats"));
    }
    match run_nodes(rt, room, seats, lists, gate) {
        Ok(clients) => Ok(Ok(Ran {
            clients,
            version: room.desk(rt).version(),
        })),
        Err(error) => Ok(Err(error)),
    }
}

// What nodes with this work come to at these seats of a room.
fn ended_at<
    K: Keeper + Drop + Send,
    N: RoomName + Send + Sync,
    Q: Wait + Drop + Send,
    R: Threads + Wait + AllocGlobal + Clone + Sync + Drop,
    G: Gate + Sync,
>(
    rt: &R,
    room: &Room<K, N, Q>,
    mut seats: Vec<SeatOf<K, N, Q>>,
    work: Work,
    gate: &G,
) -> Result<Ended, Fail> {
    if work.has_floor && !makes_floor(rt, &mut seats)? {
        return Err(Fail::from("no checkpoint"));
    }
    let lists = lists_of(rt.alloc(), work)?;
    ended_by(rt, room, seats, lists, gate)
}

// The same for the seats of a room that is opened for this.
fn ended_in<
    N: RoomName + Send + Sync,
    K: Keeper + Drop + Send,
    R: Threads + Wait + AllocGlobal + Copy + Send + Sync + Drop,
    G: Gate + Sync,
>(rt: R, blank: BlankRoom<K>, work: Work, gate: &G) -> Result<Ended, Fail>
    requires book { blank.book ≡ N.book }
    requires opening { blank.opening ≡ N.opening }
{
    let (room, seats) = blank.open::<N, R>(rt)?;
    ended_at(&rt, &room, seats, work, gate)
}

/// What nodes with this work come to at the room of a bench.
pub fn ended<R: Threads + Wait + AllocGlobal + Copy + Send + Sync + Drop, G: Gate + Sync>(
    rt: R,
    bench: Bench,
    work: Work,
    gate: &G,
) -> Result<Ended, Fail> {
    let blank = room_in_memory(rt.alloc(), bench)?;
    ended_in::<Brand, _, _, _>(rt, blank, work, gate)
}
