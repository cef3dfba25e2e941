//! Seats on several threads.
ghost use Rattle.std.specs.Prelude.{◌≡◌};

use crate::records::Recorded;
use crate::seats::{join_by, joins_ahead, joins_and_reads, reads_first};
use canvas_board::RoomName;
use canvas_journal::Keeper;
use canvas_room::{BlankRoom, Lock, Room, Seat};
use std::alloc::Global;
use std::marker::Brand;
use std::sync::Wait;
use std::sync::atomic::{AtomicBool, AtomicUsize, Ordering};
use std::test::Fail;
use std::thread::{Threads, join, map_vec, yield_now};
use test_rooms::{Bench, SeatOf, room_in_memory};

// How often a thread that waits yields at most, and how often one that lets the others come to the lock does.
const MOST_TURNS: u32 = 1_000_000;

const LATE_TURNS: u32 = 10_000;

// What each seat does on a thread of its own.
#[derive(Clone, Copy)]
enum Deed {
    // It joins, and reads its own entry.
    Join,
    // It has this number of Joins judged ahead, and submits them.
    JoinAhead(u32),
    // It reads the one Join of its room, in each way.
    Read,
}

// Seats that do something at once.
#[derive(Clone, Copy)]
struct Meeting {
    // How many there are.
    seats: usize,
    deed: Deed,
    // Whether one more thread holds the room's lock until all seats have read, or are about to join, and a while longer.
    is_held: bool,
}

// What comes of it.
#[derive(Clone, Copy, PartialEq, Eq)]
struct Met {
    // Whether the seats tell the first ids, each once.
    are_first: bool,
    // The room's version while the lock was held, where it was held until all had come.
    held_at: Option<u64>,
    // The room's version in the end.
    version: u64,
    // Whether the shelf was synced less often than there are seats, where that is asked: they met at the lock.
    is_shared: bool,
}

// What threads tell each other.
#[derive(Drop)]
struct Flags {
    // The lock is held, if it is to be.
    held: AtomicBool,
    // How many seats have read, or are about to join.
    come: AtomicUsize,
}

// Waits until the lock is held.
fn await_lock(flags: &Flags) {
    for _ in 0..MOST_TURNS {
        if flags.held.load(Ordering::SeqCst) {
            return;
        }
        yield_now();
    }
}

// Checks whether so many seats come within a million turns that yield.
fn have_come(flags: &Flags, seats: usize) -> bool {
    for _ in 0..MOST_TURNS {
        if flags.come.load(Ordering::SeqCst) == seats {
            return true;
        }
        yield_now();
    }
    false
}

// Lets others go on.
fn stay() {
    for _ in 0..LATE_TURNS {
        yield_now();
    }
}

// Holds the lock of a room until so many seats have come, and a while longer: the room's version then, if they have.
fn holds<K: Keeper + Drop, N: RoomName, Q: Wait + Drop, W: Wait>(
    rt: &W,
    room: &Room<K, N, Q>,
    flags: &Flags,
    seats: usize,
) -> Option<u64> {
    let desk = room.desk(rt);
    flags.held.store(true, Ordering::SeqCst);
    let have_come = have_come(flags, seats);
    stay();
    if have_come {
        Some(desk.version())
    } else {
        None
    }
}

// A seat that does something on a thread. What is sent to threads is generic in it, since the type of a seat is large.
trait Site: Drop {
    // Does so, once the lock is held: the id that it gets or reads, or which of the runs of ids it gets.
    fn does<W: Wait>(&mut self, rt: &W, alloc: Global, deed: Deed, flags: &Flags) -> Option<u32>;
}

// Returns which run of ids begins with this id, counted from 1, if each has this length.
fn run_of(first: u32, count: u32) -> Option<u32> {
    let before = first.checked_sub(1)?;
    if before.checked_rem(count)? == 0 {
        before.checked_div(count)?.checked_add(1)
    } else {
        None
    }
}

impl<K: Keeper + Drop, N: RoomName, Q: Wait + Drop> Site for Seat<N, Lock<K, N, Q>> {
    fn does<W: Wait>(&mut self, rt: &W, alloc: Global, deed: Deed, flags: &Flags) -> Option<u32> {
        await_lock(flags);
        match deed {
            Deed::Join => {
                flags.come.fetch_add(1, Ordering::SeqCst);
                joins_and_reads(rt, alloc, self)
            }
            Deed::JoinAhead(count) => {
                flags.come.fetch_add(1, Ordering::SeqCst);
                run_of(joins_ahead(rt, alloc, self, count)?, count)
            }
            Deed::Read => {
                let id = reads_first(alloc, self);
                flags.come.fetch_add(1, Ordering::SeqCst);
                id
            }
        }
    }
}

// Checks whether these are as many ids as there are, from 1 on, each once.
fn are_first(ids: &[Option<u32>]) -> bool {
    for (id, _) in (1u32..).zip(ids) {
        if !ids.contains(&Some(id)) {
            return false;
        }
    }
    true
}

// Does so by each of these seats, on a thread of its own: whether they tell the first ids.
fn all_do<S: Site + Drop + Send, R: Threads + Wait + Sync>(
    rt: &R,
    alloc: Global,
    seats: Vec<S>,
    deed: Deed,
    flags: &Flags,
) -> bool {
    match map_vec(rt, seats, &|mut seat| seat.does(rt, alloc, deed, flags)) {
        Ok(ids) => are_first(&ids),
        Err(_) => false,
    }
}

// The same while this thread does something else, and what that gives.
fn all_do_beside<S: Site + Drop + Send, B, H: FnOnce() -> B, R: Threads + Wait + Sync>(
    rt: &R,
    alloc: Global,
    seats: Vec<S>,
    deed: Deed,
    flags: &Flags,
    here: H,
) -> (bool, B)
    requires { H.pre here }
{
    join(rt, move || all_do(rt, alloc, seats, deed, flags), here)
}

// Checks whether these seats meet so and tell the first ids, and the version at which the lock was held.
fn meet<
    K: Keeper + Drop + Send,
    N: RoomName + Send + Sync,
    Q: Wait + Drop + Send,
    R: Threads + Wait + Sync,
>(
    rt: &R,
    alloc: Global,
    room: &Room<K, N, Q>,
    seats: Vec<SeatOf<K, N, Q>>,
    meeting: Meeting,
) -> (bool, Option<u64>) {
    let flags = Flags {
        held: AtomicBool::new(!meeting.is_held),
        come: AtomicUsize::new(0),
    };
    all_do_beside(
        rt,
        alloc,
        seats,
        meeting.deed,
        &flags,
        || if meeting.is_held {
            holds(rt, room, &flags, meeting.seats)
        } else {
            None
        },
    )
}

// Checks whether a meeting may begin: where seats are to read, the first of them joins.
fn begins<K: Keeper + Drop, N: RoomName, Q: Wait + Drop, W: Wait>(
    rt: &W,
    seats: &mut [SeatOf<K, N, Q>],
    deed: Deed,
) -> bool {
    match (deed, seats.first_mut()) {
        (Deed::Join | Deed::JoinAhead(_), _) => true,
        (Deed::Read, Some(seat)) => join_by(rt, seat) == Ok(Some(1)),
        (Deed::Read, None) => false,
    }
}

// How often the shelf of a room's keeper was synced.
fn sync_count<K: Keeper + Recorded + Drop, N: RoomName, Q: Wait + Drop, W: Wait>(
    rt: &W,
    room: &Room<K, N, Q>,
) -> usize {
    room.desk(rt).keeper().sync_count()
}

// What comes of a meeting of these seats.
fn met_by<
    K: Keeper + Recorded + Drop + Send,
    N: RoomName + Send + Sync,
    Q: Wait + Drop + Send,
    R: Threads + Wait + Sync,
>(
    rt: &R,
    alloc: Global,
    room: &Room<K, N, Q>,
    mut seats: Vec<SeatOf<K, N, Q>>,
    meeting: Meeting,
) -> Met {
    let has_begun = begins(rt, &mut seats, meeting.deed);
    let before = sync_count(rt, room);
    let (are_first, held_at) = meet(rt, alloc, room, seats, meeting);
    let is_shared = sync_count(rt, room) < before.saturating_add(meeting.seats);
    Met {
        are_first: has_begun && are_first,
        held_at,
        version: room.desk(rt).version(),
        is_shared: meeting.is_held && is_shared,
    }
}

// The same for the seats of a room that is opened for this.
fn met_in<
    N: RoomName + Send + Sync,
    K: Keeper + Recorded + Drop + Send,
    R: Threads + Wait + Copy + Send + Sync + Drop,
>(rt: R, alloc: Global, blank: BlankRoom<K>, meeting: Meeting) -> Result<Met, Fail>
    requires book { blank.book ≡ N.book }
    requires opening { blank.opening ≡ N.opening }
{
    let (room, seats) = blank.open::<N, R>(rt)?;
    Ok(met_by(&rt, alloc, &room, seats, meeting))
}

// The same for a room in memory.
fn met_in_memory<R: Threads + Wait + Copy + Send + Sync + Drop>(
    rt: R,
    alloc: Global,
    meeting: Meeting,
) -> Result<Met, Fail> {
    let blank = room_in_memory(alloc, Bench::of(meeting.seats))?;
    met_in::<Brand, _, _>(rt, alloc, blank, meeting)
}

// What is tried, how seats meet, and what has to come of it.
const MEETINGS: &[(&str, Meeting, Met)] = &[
    (
        "two seats",
        Meeting {
            seats: 2,
            deed: Deed::Join,
            is_held: false,
        },
        Met {
            are_first: true,
            held_at: None,
            version: 2,
            is_shared: false,
        },
    ),
    (
        "eight at once",
        Meeting {
            seats: 8,
            deed: Deed::Join,
            is_held: false,
        },
        Met {
            are_first: true,
            held_at: None,
            version: 8,
            is_shared: false,
        },
    ),
    (
        "eight share syncs",
        Meeting {
            seats: 8,
            deed: Deed::Join,
            is_held: true,
        },
        Met {
            are_first: true,
            held_at: Some(0),
            version: 8,
            is_shared: true,
        },
    ),
    (
        "eight that judge ahead share syncs",
        Meeting {
            seats: 8,
            deed: Deed::JoinAhead(2),
            is_held: true,
        },
        Met {
            are_first: true,
            held_at: Some(0),
            version: 16,
            is_shared: true,
        },
    ),
    (
        "more than a batch",
        Meeting {
            seats: 20,
            deed: Deed::JoinAhead(64),
            is_held: true,
        },
        Met {
            are_first: true,
            held_at: Some(0),
            version: 1280,
            is_shared: true,
        },
    ),
    (
        "a read waits for nobody",
        Meeting {
            seats: 1,
            deed: Deed::Read,
            is_held: true,
        },
        Met {
            are_first: true,
            held_at: Some(1),
            version: 1,
            is_shared: true,
        },
    ),
];

#[test]
fn at_once(rt: HostRuntime) -> Result<(), Fail> {
    for (tried, meeting, wanted) in MEETINGS {
        if met_in_memory(rt, rt.alloc(), *meeting)? != *wanted {
            return Err(Fail::from(*tried));
        }
    }
    Ok(())
}
