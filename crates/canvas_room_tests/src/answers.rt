//! What rooms answer, on one thread.
ghost use Rattle.std.specs.Prelude.{◌≡◌, [], IsTrue};

use crate::asks::{Ask, Asking, Asks, are_answered};
use crate::folders::{remove, shelf_in, version_in};
use crate::records::Recorded;
use canvas_board::RoomName;
use canvas_desk::{Refusal, SubmitError};
use canvas_journal::{KeepError, Keeper};
use canvas_room::{Room, RoomError};
use canvas_shelf::{MemShelf, Shelf};
use std::alloc::Global;
use std::fs::File;
use std::rt::Files;
use std::sync::Wait;
use std::test::Fail;
use test_rooms::{Bench, RoomTest, SeatOf, room_on, told_by, told_in_memory};

// Why there is no room of so many seats, if there is none.
fn refusal_of(alloc: Global, seats: usize) -> Result<Option<RoomError>, Fail> {
    Ok(room_on(alloc, MemShelf::new(alloc), seats)?.err())
}

#[test]
fn seat_counts(rt: HostRuntime) -> Result<(), Fail> {
    let rows = [
        (0, Some(RoomError::SeatCount)),
        (65, Some(RoomError::SeatCount)),
        (1, None),
        (64, None),
    ];
    for (seats, wanted) in rows {
        assert_eq!(rt; refusal_of(rt.alloc(), seats)?, wanted, "at {seats}");
    }
    Ok(())
}

// What a room's desk shows.
#[derive(Clone, Copy, PartialEq, Eq)]
enum Shown {
    // It runs over the segment that it was opened with.
    Running,
    // It runs, and a checkpoint was written: the shelf was asked to make segment 2.
    Tidied,
    // Its keeper has failed, and no checkpoint was written.
    Failed,
    // Its keeper has failed behind a checkpoint.
    FailedLater,
}

// What the desk of a room shows.
fn shown_by<K: Keeper + Recorded + Drop, N: RoomName, Q: Wait + Drop, W: Wait>(
    rt: &W,
    room: &Room<K, N, Q>,
) -> Shown {
    let desk = room.desk(rt);
    match (desk.has_failed(), desk.keeper().has_made_second()) {
        (false, false) => Shown::Running,
        (false, true) => Shown::Tidied,
        (true, false) => Shown::Failed,
        (true, true) => Shown::FailedLater,
    }
}

// Tells whether a room answers each of these in turn, and what its desk shows then.
#[derive(Clone, Copy)]
struct Scenes(&'static [(Asks, Shown)]);

impl<K: Keeper + Recorded + Drop> RoomTest<K> for Scenes {
    type Told = bool;

    fn ask<N: RoomName, Q: Wait + Drop, W: Wait>(
        &self,
        rt: &W,
        alloc: Global,
        room: &Room<K, N, Q>,
        seats: &mut [SeatOf<K, N, Q>],
    ) -> Result<bool, Fail> {
        for (asks, wanted) in self.0 {
            if !are_answered(rt, alloc, seats, *asks)? || shown_by(rt, room) != *wanted {
                return Ok(false);
            }
        }
        Ok(true)
    }
}

// An edit by the first of two seats is read by the second, which was told nothing.
const READ_BY_OTHER: Asks = &[
    (1, Ask::Read(0, Some(&[]))),
    (0, Ask::Join(Ok(Some(1)))),
    (0, Ask::Edit(1, 1, None)),
    (1, Ask::Read(0, Some(&[(0, 0), (1, 1)]))),
    (1, Ask::Joined(1, true)),
    (1, Ask::Joined(2, false)),
];

// A stranger's edit is refused, and one behind a gap, and one that was made before.
const REFUSALS: Asks = &[
    (0, Ask::Join(Ok(Some(1)))),
    (
        0,
        Ask::Edit(2, 1, Some(SubmitError::Refused(Refusal::Stranger))),
    ),
    (
        0,
        Ask::Edit(1, 2, Some(SubmitError::Refused(Refusal::Gap { done: 0 }))),
    ),
    (0, Ask::Edit(1, 1, None)),
    (
        0,
        Ask::Edit(
            1,
            1,
            Some(SubmitError::Refused(Refusal::Repeat { done: 1 })),
        ),
    ),
    (0, Ask::Edit(1, 2, None)),
];

// No checkpoint is made where fewer than two entries stand after the floor.
const TOO_EARLY: Asks = &[(0, Ask::Join(Ok(Some(1)))), (0, Ask::Tidy(2, Ok(false)))];

// Nothing was passed then, and a checkpoint is made where one entry is enough.
const IN_TIME: Asks = &[
    (0, Ask::Read(0, Some(&[(0, 0)]))),
    (0, Ask::Tidy(1, Ok(true))),
];

// Nothing is read from below the floor 1, and nothing is after it.
const BEHIND_FLOOR: Asks = &[
    (0, Ask::Read(0, None)),
    (0, Ask::Read(1, Some(&[]))),
    (0, Ask::Tidy(1, Ok(false))),
];

// A checkpoint keeps as many entries as it may, by their number and by the bytes of their texts, and a later one no more than are there.
const KEEPING: Asks = &[
    (0, Ask::Join(Ok(Some(1)))),
    (0, Ask::Edit(1, 1, None)),
    (0, Ask::Edit(1, 2, None)),
    (0, Ask::Keep(9, 1000)),
    (0, Ask::Read(0, Some(&[(0, 0), (1, 1), (1, 2)]))),
    (0, Ask::Keep(2, 1000)),
    (0, Ask::Read(0, None)),
    (0, Ask::Read(1, Some(&[(1, 1), (1, 2)]))),
    (0, Ask::Keep(9, 1000)),
    (0, Ask::Read(0, None)),
    (0, Ask::Read(1, Some(&[(1, 1), (1, 2)]))),
    (0, Ask::Keep(9, 100)),
    (0, Ask::Read(1, None)),
    (0, Ask::Read(2, Some(&[(1, 2)]))),
    (0, Ask::Edit(1, 3, None)),
    (0, Ask::Read(2, Some(&[(1, 2), (1, 3)]))),
    (0, Ask::Keep(9, 0)),
    (0, Ask::Read(3, None)),
    (0, Ask::Read(4, Some(&[]))),
];

// A keeper that fails in its second commit is asked no more, and both seats read what was published.
const FAILING: Asks = &[
    (0, Ask::Join(Ok(Some(1)))),
    (0, Ask::Join(Err(SubmitError::NotKept(KeepError::Device)))),
    (0, Ask::Join(Err(SubmitError::NotKept(KeepError::Failed)))),
    (
        0,
        Ask::Tidy(0, Err(SubmitError::NotKept(KeepError::Failed))),
    ),
    (0, Ask::Read(0, Some(&[(0, 0)]))),
    (0, Ask::Joined(1, true)),
    (0, Ask::Joined(2, false)),
    (1, Ask::Read(0, Some(&[(0, 0)]))),
    (1, Ask::Joined(1, true)),
    (1, Ask::Joined(2, false)),
];

// What is tried, how many seats there are, which call of the shelf fails, and what is asked.
const ROWS: &[(&str, usize, u64, Scenes)] = &[
    ("tells", 2, 0, Scenes(&[(READ_BY_OTHER, Shown::Running)])),
    ("refuses", 1, 0, Scenes(&[(REFUSALS, Shown::Running)])),
    (
        "tidies",
        1,
        0,
        Scenes(&[
            (TOO_EARLY, Shown::Running),
            (IN_TIME, Shown::Tidied),
            (BEHIND_FLOOR, Shown::Tidied),
        ]),
    ),
    ("keeps entries", 1, 0, Scenes(&[(KEEPING, Shown::Tidied)])),
    (
        "fails once, by an append",
        2,
        7,
        Scenes(&[(FAILING, Shown::Failed)]),
    ),
    (
        "fails once, by a sync",
        2,
        8,
        Scenes(&[(FAILING, Shown::Failed)]),
    ),
];

#[test]
fn in_memory(rt: HostRuntime) -> Result<(), Fail> {
    for (tried, seats, failing, scenes) in ROWS {
        let bench = Bench {
            seats: *seats,
            failing: *failing,
        };
        if !told_in_memory(rt, rt.alloc(), bench, scenes)? {
            return Err(Fail::from(*tried));
        }
    }
    Ok(())
}

// Where this test keeps its room.
const FOLDER: &str = "out/room-of-two";

// Checks whether a room of two over a new journal on this shelf shows one what the other does.
fn tells_on<S: Shelf + Drop, W: Wait + Copy + Drop>(
    rt: W,
    alloc: Global,
    shelf: S,
) -> Result<bool, Fail>
    requires { IsTrue (S.honest shelf) → S.disk shelf ≡ [] }
{
    match room_on(alloc, shelf, 2)? {
        Ok(blank) => told_by(rt, alloc, blank, &Asking(READ_BY_OTHER)),
        Err(_) => Err(Fail::from("no room")),
    }
}

fn tells_in_folder<R: Wait + Files<File = File> + AllocGlobal + Clone + Copy + Drop>(
    rt: R,
) -> Result<bool, Fail> {
    let shelf = shelf_in(&rt, FOLDER)?;
    tells_on(rt, rt.alloc(), shelf)
}

#[test]
fn tells_and_keeps(rt: HostRuntime) -> Result<(), Fail> {
    remove(&rt, FOLDER);
    assert!(rt; tells_in_folder(rt)?);
    assert_eq!(rt; version_in(&rt, FOLDER)?, 2);
    remove(&rt, FOLDER);
    Ok(())
}
