// Rooms that have no name yet, over new journals in memory.
ghost use Rattle.std.specs.Prelude.{◌≡◌, [], IsTrue};

use canvas_board::Opening;
use canvas_journal::{Journal, open};
use canvas_room::{BlankRoom, RoomError, blank_room};
use canvas_shelf::{MemShelf, Shelf};
use std::alloc::Global;
use std::test::Fail;

/// A room that has no name yet, over a journal in memory.
pub type BlankMem = BlankRoom<Journal<MemShelf>>;

/// What a room in memory is made of.
#[derive(Clone, Copy)]
pub struct Bench {
    /// How many seats it has.
    pub seats: usize,
    /// Which call of its shelf fails, counted from 1; none where it is 0. Opening makes 4 calls, and a commit 2.
    pub failing: u64,
}

impl Bench {
    /// A room of so many seats, of whose shelf no call fails.
    pub fn of(seats: usize) -> Bench {
        Bench { seats, failing: 0 }
    }
}

/// A room of so many seats over a new journal on this shelf, or why there is none.
pub fn room_on<S: Shelf + Drop>(
    alloc: Global,
    shelf: S,
    seats: usize,
) -> Result<Result<BlankRoom<Journal<S>>, RoomError>, Fail>
    requires { IsTrue (S.honest shelf) → S.disk shelf ≡ [] }
{
    let Ok((journal, state, version)) = open(alloc, shelf) else {
        return Err(Fail::from("a shelf that isn't opened"));
    };
    match blank_room(alloc, journal, Opening { state, version }, seats) {
        Ok(blank) => Ok(Ok(blank)),
        Err((_, error)) => Ok(Err(error)),
    }
}

/// The room of a bench, over a new journal.
pub fn room_in_memory(alloc: Global, bench: Bench) -> Result<BlankMem, Fail> {
    let mut shelf = MemShelf::new(alloc);
    shelf.fail_one(bench.failing);
    match room_on(alloc, shelf, bench.seats)? {
        Ok(blank) => Ok(blank),
        Err(_) => Err(Fail::from("no room")),
    }
}
