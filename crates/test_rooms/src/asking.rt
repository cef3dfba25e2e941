// What is asked of a room that is lent with its seats.
ghost use Rattle.std.specs.Prelude.{◌≡◌};

use crate::blanks::{Bench, room_in_memory};
use canvas_board::RoomName;
use canvas_journal::{Journal, Keeper};
use canvas_room::{BlankRoom, Lock, Room, Seat};
use canvas_shelf::MemShelf;
use std::alloc::Global;
use std::marker::Brand;
use std::sync::Wait;
use std::test::Fail;

/// A seat of a room.
pub type SeatOf<K, N, Q> = Seat<N, Lock<K, N, Q>>;

/// What is asked of a room over such a keeper.
pub trait RoomTest<K: Keeper + Drop> {
    /// What it tells.
    type Told;

    /// Asks a room with these seats.
    fn ask<N: RoomName, Q: Wait + Drop, W: Wait>(
        &self,
        rt: &W,
        alloc: Global,
        room: &Room<K, N, Q>,
        seats: &mut [SeatOf<K, N, Q>],
    ) -> Result<Self::Told, Fail>;
}

// What a test tells of this room, once it has its name.
fn told_under<N: RoomName, K: Keeper + Drop, R: Wait + Copy + Drop, T: RoomTest<K>>(
    rt: R,
    alloc: Global,
    blank: BlankRoom<K>,
    test: &T,
) -> Result<T::Told, Fail>
    requires book { blank.book ≡ N.book }
    requires opening { blank.opening ≡ N.opening }
{
    let (room, mut seats) = blank.open::<N, R>(rt)?;
    test.ask(&rt, alloc, &room, &mut seats)
}

/// What a test tells of this room.
pub fn told_by<K: Keeper + Drop, R: Wait + Copy + Drop, T: RoomTest<K>>(
    rt: R,
    alloc: Global,
    blank: BlankRoom<K>,
    test: &T,
) -> Result<T::Told, Fail> {
    told_under::<Brand, K, R, T>(rt, alloc, blank, test)
}

/// What a test tells of the room of a bench.
pub fn told_in_memory<R: Wait + Copy + Drop, T: RoomTest<Journal<MemShelf>>>(
    rt: R,
    alloc: Global,
    bench: Bench,
    test: &T,
) -> Result<T::Told, Fail> {
    let blank = room_in_memory(alloc, bench)?;
    told_by(rt, alloc, blank, test)
}
