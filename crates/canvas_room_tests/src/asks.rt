//! What seats are asked one after the other, and what they have to answer.
use crate::seats::{join_by, reads, refuses};
use canvas_board::RoomName;
use canvas_desk::{SubmitError, TailLimit};
use canvas_journal::Keeper;
use canvas_room::{Pace, Room};
use std::alloc::Global;
use std::sync::Wait;
use std::test::Fail;
use test_rooms::{RoomTest, SeatOf};

/// What a seat is asked, and what it has to answer.
#[derive(Clone, Copy)]
pub enum Ask {
    /// A Join: the id that it gets, or why it gets none.
    Join(Result<Option<u32>, SubmitError>),
    /// A client's edit of that number: why it is refused, if it is.
    Edit(u32, u64, Option<SubmitError>),
    /// The entries after a version: author and number of each. None where they were passed.
    Read(u64, Option<&'static [(u32, u64)]>),
    /// Whether a client has joined.
    Joined(u32, bool),
    /// A checkpoint where so many entries stand after the floor: whether it is made, or why it fails.
    Tidy(u64, Result<bool, SubmitError>),
    /// A checkpoint that keeps entries: so many, of so many bytes.
    Keep(u64, u64),
}

/// What is asked in turn, each of the seat of that place.
pub type Asks = &'static [(usize, Ask)];

// A checkpoint now, which keeps entries.
#[derive(Drop)]
struct Keeping(TailLimit);

impl Pace for Keeping {
    fn is_due(&self, _kept: u64) -> bool {
        true
    }

    fn tail(&self) -> TailLimit {
        self.0
    }
}

// Checks whether a seat answers so.
fn is_answered<K: Keeper + Drop, N: RoomName, Q: Wait + Drop, W: Wait>(
    rt: &W,
    alloc: Global,
    seat: &mut SeatOf<K, N, Q>,
    ask: Ask,
) -> Result<bool, Fail> {
    Ok(match ask {
        Ask::Join(wanted) => join_by(rt, seat) == wanted,
        Ask::Edit(client, seq, wanted) => refuses(rt, alloc, seat, client, seq, wanted)?,
        Ask::Read(from, wanted) => reads(alloc, seat, from, wanted),
        Ask::Joined(client, wanted) => seat.joined(client) == Ok(wanted),
        Ask::Tidy(at_least, wanted) => seat.tidy(rt, at_least) == wanted,
        Ask::Keep(entries, bytes) => {
            seat.tidy_at(rt, &Keeping(TailLimit { entries, bytes })) == Ok(true)
        }
    })
}

/// Checks whether the seats of a room answer so.
pub fn are_answered<K: Keeper + Drop, N: RoomName, Q: Wait + Drop, W: Wait>(
    rt: &W,
    alloc: Global,
    seats: &mut [SeatOf<K, N, Q>],
    asks: Asks,
) -> Result<bool, Fail> {
    for (place, ask) in asks {
        let is_right = match seats.get_mut(*place) {
            Some(seat) => is_answered(rt, alloc, seat, *ask)?,
            None => false,
        };
        if !is_right {
            return Ok(false);
        }
    }
    Ok(true)
}

/// Tells whether the seats of a room answer so.
#[derive(Clone, Copy)]
pub struct Asking(pub Asks);

impl<K: Keeper + Drop> RoomTest<K> for Asking {
    type Told = bool;

    fn ask<N: RoomName, Q: Wait + Drop, W: Wait>(
        &self,
        rt: &W,
        alloc: Global,
        _room: &Room<K, N, Q>,
        seats: &mut [SeatOf<K, N, Q>],
    ) -> Result<bool, Fail> {
        are_answered(rt, alloc, seats, self.0)
    }
}
