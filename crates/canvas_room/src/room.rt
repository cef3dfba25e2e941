// A room: the lock round its desk, and its seats.
ghost use Rattle.std.specs.Prelude.{◌≡◌, ◌≤◌, ◌<◌, ◌⊎◌, [], IfErr, IfOk, IsTrue, false, replicate};
ghost use Rattle.canvas_model.specs.Log.{last_version};
ghost use Rattle.canvas_desk.specs.Ready.{IsKeeperAt};

use crate::mailbox::Mailbox;
use crate::seat_slot::SeatSlot;
use crate::{RoomError, Seat};
use canvas_board::{
    Blank, Board, Mark, Opening, Published, Reader, RoomName, RoomServer, Step, open_board,
};
use canvas_desk::Desk;
use canvas_journal::Keeper;
use crossbeam_utils::rule::Protocol;
use left_right::Absorb;
use std::alloc::{AllocError, Global};
use std::collections::LinkedList;
use std::marker::Model;
use std::sync::{Arc, Mutex, MutexGuard, Wait};

/// The lock round a desk.
pub type Lock<K, N, R> = Mutex<Desk<K, N, R>>;

/// A room: the lock round its desk.
pub struct Room<K: Keeper + Drop, N: RoomName, R: Wait + Drop>
where
    Board<N>: Absorb<Step<N>, State = [Mark; 0]>,
    Published: Protocol<Board<N>, LinkedList<Mark>>,
{
    shared: Arc<Mutex<Desk<K, N, R>>, Global>,
}

impl<K: Keeper + Drop, N: RoomName, R: Wait + Drop> Drop for Room<K, N, R>
where
    Board<N>: Absorb<Step<N>, State = [Mark; 0]>,
    Published: Protocol<Board<N>, LinkedList<Mark>>,
{
    fn drop(self) {
        let Room { shared: _ } = self;
    }
}

impl<K: Keeper + Drop, N: RoomName, R: Wait + Drop> Room<K, N, R> {
    /// The room's desk, once nobody else has it.
    pub fn desk<'a, W: Wait>(&'a self, rt: &W) -> MutexGuard<'a, Desk<K, N, R>> {
        self.shared.lock(rt)
    }
}

/// A room that has no name yet. Contracts see its keeper, what it opens with, its book, and for how many seats it is.
#[derive(Drop)]
pub struct BlankRoom<K: Keeper> {
    alloc: Global,
    keeper: K,
    opening: Opening,
    blank: Blank,
    seats: usize,
}

impl<K: Keeper> Model for BlankRoom<K> {
    ghost use Rattle.std.specs.Prelude.{◌≡◌, ◌<◌, ◌≤◌, IsTrue, false};
    ghost use Rattle.std.specs.Coded.{codes};
    ghost use Rattle.canvas_model.specs.Codes.{state_code, value_code};
    ghost use Rattle.canvas_model.specs.Log.{last_version};
    ghost use Rattle.canvas_desk.specs.Ready.{IsKeeperAt};
    ghost use Rattle.canvas_room.specs.Rooms.{BlankRoomValue};

    ghost Value = { BlankRoomValue K };

    ghost coded = { Prim.hlevel (codes, value_code, state_code) };

    ghost view = { λ b. record { keeper = b.keeper; opening = b.opening; book = b.blank.seen.book; seats = b.seats } };

    ghost invariant = { λ b. (0 < b.seats) × (b.seats ≤ 64) × (b.opening.version ≤ last_version) × (K.failed b.keeper ≡ false) × (IsTrue (K.honest b.keeper) → IsKeeperAt K.keeps K.finds K.left_since K.moment b.keeper (b.opening.state, b.opening.version)) };
}

/// A room of so many seats over a keeper that stands at what the room opens with. SeatCount where they aren't 1 to 64, and then the
/// keeper comes back.
pub fn blank_room<K: Keeper>(
    alloc: Global,
    keeper: K,
    opening: Opening,
    seats: usize,
) -> Result<BlankRoom<K>, (K, RoomError)>
    requires few { opening.version ≤ last_version }
    requires alive { K.failed keeper ≡ false }
    requires kept { IsTrue (K.honest keeper) → IsKeeperAt K.keeps K.finds K.left_since K.moment keeper (opening.state, opening.version) }
    ensures blank { IfOk result (λ b. (b.keeper ≡ keeper) × (b.opening ≡ opening) × (b.seats ≡ seats)) }
    ensures back { IfErr result (λ e. (e.0 ≡ keeper) × (e.1 ≡ RoomError.SeatCount) × ((seats ≡ 0) ⊎ (64 < seats))) }
{
    if seats == 0 || seats > 64 {
        return Err((keeper, RoomError::SeatCount));
    }
    Ok(BlankRoom {
        alloc,
        keeper,
        opening,
        blank: Blank::new(),
        seats,
    })
}

// A room with its seats.
type Opened<K, N, R> = (Room<K, N, R>, Vec<Seat<N, Lock<K, N, R>>>);

impl<K: Keeper + Drop> BlankRoom<K> {
    /// The room under a name, with its seats, which have seen nothing. `Memory` if memory runs out.
    pub fn open<N: RoomName, R: Wait + Drop>(self, rt: R) -> Result<Opened<K, N, R>, RoomError>
        requires book { self.book ≡ N.book }
        requires opening { self.opening ≡ N.opening }
        ensures seats { IfOk result (λ opened. opened.1.items ≡ replicate self.seats []) }
    {
        Ok(opened(self, rt)?)
    }
}

// The room with its seats.
fn opened<K: Keeper + Drop, N: RoomName, R: Wait + Drop>(
    room: BlankRoom<K>,
    rt: R,
) -> Result<Opened<K, N, R>, AllocError>
    requires book { room.book ≡ N.book }
    requires opening { room.opening ≡ N.opening }
    ensures seats { IfOk result (λ opened. opened.1.items ≡ replicate room.seats []) }
{
    let BlankRoom {
        alloc,
        keeper,
        opening,
        blank,
        seats,
    } = room;
    let (publisher, readers) = open_board::<N, R>(alloc, blank, &opening, seats, &rt)?;
    let Opening { state, version } = opening;
    let server = RoomServer::rebuild(alloc, state, version);
    let desk = Desk::new(alloc, server, keeper, publisher, rt);
    let shared = Arc::new(alloc, Mutex::new(desk))?;
    let mailbox = Arc::new(alloc, Mailbox::new(alloc, seats)?)?;
    let seats = seats_of(alloc, &shared, &mailbox, readers)?;
    Ok((Room { shared }, seats))
}

// A seat for each reader.
fn seats_of<N: RoomName, D: Drop>(
    alloc: Global,
    shared: &Arc<D, Global>,
    mailbox: &Arc<Mailbox<N>, Global>,
    readers: Vec<Reader<N>>,
) -> Result<Vec<Seat<N, D>>, AllocError>
    ensures { IfOk result (λ seats. seats.items ≡ readers.items) }
{
    let mut seats = Vec::with_capacity(alloc, readers.len())?;
    for reader in readers {
        let slot = SeatSlot::new(alloc, Arc::try_clone(mailbox)?, seats.len());
        let seat = Seat::new(alloc, Arc::try_clone(shared)?, slot, reader);
        seats.push(seat)?;
    }
    Ok(seats)
}
