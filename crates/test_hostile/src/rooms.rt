// Rooms over a journal in memory, and what a connection to the seat of one is sent.
ghost use Rattle.std.specs.Prelude.{◌≡◌};

use crate::sharing::Sharing;
use canvas_board::{Opening, RoomName};
use canvas_journal::{Journal, Keeper, open};
use canvas_nodes::Answerer;
use canvas_room::{BlankRoom, Lock, Room, Seat, blank_room};
use canvas_shelf::{Call, MemShelf};
use canvas_sockets::serve_one;
use memory_sockets::{heard, socket};
use room_handler::SeatAnswerer;
use std::alloc::{AllocError, Global};
use std::marker::Brand;
use std::sync::Wait;
use test_cases::Text;
use tungstenite::Role;

// What keeps the entries of such a room.
type MemJournal = Journal<MemShelf>;

// A keeper that tells which segments were made on its shelf. What asks it is generic in it, since the type of a room over a journal is large.
trait Making {
    // Adds the numbers of the segments that were made so far.
    fn write_made(&self, text: &mut Text);
}

impl Making for MemJournal {
    fn write_made(&self, text: &mut Text) {
        for call in self.shelf().calls() {
            if let Call::Create(number) = call {
                write!(text, " {number}");
            }
        }
    }
}

/// What a client sends to the seat of a new room.
#[derive(Clone, Copy)]
pub struct Talk<'a> {
    /// All calls of the room's shelf after so many fail.
    pub calls: u64,
    /// The bytes of its messages.
    pub sent: &'a [u8],
    /// Whether the seat answers by a copy that it holds, where one is due.
    pub is_shared: bool,
}

/// What a client was sent, one message a line, and the segments that were made on the room's shelf, each behind a blank.
pub struct Answers {
    pub texts: Vec<u8>,
    pub segments: Text,
}

impl Drop for Answers {
    fn drop(self) {
        let Answers {
            texts: _,
            segments: _,
        } = self;
    }
}

// A room of one seat over a new journal, which has no name yet. All calls of its shelf after so many fail.
fn blank(alloc: Global, calls: u64) -> Result<BlankRoom<MemJournal>, AllocError> {
    let mut shelf = MemShelf::new(alloc);
    shelf.fuse(calls);
    let Ok((journal, state, version)) = open(alloc, shelf) else {
        return Err(AllocError);
    };
    match blank_room(alloc, journal, Opening { state, version }, 1) {
        Ok(blank) => Ok(blank),
        Err(_) => Err(AllocError),
    }
}

// What a connection is sent that sends these bytes, one message a line.
fn told<A: Answerer>(alloc: Global, answerer: &mut A, bytes: &[u8]) -> Result<Vec<u8>, AllocError> {
    let mut server = socket(alloc, bytes, Role::Server);
    let _ = serve_one(alloc, answerer, &mut server);
    heard(alloc, &server.into_inner().writer)
}

// The same of a connection to this seat.
fn told_at<K: Keeper + Drop, N: RoomName, R: Wait + Copy + Drop>(
    alloc: Global,
    rt: R,
    seat: Seat<N, Lock<K, N, R>>,
    talk: Talk<'_>,
) -> Result<Vec<u8>, AllocError> {
    let terms = Sharing::new(talk.is_shared);
    let mut answerer = SeatAnswerer::new(alloc, rt, seat, terms);
    told(alloc, &mut answerer, talk.sent)
}

// The segments that were made on the shelf of a room.
fn made_in<K: Keeper + Making + Drop, N: RoomName, R: Wait + Drop, W: Wait>(
    alloc: Global,
    rt: &W,
    room: &Room<K, N, R>,
) -> Text {
    let mut segments = Text::new(alloc);
    let desk = room.desk(rt);
    desk.keeper().write_made(&mut segments);
    segments
}

// Opens the room, and holds the talk with its seat.
fn hold_in<N: RoomName, K: Keeper + Making + Drop, R: Wait + Copy + Drop>(
    alloc: Global,
    rt: R,
    blank: BlankRoom<K>,
    talk: Talk<'_>,
) -> Result<Answers, AllocError>
    requires book { blank.book ≡ N.book }
    requires opening { blank.opening ≡ N.opening }
{
    let Ok((room, mut seats)) = blank.open::<N, R>(rt) else {
        return Err(AllocError);
    };
    let Some(seat) = seats.pop() else {
        return Err(AllocError);
    };
    let texts = told_at(alloc, rt, seat, talk)?;
    let segments = made_in(alloc, &rt, &room);
    Ok(Answers { texts, segments })
}

/// Holds a talk over a WebSocket in memory.
pub fn hold<R: Wait + Copy + Drop>(
    alloc: Global,
    rt: R,
    talk: Talk<'_>,
) -> Result<Answers, AllocError> {
    hold_in::<Brand, MemJournal, R>(alloc, rt, blank(alloc, talk.calls)?, talk)
}
