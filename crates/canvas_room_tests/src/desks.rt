//! Desks to ask.
ghost use Rattle.std.specs.Prelude.{◌≡◌, [], IsTrue, false};
ghost use Rattle.canvas_desk.specs.Ready.{IsKeeperAt};
ghost use Rattle.canvas_room_tests.specs.Desks.{first_opening};
ghost use Rattle.canvas_journal.specs.Meaning.{opening_version};
ghost use Rattle.canvas_shelf.specs.Shelved.{disk_of};

use crate::trials::{Asked, is_answered};
use canvas_board::{Blank, Opening, Receipt, RoomName, RoomServer, open_board};
use canvas_desk::{Desk, SubmitError};
use canvas_journal::{Journal, Keeper, open};
use canvas_judge::State;
use canvas_server::Request;
use canvas_shelf::{Call, MemShelf};
use std::alloc::Global;
use std::marker::Brand;
use std::sync::{Mutex, Wait};
use std::test::Fail;
use test_rooms::{new_page, object};

/// A desk over a journal on a shelf in memory.
pub type MemDesk<'a, N, W> = Desk<Journal<MemShelf>, N, &'a W>;

// A shelf without segments, of which the call of that number fails, if one is to fail.
fn empty_shelf(alloc: Global, failing: Option<u64>) -> MemShelf
    ensures { disk_of result ≡ [] }
{
    let mut shelf = MemShelf::new(alloc);
    if let Some(call) = failing {
        shelf.fail_one(call);
    }
    shelf
}

// A desk with no entry over a keeper that keeps none.
fn desk_over<'a, K: Keeper + Drop, N: RoomName, W: Wait>(
    rt: &'a W,
    alloc: Global,
    blank: Blank,
    keeper: K,
) -> Result<Desk<K, N, &'a W>, Fail>
    requires book { blank.seen.book ≡ N.book }
    requires opening { N.opening ≡ first_opening }
    requires alive { K.failed keeper ≡ false }
    requires kept { IsTrue (K.honest keeper) → IsKeeperAt K.keeps K.finds K.left_since K.moment keeper opening_version }
{
    let state = State::new(alloc)?;
    let opening = Opening { state, version: 0 };
    let (publisher, _readers) = open_board::<N, W>(alloc, blank, &opening, 1, rt)?;
    let Opening { state, version } = opening;
    let server = RoomServer::rebuild(alloc, state, version);
    Ok(Desk::new(alloc, server, keeper, publisher, rt))
}

// A desk with no entry, over a journal on this shelf.
fn desk_on<'a, N: RoomName, W: Wait>(
    rt: &'a W,
    alloc: Global,
    blank: Blank,
    shelf: MemShelf,
) -> Result<MemDesk<'a, N, W>, Fail>
    requires book { blank.seen.book ≡ N.book }
    requires opening { N.opening ≡ first_opening }
    requires empty { disk_of shelf ≡ [] }
{
    match open(alloc, shelf) {
        Ok((journal, _state, _version)) => {
            desk_over::<Journal<MemShelf>, N, W>(rt, alloc, blank, journal)
        }
        Err(_) => Err(Fail::from("a shelf that isn't opened")),
    }
}

// What a desk with no entry on this shelf answers.
fn answers_under<N: RoomName, W: Wait>(
    rt: &W,
    alloc: Global,
    blank: Blank,
    shelf: MemShelf,
    asked: &Asked,
) -> Result<bool, Fail>
    requires book { blank.seen.book ≡ N.book }
    requires opening { N.opening ≡ first_opening }
    requires empty { disk_of shelf ≡ [] }
{
    let shared = Mutex::new(desk_on::<N, W>(rt, alloc, blank, shelf)?);
    is_answered(rt, alloc, &mut shared.lock(rt), asked)
}

/// Checks whether a new desk, of whose shelf that call fails, if one is to fail, answers as it has to.
pub fn answers<W: Wait>(
    rt: &W,
    alloc: Global,
    failing: Option<u64>,
    asked: &Asked,
) -> Result<bool, Fail> {
    let shelf = empty_shelf(alloc, failing);
    answers_under::<Brand, W>(rt, alloc, Blank::new(), shelf, asked)
}

// The request of a client's edit that makes a page with the edit's number as its counter.
fn page(alloc: Global, client: u32, seq: u64) -> Result<Request, Fail> {
    let change = new_page(alloc, object(client, (seq % 1000) as u32))?;
    Ok(Request::Edit {
        client,
        seq,
        change,
    })
}

/// The requests of a client's edits with these numbers, in this order.
pub fn pages(alloc: Global, client: u32, numbers: &[u64]) -> Result<Vec<Request>, Fail> {
    let mut requests = Vec::with_capacity(alloc, numbers.len())?;
    for seq in numbers {
        let request = page(alloc, client, *seq)?;
        requests.push(request)?;
    }
    Ok(requests)
}

/// Checks whether these are the answers: receipts of these versions, and these refusals.
pub fn are_told<N: RoomName>(
    answers: &[Result<Receipt<N>, SubmitError>],
    wanted: &[Result<u64, SubmitError>],
) -> bool {
    if answers.len() != wanted.len() {
        return false;
    }
    for (at, answer) in answers.iter().enumerate() {
        let told = match answer {
            Ok(receipt) => Ok(receipt.version()),
            Err(error) => Err(*error),
        };
        if told != wanted[at] {
            return false;
        }
    }
    true
}

/// How many calls were made of a desk's shelf.
pub fn calls_of<N: RoomName, W: Wait>(desk: &MemDesk<'_, N, W>) -> usize {
    desk.keeper().shelf().calls().len()
}

/// What calls of a shelf come to.
#[derive(Clone, Copy, PartialEq, Eq)]
pub enum Calls {
    /// There are none.
    Nothing,
    /// They are one append and one sync.
    OneCommit,
    /// They are others.
    Others,
}

/// What the calls of a desk's shelf behind so many come to.
pub fn calls_since<N: RoomName, W: Wait>(desk: &MemDesk<'_, N, W>, before: usize) -> Calls {
    match desk.keeper().shelf().calls().get(before..) {
        Some([]) => Calls::Nothing,
        Some([Call::Append(1, _), Call::Sync(1)]) => Calls::OneCommit,
        _ => Calls::Others,
    }
}
