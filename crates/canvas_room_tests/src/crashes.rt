//! A caller that has a receipt: its entry is found after every later crash.
ghost use Rattle.std.specs.Prelude.{◌≡◌, ◌≤◌, List, IfOk, IsTrue, false, length};
ghost use mathlib.Core.List.{IsPrefix};
ghost use Rattle.canvas_shelf.specs.Disk.{Content};
ghost use Rattle.canvas_server.specs.Asked.{seen_request};
ghost use Rattle.canvas_board.specs.Marks.{Mark, board};
ghost use Rattle.canvas_desk.specs.Crashes.{FindsSeen};
ghost use Rattle.canvas_desk.specs.Judging.{IsEntryFor};
ghost use Rattle.canvas_room_tests.specs.Crashes.{IsLeftFrom};

use crate::desks::{MemDesk, pages};
use canvas_board::{Receipt, RoomName};
use canvas_desk::{Desk, SubmitError, found_after_every_crash};
use canvas_journal::{Keeper, open};
use canvas_server::Request;
use std::alloc::Global;
use std::sync::Wait;
use std::test::Fail;

// Submits these requests, one after the other, whatever comes of them. What is found after a crash since then, at rest or in one of the calls,
// begins with all that was due before.
fn submit_each<K: Keeper, N: RoomName, R: Wait + Drop, W: Wait>(
    rt: &W,
    desk: &mut Desk<K, N, R>,
    requests: Vec<Request>,
)
    requires { desk.old.failed ≡ false }
    ensures later { IsTrue (K.honest desk.old.keeper) → K.moment desk.old.keeper ≤ K.moment desk.new.keeper }
    ensures found { IsTrue (K.honest desk.old.keeper) → (seen : List Mark) → IsPrefix seen desk.old.due → (left : Content) → K.left_since desk.new.keeper (K.moment desk.old.keeper) left → FindsSeen N.opening K.finds seen left }
{
    found_after_every_crash::<K, N>();
    let _keeper = desk.keeper();
    let _due = desk.due();
    for request in requests {
        let _answer = desk.submit(rt, request);
    }
}

// Submits these requests at once, and makes a checkpoint, whatever comes of them. The same holds of what is found since then.
fn submit_all<K: Keeper, N: RoomName, R: Wait + Drop, W: Wait>(
    rt: &W,
    desk: &mut Desk<K, N, R>,
    requests: &[Request],
)
    requires alive { desk.old.failed ≡ false }
    requires few { length requests.now ≤ 64 }
    ensures { IsTrue (K.honest desk.old.keeper) → (seen : List Mark) → IsPrefix seen desk.old.due → (left : Content) → K.left_since desk.new.keeper (K.moment desk.old.keeper) left → FindsSeen N.opening K.finds seen left }
{
    found_after_every_crash::<K, N>();
    let _keeper = desk.keeper();
    let _due = desk.due();
    let _answers = desk.submit_many(rt, requests);
    let _answer = desk.checkpoint(rt);
}

// Submits a request, and then others, whatever comes of those; gives the receipt of the first. From some moment on, which isn't later than the
// end of this call, every crash leaves what is found to begin with the receipt's history.
fn submit_first<K: Keeper, N: RoomName, R: Wait + Drop, W: Wait>(
    rt: &W,
    desk: &mut Desk<K, N, R>,
    request: Request,
    others: Vec<Request>,
) -> Result<Receipt<N>, SubmitError>
    ensures entry { IfOk result (λ r. IsEntryFor (board N.opening desk.old.due) (seen_request request) r.entry) }
    ensures found { IsTrue (K.honest desk.old.keeper) → IfOk result (λ r. IsLeftFrom (K.moment desk.new.keeper) (K.left_since desk.new.keeper) (FindsSeen N.opening K.finds r.history)) }
{
    found_after_every_crash::<K, N>();
    let receipt = desk.submit(rt, request)?;
    submit_each(rt, desk, others);
    Ok(receipt)
}

// Submits a Join and then these edits, one after the other, and gives the version of the Join's receipt.
fn joined_before<N: RoomName, W: Wait>(
    rt: &W,
    desk: &mut MemDesk<'_, N, W>,
    edits: Vec<Request>,
) -> Result<u64, SubmitError> {
    let receipt = submit_first(rt, desk, Request::Join, edits)?;
    Ok(receipt.version())
}

// The version that is found after a crash of a desk's shelf.
fn found_after_crash<N: RoomName, W: Wait>(
    alloc: Global,
    desk: &MemDesk<'_, N, W>,
) -> Result<u64, Fail> {
    let left = desk.keeper().shelf().crash(&[])?;
    match open(alloc, left) {
        Ok((_journal, _state, version)) => Ok(version),
        Err(_) => Err(Fail::from("a shelf that isn't opened")),
    }
}

/// The version of the receipt of a Join, after which client 1 submits edits, and the version that is found after a crash then.
pub fn versions_by<N: RoomName, W: Wait>(
    rt: &W,
    alloc: Global,
    desk: &mut MemDesk<'_, N, W>,
) -> Result<(u64, u64), Fail> {
    let joined = joined_before(rt, desk, pages(alloc, 1, &[1, 2])?)?;
    let edits = pages(alloc, 1, &[1, 2])?;
    if !desk.has_failed() && edits.len() <= 64 {
        submit_all(rt, desk, &edits);
    }
    Ok((joined, found_after_crash(alloc, desk)?))
}
