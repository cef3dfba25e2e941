//! What one seat does.
use canvas_board::RoomName;
use canvas_desk::SubmitError;
use canvas_forms::SharedEntry;
use canvas_journal::Keeper;
use canvas_judge::Outcome;
use canvas_room::Seat;
use canvas_server::Request;
use std::alloc::{AllocError, Global};
use std::sync::Wait;
use std::test::Fail;
use test_rooms::{SeatOf, new_page, object};

// The request of a client's edit that makes a page with the edit's number as its counter.
fn page(alloc: Global, client: u32, seq: u64) -> Result<Request, Fail> {
    let change = new_page(alloc, object(client, (seq % 1000) as u32))?;
    Ok(Request::Edit {
        client,
        seq,
        change,
    })
}

// The id that an entry gives.
fn id_in(entry: &SharedEntry) -> Option<u32> {
    match entry.entry().outcome {
        Outcome::Joined(id) => Some(id),
        _ => None,
    }
}

/// Joins by a seat. Tells the id that it gets, or why it gets none.
pub fn join_by<K: Keeper + Drop, N: RoomName, Q: Wait + Drop, W: Wait>(
    rt: &W,
    seat: &mut SeatOf<K, N, Q>,
) -> Result<Option<u32>, SubmitError> {
    let receipt = seat.submit(rt, Request::Join)?;
    Ok(id_in(receipt.entry()))
}

/// Checks whether a seat refuses a client's edit of that number so, or takes it where it is to.
pub fn refuses<K: Keeper + Drop, N: RoomName, Q: Wait + Drop, W: Wait>(
    rt: &W,
    alloc: Global,
    seat: &mut SeatOf<K, N, Q>,
    client: u32,
    seq: u64,
    wanted: Option<SubmitError>,
) -> Result<bool, Fail> {
    let request = page(alloc, client, seq)?;
    Ok(seat.submit(rt, request).err() == wanted)
}

// The author and the number of an entry.
fn whose(entry: &SharedEntry) -> (u32, u64) {
    let entry = entry.entry();
    (entry.author, entry.seq)
}

// Checks whether entries are these: author and number of each.
fn are_these(entries: &[SharedEntry], wanted: &[(u32, u64)]) -> bool {
    entries.iter().map(whose).eq(wanted.iter().copied())
}

/// Checks whether the entries that a seat reads after a version are these: author and number of each. None where it is to read none there,
/// since a checkpoint passed them.
pub fn reads<N: RoomName, D: Drop>(
    alloc: Global,
    seat: &mut Seat<N, D>,
    from: u64,
    wanted: Option<&[(u32, u64)]>,
) -> bool {
    match (seat.tail(alloc, from, 64), wanted) {
        (Ok(Some(entries)), Some(wanted)) => are_these(&entries, wanted),
        (Ok(None), None) => true,
        _ => false,
    }
}

/// The version of the copy of the document that a seat gives a client, if it gives one.
pub fn copied<N: RoomName, D: Drop>(
    alloc: Global,
    seat: &mut Seat<N, D>,
    client: u32,
) -> Option<u64> {
    match seat.copy(alloc, client) {
        Ok(Some(copy)) => Some(copy.version),
        _ => None,
    }
}

// What the receipt of a Join tells: the id, and the versions before its entry and with it.
#[derive(Clone, Copy)]
struct Joined {
    id: u32,
    before: u64,
    version: u64,
}

// Joins by a seat, and learns of the receipt. None where it gets no id.
fn join_and_learn<K: Keeper + Drop, N: RoomName, Q: Wait + Drop, W: Wait>(
    rt: &W,
    seat: &mut SeatOf<K, N, Q>,
) -> Option<Joined> {
    let receipt = seat.submit(rt, Request::Join).ok()?;
    let (id, before, version) = (id_in(receipt.entry()), receipt.before(), receipt.version());
    seat.learn(receipt);
    Some(Joined {
        id: id?,
        before,
        version,
    })
}

// Checks whether a seat that has learned of a Join reads its entry.
fn reads_entry<N: RoomName, D: Drop>(alloc: Global, seat: &mut Seat<N, D>, joined: Joined) -> bool {
    match seat.tail(alloc, joined.before, 1) {
        Ok(Some(entries)) => entries.first().and_then(id_in) == Some(joined.id),
        _ => false,
    }
}

// Checks whether a seat that has learned of a Join gives the client a copy of the document that has seen it.
fn copies<N: RoomName, D: Drop>(alloc: Global, seat: &mut Seat<N, D>, joined: Joined) -> bool {
    match copied(alloc, seat, joined.id) {
        Some(version) => version >= joined.version,
        None => false,
    }
}

// Checks whether a seat that has learned of a Join reads it in each way.
fn reads_own<N: RoomName, D: Drop>(alloc: Global, seat: &mut Seat<N, D>, joined: Joined) -> bool {
    reads_entry(alloc, seat, joined)
        && copies(alloc, seat, joined)
        && seat.joined(joined.id) == Ok(true)
}

/// Joins, learns of the receipt, and reads the entry: the id, where all of that came about.
pub fn joins_and_reads<K: Keeper + Drop, N: RoomName, Q: Wait + Drop, W: Wait>(
    rt: &W,
    alloc: Global,
    seat: &mut SeatOf<K, N, Q>,
) -> Option<u32> {
    let joined = join_and_learn(rt, seat)?;
    if reads_own(alloc, seat, joined) {
        Some(joined.id)
    } else {
        None
    }
}

// Returns this number of Joins. Errors: out of memory.
fn joins(alloc: Global, count: u32) -> Result<Vec<Request>, AllocError> {
    let mut joins = Vec::with_capacity(alloc, count as usize)?;
    for _ in 0..count {
        joins.push(Request::Join)?;
    }
    Ok(joins)
}

/// Has this number of Joins judged ahead, submits each and learns of its receipt. Returns the first id, if the others follow it one by one.
pub fn joins_ahead<K: Keeper + Drop, N: RoomName, Q: Wait + Drop, W: Wait>(
    rt: &W,
    alloc: Global,
    seat: &mut SeatOf<K, N, Q>,
    count: u32,
) -> Option<u32> {
    seat.judge_ahead(rt, joins(alloc, count).ok()?);
    let first = join_and_learn(rt, seat)?.id;
    for later in 1..count {
        if join_and_learn(rt, seat)?.id != first.checked_add(later)? {
            return None;
        }
    }
    Some(first)
}

/// The id of the one client of a room, where a seat reads that it has joined in each way.
pub fn reads_first<N: RoomName, D: Drop>(alloc: Global, seat: &mut Seat<N, D>) -> Option<u32> {
    let is_read = seat.joined(1) == Ok(true)
        && reads(alloc, seat, 0, Some(&[(0, 0)]))
        && copied(alloc, seat, 1) == Some(1);
    if is_read { Some(1) } else { None }
}
