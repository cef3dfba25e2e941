// Shelves of the segments of a case, and what they hold.
ghost use Rattle.std.specs.Prelude.{◌≡◌, false, true, IsTrue, IfOk};
ghost use Rattle.canvas_shelf.specs.Disk.{is_listed, top_is_listed};
ghost use Rattle.canvas_shelf.specs.Shelved.{disk_of};

use crate::bench::{Failing, Segment};
use canvas_journal::OpenError;
use canvas_shelf::{Call, CreateError, MemShelf, Shelf, ShelfError, first_record};
use std::alloc::{AllocError, Global};
use test_cases::Text;

// Makes a segment of these bytes, and makes sure of it.
fn write_new<S: Shelf>(shelf: &mut S, number: u32, bytes: &[u8]) -> Result<(), CreateError>
    requires { IsTrue (S.honest shelf.old) → is_listed number (S.disk shelf.old) ≡ false }
{
    shelf.create(number)?;
    shelf.append(number, bytes)?;
    shelf.sync(number)?;
    Ok(())
}

// Makes a segment that isn't listed, of these bytes, and makes sure of it. One that is listed stays as it is.
fn put<S: Shelf>(alloc: Global, shelf: &mut S, number: u32, bytes: &[u8]) -> Result<(), OpenError> {
    let listed = shelf.list(alloc)?;
    if listed.contains(&number) {
        return Ok(());
    }
    write_new(shelf, number, bytes)?;
    Ok(())
}

/// Puts segments on a shelf, and makes sure of them.
pub fn put_all<S: Shelf>(
    alloc: Global,
    shelf: &mut S,
    segments: &[Segment],
) -> Result<(), OpenError> {
    for segment in segments {
        put(alloc, shelf, segment.number, &segment.bytes)?;
    }
    Ok(())
}

/// A shelf in memory with these segments, all of their bytes synced, of which no call is noted and none fails.
pub fn shelf_of(alloc: Global, segments: &[Segment]) -> Result<MemShelf, AllocError>
    ensures { IfOk result (λ m. top_is_listed (disk_of m) ≡ true) }
{
    let mut shelf = MemShelf::new(alloc);
    match put_all(alloc, &mut shelf, segments) {
        Ok(()) => shelf.crash(&[]),
        Err(_) => Err(AllocError),
    }
}

/// The same with one segment more, of these bytes.
pub fn shelf_with(
    alloc: Global,
    segments: &[Segment],
    number: u32,
    bytes: &[u8],
) -> Result<MemShelf, AllocError>
    ensures { IfOk result (λ m. top_is_listed (disk_of m) ≡ true) }
{
    let mut shelf = shelf_of(alloc, segments)?;
    match put(alloc, &mut shelf, number, bytes) {
        Ok(()) => shelf.crash(&[]),
        Err(_) => Err(AllocError),
    }
}

// Makes calls of a shelf fail.
fn set_failing(shelf: &mut MemShelf, failing: Failing)
    ensures { disk_of shelf.new ≡ disk_of shelf.old }
{
    match failing {
        Failing::After(calls) => shelf.fuse(calls),
        Failing::Only(call) => shelf.fail_one(call),
    }
}

/// A shelf in memory with these segments, all of their bytes synced, of which these calls fail.
pub fn failing_shelf(
    alloc: Global,
    segments: &[Segment],
    failing: Failing,
) -> Result<MemShelf, AllocError>
    ensures { IfOk result (λ m. top_is_listed (disk_of m) ≡ true) }
{
    let mut shelf = shelf_of(alloc, segments)?;
    set_failing(&mut shelf, failing);
    Ok(shelf)
}

/// Adds the calls of a shelf, in a line.
pub fn write_calls(calls: &[Call], text: &mut Text) {
    text.push_str("calls:");
    for call in calls {
        write!(text, " {call:?}");
    }
    text.push_str("\n");
}

// Adds a blank and bytes, those that aren't printed as their numbers; nothing where there are none.
fn write_bytes(bytes: &[u8], text: &mut Text) {
    if !bytes.is_empty() {
        text.push_str(" ");
    }
    for byte in bytes {
        if byte.is_ascii_graphic() {
            write!(text, "{}", char::from(*byte));
        } else {
            write!(text, "<{byte}>");
        }
    }
    text.push_str("\n");
}

// Adds the segments of a shelf, the highest first, each in a line.
fn write_segments<S: Shelf>(
    alloc: Global,
    shelf: &mut S,
    text: &mut Text,
) -> Result<(), ShelfError> {
    let listed = shelf.list(alloc)?;
    for number in &listed {
        let bytes = shelf.read(alloc, *number)?;
        write!(text, "segment {number}, {} bytes:", bytes.len());
        write_bytes(&bytes, text);
    }
    Ok(())
}

/// Adds the segments that a crash left, the highest first, each in a line.
pub fn write_left<S: Shelf>(alloc: Global, left: &mut S, text: &mut Text) {
    if write_segments(alloc, left, text).is_err() {
        text.refuse();
    }
}

/// Adds the text of the first record in these bytes, and the bytes after it.
pub fn write_first(bytes: &[u8], text: &mut Text) {
    match first_record(bytes) {
        Some((first, behind)) => {
            text.push_str("first:");
            write_bytes(first, text);
            text.push_str("behind:");
            write_bytes(behind, text);
        }
        None => text.push_str("none\n"),
    }
}

/// Adds what a shelf with no segment answers that is asked so often for its numbers, where these calls fail.
pub fn write_lists(alloc: Global, failing: Failing, times: u64, text: &mut Text) {
    let mut shelf = MemShelf::new(alloc);
    set_failing(&mut shelf, failing);
    for _ in 0..times {
        text.push_str(if shelf.list(alloc).is_ok() {
            "ok "
        } else {
            "Device "
        });
    }
    write!(text, "{} failed\n", shelf.failures());
}
