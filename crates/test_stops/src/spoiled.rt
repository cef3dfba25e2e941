// What opening finds where the last segment is cut, or one of its bytes is another.
ghost use Rattle.std.specs.Prelude.{◌≡◌, true, IsTrue, IfOk};
ghost use Rattle.canvas_shelf.specs.Disk.{top_is_listed};
ghost use Rattle.canvas_shelf.specs.Shelved.{disk_of};

use crate::bench::Segment;
use crate::opening::{write_kept, write_opening, write_version};
use crate::runs::Runs;
use crate::shelves::{shelf_with, write_left};
use canvas_shelf::{MemShelf, Shelf};
use std::alloc::{AllocError, Global};
use test_cases::Text;

// Notes what opening finds where the last segment is cut to this size.
fn note_cut(
    alloc: Global,
    rest: &[Segment],
    last: &Segment,
    size: usize,
    runs: &mut Runs,
    text: &mut Text,
) {
    let bytes = last.bytes.get(..size).unwrap_or(&last.bytes);
    match shelf_with(alloc, rest, last.number, bytes) {
        Ok(shelf) => {
            let mut answer = Text::new(alloc);
            write_opening(alloc, shelf, &mut answer);
            runs.note(size as u64, &answer, text);
        }
        Err(_) => text.refuse(),
    }
}

/// Adds what opening finds where the last segment is cut to each length, and if it isn't.
pub fn write_cuts(alloc: Global, segments: &[Segment], text: &mut Text) {
    let [rest @ .., last] = segments else {
        return;
    };
    let mut runs = Runs::new(alloc);
    for size in 0..last.bytes.len().saturating_add(1) {
        note_cut(alloc, rest, last, size, &mut runs, text);
    }
    runs.end(text);
}

// A shelf on which this byte stands at this place of the last segment.
fn spoiled_shelf(
    alloc: Global,
    rest: &[Segment],
    last: &Segment,
    at: usize,
    byte: u8,
) -> Result<MemShelf, AllocError>
    ensures { IfOk result (λ m. top_is_listed (disk_of m) ≡ true) }
{
    let mut bytes = Vec::from_slice(alloc, &last.bytes)?;
    if let Some(place) = bytes.get_mut(at) {
        *place = byte;
    }
    shelf_with(alloc, rest, last.number, &bytes)
}

// Adds a line where the segments of a shelf aren't written so.
fn write_change<S: Shelf>(alloc: Global, shelf: &mut S, segments: &Text, text: &mut Text) {
    let mut then = Text::new(alloc);
    write_left(alloc, shelf, &mut then);
    if !then.is_same(segments) {
        text.push_str("the segments have changed\n");
    }
}

// Adds what opening a shelf finds, in a line. If it isn't opened, its segments must still be written so.
fn write_opened<S: Shelf + Drop>(alloc: Global, shelf: S, segments: &Text, text: &mut Text)
    requires { IsTrue (S.honest shelf) → top_is_listed (S.disk shelf) ≡ true }
{
    text.push_str("open: ");
    if let Some(mut left) = write_version(alloc, shelf, text) {
        write_change(alloc, &mut left, segments, text);
    }
}

// Adds how the segments of a shelf are written whose bytes are all synced.
fn write_synced(alloc: Global, shelf: &MemShelf, text: &mut Text) {
    match shelf.crash(&[]) {
        Ok(mut same) => write_left(alloc, &mut same, text),
        Err(_) => text.refuse(),
    }
}

// Notes what looking at a shelf finds whose bytes are all synced, and what opening it finds.
fn note_found(alloc: Global, shelf: MemShelf, at: usize, runs: &mut Runs, text: &mut Text)
    requires { top_is_listed (disk_of shelf) ≡ true }
{
    let mut answer = Text::new(alloc);
    let mut segments = Text::new(alloc);
    answer.push_str("look: ");
    write_kept(alloc, &shelf, &[], &mut answer);
    write_synced(alloc, &shelf, &mut segments);
    answer.push_str("\n");
    write_opened(alloc, shelf, &segments, &mut answer);
    runs.note(at as u64, &answer, text);
}

/// Adds what looking and opening find where each byte of the last segment is replaced by this one; a line says so where opening fails
/// and yet changes a segment.
pub fn write_spoiled(alloc: Global, segments: &[Segment], byte: u8, text: &mut Text) {
    let [rest @ .., last] = segments else {
        return;
    };
    let mut runs = Runs::new(alloc);
    for at in 0..last.bytes.len() {
        match spoiled_shelf(alloc, rest, last, at, byte) {
            Ok(shelf) => note_found(alloc, shelf, at, &mut runs, text),
            Err(_) => text.refuse(),
        }
    }
    runs.end(text);
}
