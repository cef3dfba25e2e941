// What looking at a shelf finds, and what opening it finds and leaves.
ghost use Rattle.std.specs.Prelude.{◌≡◌, true, IsTrue};
ghost use Rattle.canvas_shelf.specs.Disk.{top_is_listed};
ghost use Rattle.canvas_shelf.specs.Shelved.{disk_of};

use crate::shelves::{write_calls, write_left};
use canvas_journal::{look, open};
use canvas_shelf::{MemShelf, Shelf};
use std::alloc::Global;
use test_cases::Text;

/// Adds the version that looking at a shelf finds, or why it finds none.
pub fn write_found<S: Shelf>(alloc: Global, shelf: &mut S, text: &mut Text) {
    match look(alloc, shelf) {
        Ok((_, version)) => write!(text, "version {version}"),
        Err(error) => write!(text, "{error}"),
    }
}

/// Adds what looking at a shelf finds after a crash that keeps so much, or nothing if memory runs out for it.
pub fn write_kept(alloc: Global, shelf: &MemShelf, keep: &[(u32, u64)], text: &mut Text) {
    match shelf.crash(keep) {
        Ok(mut left) => write_found(alloc, &mut left, text),
        Err(_) => text.refuse(),
    }
}

/// Adds the version that opening a shelf finds, or why it finds none, in a line. The shelf comes back where it isn't opened.
pub fn write_version<S: Shelf + Drop>(alloc: Global, shelf: S, text: &mut Text) -> Option<S>
    requires { IsTrue (S.honest shelf) → top_is_listed (S.disk shelf) ≡ true }
{
    match open(alloc, shelf) {
        Ok((_, _, version)) => {
            write!(text, "version {version}\n");
            None
        }
        Err((shelf, error)) => {
            write!(text, "{error}\n");
            Some(shelf)
        }
    }
}

// Adds the calls of a shelf, and the segments that a crash then leaves.
fn write_shelf(alloc: Global, shelf: &MemShelf, text: &mut Text) {
    write_calls(shelf.calls(), text);
    match shelf.crash(&[]) {
        Ok(mut left) => write_left(alloc, &mut left, text),
        Err(_) => text.refuse(),
    }
}

// Opens a shelf, and adds what that finds, its calls, and the segments then.
fn write_opened(alloc: Global, shelf: MemShelf, text: &mut Text)
    requires { top_is_listed (disk_of shelf) ≡ true }
{
    match open(alloc, shelf) {
        Ok((journal, _, version)) => {
            write!(text, "open: version {version}\n");
            write_shelf(alloc, journal.shelf(), text);
        }
        Err((shelf, error)) => {
            write!(text, "open: {error}\n");
            write_shelf(alloc, &shelf, text);
        }
    }
}

/// Adds what looking at a shelf finds whose bytes are all synced, and what opening it then finds and leaves.
pub fn write_opening(alloc: Global, shelf: MemShelf, text: &mut Text)
    requires { top_is_listed (disk_of shelf) ≡ true }
{
    text.push_str("look: ");
    write_kept(alloc, &shelf, &[], text);
    text.push_str("\n");
    write_opened(alloc, shelf, text);
}
