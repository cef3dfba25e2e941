// A script of a journal where calls of its shelf fail, and what is found after it.
ghost use Rattle.std.specs.Prelude.{◌≡◌, true, IfOk};
ghost use Rattle.canvas_shelf.specs.Disk.{top_is_listed};
ghost use Rattle.canvas_shelf.specs.Shelved.{disk_of};

use crate::bench::{Bench, Failing};
use crate::lines::{all_kept, kept};
use crate::opening::{write_kept, write_opening, write_version};
use crate::runs::Runs;
use crate::script::play;
use crate::shelves::{failing_shelf, write_calls, write_left};
use canvas_journal::{Journal, OpenError, open};
use canvas_shelf::{MemShelf, Shelf};
use std::alloc::{AllocError, Global};
use test_cases::Text;

/// What is asked of a shelf after a script.
#[derive(Clone, Copy)]
pub enum Asked {
    /// Its calls.
    Calls,
    /// The segments that a crash leaves that keeps so much.
    Crash,
    /// What opening them finds.
    Reopen,
    /// What is found where a crash keeps of one segment each number of bytes up to this one.
    Sizes,
}

// Adds what is found after a crash of a shelf that keeps this.
fn write_crash(alloc: Global, shelf: &MemShelf, keep: &str, text: &mut Text) {
    text.push_str("; ");
    match all_kept(alloc, keep) {
        Ok(keep) => write_kept(alloc, shelf, &keep, text),
        Err(_) => text.refuse(),
    }
}

// Adds how many calls were made and how many of them failed, and what each crash leaves to be found.
fn write_crashes(alloc: Global, bench: &Bench, shelf: &MemShelf, text: &mut Text) {
    let (calls, failed) = (shelf.calls().len(), shelf.failures());
    write!(text, "; {calls} calls, {failed} failed");
    if bench.crashes.is_empty() {
        write_crash(alloc, shelf, "", text);
    }
    for keep in bench.crashes.lines() {
        write_crash(alloc, shelf, keep, text);
    }
}

// Plays the script of a case, and adds what it answers and what is found then.
fn write_played(alloc: Global, bench: &Bench, journal: &mut Journal<MemShelf>, text: &mut Text) {
    text.push_str("opened");
    play(alloc, journal, &bench.script, text);
    write_crashes(alloc, bench, journal.shelf(), text);
    text.push_str("\n");
}

// Adds why a shelf wasn't opened, what is found then, and what opening it again finds.
fn write_unopened(alloc: Global, bench: &Bench, shelf: MemShelf, error: OpenError, text: &mut Text)
    requires { top_is_listed (disk_of shelf) ≡ true }
{
    write!(text, "{error}");
    write_crashes(alloc, bench, &shelf, text);
    text.push_str("; opened again: ");
    let _ = write_version(alloc, shelf, text);
}

/// Adds what a journal's script comes to where these calls fail, up to the end of the line. Tells whether one failed.
pub fn write_journal_stop(
    alloc: Global,
    bench: &Bench,
    failing: Failing,
    text: &mut Text,
) -> Result<bool, AllocError> {
    match open(alloc, failing_shelf(alloc, &bench.segments, failing)?) {
        Ok((mut journal, _, _)) => {
            write_played(alloc, bench, &mut journal, text);
            Ok(journal.shelf().failures() > 0)
        }
        Err((shelf, error)) => {
            write_unopened(alloc, bench, shelf, error, text);
            Ok(true)
        }
    }
}

// Notes what is found where a crash keeps so many bytes of a segment.
fn note_size(
    alloc: Global,
    shelf: &MemShelf,
    segment: u32,
    size: u64,
    runs: &mut Runs,
    text: &mut Text,
) {
    let mut answer = Text::new(alloc);
    write_kept(alloc, shelf, &[(segment, size)], &mut answer);
    answer.push_str("\n");
    runs.note(size, &answer, text);
}

// Adds what is found where a crash keeps each number of bytes of a segment up to this one.
fn write_sizes(alloc: Global, shelf: &MemShelf, segment: u32, most: u64, text: &mut Text) {
    let mut runs = Runs::new(alloc);
    for size in 0..most {
        note_size(alloc, shelf, segment, size, &mut runs, text);
    }
    note_size(alloc, shelf, segment, most, &mut runs, text);
    runs.end(text);
}

// What a crash leaves that keeps so much.
fn left(alloc: Global, shelf: &MemShelf, keep: &str) -> Result<MemShelf, AllocError>
    ensures { IfOk result (λ m. top_is_listed (disk_of m) ≡ true) }
{
    let keep = all_kept(alloc, keep)?;
    shelf.crash(&keep)
}

// Adds what is asked of a shelf, where crashes keep this.
fn write_answer(
    alloc: Global,
    shelf: &MemShelf,
    asked: Asked,
    keep: &str,
    text: &mut Text,
) -> Result<(), AllocError> {
    match asked {
        Asked::Calls => write_calls(shelf.calls(), text),
        Asked::Crash => write_left(alloc, &mut left(alloc, shelf, keep)?, text),
        Asked::Reopen => write_opening(alloc, left(alloc, shelf, keep)?, text),
        Asked::Sizes => {
            let (segment, most) = kept(keep).unwrap_or((0, 0));
            write_sizes(alloc, shelf, segment, most, text);
        }
    }
    Ok(())
}

/// Adds what is asked of the shelf of a case after its script, where crashes keep this.
pub fn write_asked(
    alloc: Global,
    bench: &Bench,
    asked: Asked,
    keep: &str,
    text: &mut Text,
) -> Result<(), AllocError> {
    match open(alloc, failing_shelf(alloc, &bench.segments, bench.failing)?) {
        Ok((mut journal, _, _)) => {
            play(alloc, &mut journal, &bench.script, &mut Text::new(alloc));
            write_answer(alloc, journal.shelf(), asked, keep, text)
        }
        Err((shelf, _)) => write_answer(alloc, &shelf, asked, keep, text),
    }
}
