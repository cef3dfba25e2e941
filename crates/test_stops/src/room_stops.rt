// What comes of a script that a room is asked where calls of its shelf fail.
ghost use Rattle.std.specs.Prelude.{◌≡◌, true, IsTrue};
ghost use Rattle.canvas_shelf.specs.Disk.{top_is_listed};

use crate::bench::{Bench, Failing};
use crate::fragile::Fragile;
use crate::plays::{Play, Played, played_by};
use crate::rooms::{blank_on, left_of};
use canvas_journal::OpenError;
use std::alloc::{AllocError, Global};
use std::sync::Wait;
use test_cases::Text;

// Adds what is found on a shelf, and to which version the script goes on there.
fn write_rest<B: Fragile, R: Wait + Copy + Drop>(
    rt: R,
    alloc: Global,
    shelf: B,
    play: Play<'_>,
    text: &mut Text,
) -> Result<(), AllocError>
    requires { IsTrue (B.honest shelf) → top_is_listed (B.disk shelf) ≡ true }
{
    match blank_on(alloc, shelf) {
        Ok(Some(blank)) => {
            let played = played_by(rt, alloc, blank, play)?;
            write!(text, " {} to {}", played.opened, played.ended);
        }
        Ok(None) => text.push_str(" more edits than entries"),
        Err((_shelf, error)) => write!(text, " {error}"),
    }
    Ok(())
}

// Adds the same for each shelf that was found.
fn write_left<B: Fragile, R: Wait + Copy + Drop>(
    rt: R,
    alloc: Global,
    left: &[B],
    play: Play<'_>,
    text: &mut Text,
) -> Result<(), AllocError> {
    let mut before = "; found";
    for shelf in left {
        text.push_str(before);
        before = ",";
        write_rest(rt, alloc, shelf.found(alloc, 0)?, play, text)?;
    }
    Ok(())
}

// Adds what came of a script, and what is found then. Tells whether a call failed.
fn write_played<B: Fragile, R: Wait + Copy + Drop>(
    rt: R,
    alloc: Global,
    script: &str,
    played: &Played<B>,
    text: &mut Text,
) -> Result<bool, AllocError> {
    text.push_text(&played.text);
    let play = Play {
        script,
        before: Some(played.opened),
    };
    write_left(rt, alloc, &played.left, play, text)?;
    Ok(played.failures > 0)
}

// Adds why a shelf isn't opened, what is found then, and what opening it again comes to. Tells that a call failed.
fn write_unopened<B: Fragile, R: Wait + Copy + Drop>(
    rt: R,
    alloc: Global,
    play: Play<'_>,
    shelf: B,
    error: OpenError,
    text: &mut Text,
) -> Result<bool, AllocError>
    requires { IsTrue (B.honest shelf) → top_is_listed (B.disk shelf) ≡ true }
{
    write!(text, " {error}");
    write_left(rt, alloc, &left_of(alloc, &shelf)?, play, text)?;
    text.push_str("; again");
    write_rest(rt, alloc, shelf, play, text)?;
    Ok(true)
}

// Adds what a script comes to over this shelf. Tells whether a call failed.
fn write_over<B: Fragile, R: Wait + Copy + Drop>(
    rt: R,
    alloc: Global,
    script: &str,
    shelf: B,
    text: &mut Text,
) -> Result<bool, AllocError>
    requires { IsTrue (B.honest shelf) → top_is_listed (B.disk shelf) ≡ true }
{
    let play = Play {
        script,
        before: None,
    };
    match blank_on(alloc, shelf) {
        Ok(Some(blank)) => {
            let played = played_by(rt, alloc, blank, play)?;
            write_played(rt, alloc, script, &played, text)
        }
        Ok(None) => Err(AllocError),
        Err((shelf, error)) => write_unopened(rt, alloc, play, shelf, error, text),
    }
}

/// Adds what a room's script comes to where these calls fail, up to the end of the line. Tells whether one failed.
pub fn write_room_stop<B: Fragile, R: Wait + Copy + Drop>(
    rt: R,
    alloc: Global,
    bench: &Bench,
    failing: Failing,
    text: &mut Text,
) -> Result<bool, AllocError> {
    let has_failed = match B::make(alloc, &bench.segments, failing)? {
        Some(shelf) => write_over(rt, alloc, &bench.script, shelf, text)?,
        None => {
            text.push_str(" device failed");
            true
        }
    };
    text.push_str("\n");
    Ok(has_failed)
}
