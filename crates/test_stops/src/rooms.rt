// Rooms over shelves, and what is found of those later.
ghost use Rattle.std.specs.Prelude.{◌≡◌, true, IsTrue, IfErr};
ghost use Rattle.canvas_journal.specs.Meaning.{IsCountedByEntries};
ghost use Rattle.canvas_shelf.specs.Disk.{top_is_listed};

use crate::fragile::Fragile;
use canvas_board::Opening;
use canvas_journal::{Journal, OpenError, open};
use canvas_judge::State;
use canvas_room::{BlankRoom, blank_room};
use std::alloc::{AllocError, Global};

/// A room that has no name yet, over a journal on such a shelf.
pub type BlankOn<B> = BlankRoom<Journal<B>>;

// How many seats a room has.
const SEATS: usize = 2;

// Checks whether no client has more judged edits than there are entries.
fn is_counted(state: &State, version: u64) -> bool
    ensures { IsTrue result → IsCountedByEntries (state.now, version) }
{
    state.clients().iter().all(|counts| counts.done <= version)
}

/// A room over a journal on this shelf, or why the shelf isn't opened. None where a client has more judged edits than there are entries, as
/// no server counts.
pub fn blank_on<B: Fragile>(alloc: Global, shelf: B) -> Result<Option<BlankOn<B>>, (B, OpenError)>
    requires { IsTrue (B.honest shelf) → top_is_listed (B.disk shelf) ≡ true }
    ensures { IfErr result (λ e. IsTrue (B.honest e.0) → top_is_listed (B.disk e.0) ≡ true) }
{
    let (journal, state, version) = match open(alloc, shelf) {
        Ok(opened) => opened,
        Err(error) => return Err(error),
    };
    if !is_counted(&state, version) {
        return Ok(None);
    }
    match blank_room(alloc, journal, Opening { state, version }, SEATS) {
        Ok(blank) => Ok(Some(blank)),
        Err(_) => Ok(None),
    }
}

/// What may be found of a shelf now, by each way.
pub fn left_of<B: Fragile>(alloc: Global, shelf: &B) -> Result<Vec<B>, AllocError> {
    let mut left = Vec::with_capacity(alloc, B::WAYS)?;
    for way in 0..B::WAYS {
        left.push(shelf.found(alloc, way)?)?;
    }
    Ok(left)
}
