// The segments above the one that recovery takes.
ghost use Rattle.std.specs.Prelude.{◌≡◌, IfOk, IsTrue};
ghost use Rattle.canvas_shelf.specs.Disk.{seen};
ghost use Rattle.canvas_journal.specs.Found.{Finds, IsState};
ghost use Rattle.canvas_journal.specs.Meaning.{Versioned};
ghost use Rattle.app_admin.specs.Torn.{AreRemovable, AreTorn, torn_above};

use crate::finding_loss::{SumSource, find_loss, taken_number};
use crate::taking::take;
use app_faults::Fault;
use canvas_shelf::Shelf;
use disk_integrity::{Trace, is_taken};
use std::alloc::{AllocError, Global};

/// The numbers of the segments that may be removed, the highest first: those above the one that recovery takes, as a crash leaves them if it
/// stops the writing of a checkpoint, or all if recovery takes none. Recovery finds the same without them (`every_torn_segment`). None if
/// opening the shelf would lose something (`find_loss`, which is asked if there are such segments): damage may look the same. Writes nothing to the
/// shelf.
///
/// The errors: those of `find_loss`.
pub fn removable_segments<S: Shelf, N: SumSource>(
    alloc: Global,
    shelf: &mut S,
    sums: &N,
    trace: Option<Trace>,
) -> Result<Vec<u32>, Fault>
    ensures torn { IsTrue (S.honest shelf.old) → (s : Versioned) → Finds (seen (S.disk shelf.old)) (IsState s) → IfOk result (λ torn. AreRemovable (S.disk shelf.old) trace torn.items) }
    ensures disk { IsTrue (S.honest shelf.old) → (S.disk shelf.new ≡ S.disk shelf.old) × (S.past shelf.new ≡ S.past shelf.old) }
    ensures honest { S.honest shelf.new ≡ S.honest shelf.old }
{
    let torn = torn_segments(alloc, shelf)?;
    if torn.is_empty() {
        return Ok(torn);
    }
    match find_loss(alloc, shelf, sums, trace)? {
        None => Ok(torn),
        Some(_) => Ok(Vec::new(alloc)),
    }
}

// The numbers of the segments above the one that recovery takes, the highest first.
fn torn_segments<S: Shelf>(alloc: Global, shelf: &mut S) -> Result<Vec<u32>, Fault>
    ensures torn { IsTrue (S.honest shelf.old) → (s : Versioned) → Finds (seen (S.disk shelf.old)) (IsState s) → IfOk result (λ torn. AreTorn (S.disk shelf.old) torn.items) }
    ensures disk { IsTrue (S.honest shelf.old) → (S.disk shelf.new ≡ S.disk shelf.old) × (S.past shelf.new ≡ S.past shelf.old) }
    ensures honest { S.honest shelf.new ≡ S.honest shelf.old }
{
    let listed = shelf.list(alloc)?;
    let taken = take(alloc, shelf)?;
    Ok(torn_above(alloc, &listed, taken_number(&taken))?)
}

// Those of these numbers that stand before the taken one.
fn torn_above(alloc: Global, listed: &[u32], taken: Option<u32>) -> Result<Vec<u32>, AllocError>
    ensures { IfOk result (λ torn. torn.items ≡ torn_above taken listed.now) }
{
    let mut torn = Vec::new(alloc);
    for number in listed {
        if is_taken(taken, *number) {
            return Ok(torn);
        }
        torn.push(*number)?;
    }
    Ok(torn)
}
