// What a new folder is made of: the rows of an input, or a backup.
ghost use Rattle.std.specs.Prelude.{◌≡◌, IfOk, IsOk, IsTrue, None, OnOk, false};
ghost use Rattle.std.specs.FinMap as map;
ghost use Rattle.canvas_shelf.specs.Disk.{seen};
ghost use Rattle.canvas_journal.specs.Found.{AreRowTexts, Finds, IsState};
ghost use Rattle.canvas_lines.specs.Lines.{lines_of};
ghost use Rattle.app_admin.specs.Begun.{ImportsTo, WritesImported};
ghost use Rattle.app_admin.specs.Checks.{NothingLostOf};
ghost use Rattle.app_admin.specs.Imports.{IsImported, row_texts};
ghost use Rattle.app_admin.specs.Losing.{TellsLoss};

use crate::finding_loss::{SumSource, find_loss};
use crate::folders::{Ground, begin_on};
use crate::homes::Home;
use crate::making::document_of;
use crate::reading_rows::read_rows;
use app_faults::Fault;
use canvas_journal::look;
use canvas_judge::State;
use canvas_lines::read_input;
use canvas_shelf::Shelf;
use disk_integrity::{Loss, Trace};
use std::alloc::Global;
use std::io::{Read, Write};

/// The version of a document that was imported. At version 0 every client would take the document to be empty; below this one each asks for
/// a copy.
const IMPORTED: u64 = 1;

/// The state that the rows of an input are, and its version, which is 1.
///
/// The errors: `Stream`, if the input can't be read or has more than 2^30 bytes; `BadLine`, for the first line that isn't taken (`read_rows`,
/// `document_of`); `NoDocument`, if it has no rows; `Memory`.
pub fn import<I: Read>(alloc: Global, input: &mut I) -> Result<(State, u64), Fault>
    ensures { IfOk result (IsImported (I.remaining input.old) (I.remaining input.new)) }
{
    let text = read_input(alloc, input)?;
    Ok((document_in(alloc, &text)?, IMPORTED))
}

/// Puts the document of the rows of an input there, and then writes the version and how many objects there are.
///
/// The errors: those of `import`, and then nothing was put there; and those of `begin_on`.
pub fn import_on<G: Ground, I: Read, W: Write>(
    alloc: Global,
    ground: &mut G,
    input: &mut I,
    output: &mut W,
) -> Result<(), Fault>
    ensures { OnOk result (ImportsTo (λ s. IsTrue (G.honest ground.old) → G.holds ground.new s)
        (I.remaining input.old) (I.remaining input.new) (W.contents output.old) (W.contents output.new)) }
{
    let (state, version) = import(alloc, input)?;
    begin_on(alloc, ground, &state, version, output)
}

// The state of the document whose rows the lines of a text are.
fn document_in(alloc: Global, text: &[u8]) -> Result<State, Fault>
    ensures { IfOk result (λ state. AreRowTexts (row_texts (lines_of text.now)) (map.entries state.doc)) }
{
    let rows = read_rows(alloc, text)?;
    document_of(alloc, rows)
}

/// The state that a backup holds, and its version. Writes nothing to it.
///
/// The errors: `NoSegment`, where the backup holds no segment; `Gone`, if recovery takes none of its segments, though its identity or sums
/// are there; `Lost`, if something else of it is lost (`find_loss`), unless that is accepted; `Device`, where it is missing or can't be read;
/// `Damaged`, where it isn't whole; `TooLarge`, as `find_loss` finds it; `Memory`.
pub fn read_backup<S: Shelf + Drop, H: Home<S> + SumSource>(
    alloc: Global,
    backup: &mut H,
    accept_loss: bool,
) -> Result<(State, u64), Fault>
    ensures found { IsTrue (H.honest backup.old) → IfOk result (λ found. Finds (seen (H.disk backup.old)) (IsState found)) }
    ensures whole { IsTrue (H.honest backup.old) → accept_loss ≡ false → IsOk result → NothingLostOf (H.disk backup.old) }
{
    let mut shelf = backup.look(alloc)?;
    let trace = backup.trace()?;
    match backup_of(alloc, &mut shelf, &*backup, trace, accept_loss) {
        Ok(found) => Ok(found),
        Err(fault) => Err(backup.explain(fault)),
    }
}

// The state that a shelf holds, and its version, unless something is lost of it and that isn't accepted.
fn backup_of<S: Shelf, N: SumSource>(
    alloc: Global,
    shelf: &mut S,
    sums: &N,
    trace: Option<Trace>,
    accept_loss: bool,
) -> Result<(State, u64), Fault>
    ensures found { IsTrue (S.honest shelf.old) → IfOk result (λ found. Finds (seen (S.disk shelf.old)) (IsState found)) }
    ensures whole { IsTrue (S.honest shelf.old) → accept_loss ≡ false → IsOk result → TellsLoss (S.disk shelf.old) trace None }
{
    let found = look(alloc, shelf)?;
    match refuse_loss(alloc, shelf, sums, trace) {
        Err(Fault::Lost { .. }) if accept_loss => Ok(found),
        Err(fault) => Err(fault),
        Ok(()) => Ok(found),
    }
}

// Fails with `Lost` or `Gone` if something is lost of a shelf, beside whose segments this is left of a document.
fn refuse_loss<S: Shelf, N: SumSource>(
    alloc: Global,
    shelf: &mut S,
    sums: &N,
    trace: Option<Trace>,
) -> Result<(), Fault>
    ensures { IsTrue (S.honest shelf.old) → OnOk result (TellsLoss (S.disk shelf.old) trace None) }
{
    match find_loss(alloc, shelf, sums, trace)? {
        None => Ok(()),
        Some(Loss::Gone { .. }) => Err(Fault::Gone),
        Some(loss) => Err(Fault::Lost { loss }),
    }
}
