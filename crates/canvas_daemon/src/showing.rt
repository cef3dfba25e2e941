// What `canvasd show` writes: the document that a journal holds.
ghost use Rattle.std.specs.Prelude.{◌≡◌, ℕ, IfErr, IfOk, IsErrOf, IsTrue, OnOk};
ghost use Rattle.canvas_journal.specs.Found.{Finds, IsDamaged};
ghost use Rattle.canvas_shelf.specs.Disk.{seen};
ghost use Rattle.canvas_shelf.specs.Moments.{CountsFailure};
ghost use Rattle.canvas_lines.specs.Reports.{IsReport, WritesReport};
ghost use Rattle.canvas_daemon.specs.Shown.{IsReportOf, IsShowFault, WritesReportOf};

use crate::fault::DaemonFault;
use canvas_folder::DirShelf;
use canvas_journal::look;
use canvas_lines::{report_text, write_out};
use canvas_shelf::Shelf;
use std::alloc::Global;
use std::fs::File;
use std::io::Write;
use std::rt::Files;

/// What a shelf holds, as a text: `version V` and a line feed, and the text of the document's tree at level 0. Writes nothing to the
/// shelf.
///
/// The errors: `Device`, where the device failed; `Damaged`, for the first record that isn't what it has to be; `Memory`, where
/// memory ran out.
pub fn report<S: Shelf>(alloc: Global, shelf: &mut S) -> Result<Vec<u8>, DaemonFault>
    ensures found { IsTrue (S.honest shelf.old) → IfOk result (λ text. IsReportOf (S.disk shelf.old) text.items) }
    ensures form { IfOk result (λ text. IsReport text.items) }
    ensures damaged { IsTrue (S.honest shelf.old) → (n : ℕ) (at : ℕ) → IsErrOf result (DaemonFault.Damaged n at) → Finds (seen (S.disk shelf.old)) (IsDamaged n at) }
    ensures disk { IsTrue (S.honest shelf.old) → (S.disk shelf.new ≡ S.disk shelf.old) × (S.past shelf.new ≡ S.past shelf.old) }
    ensures honest { S.honest shelf.new ≡ S.honest shelf.old }
    ensures cause { CountsFailure (S.failure_count shelf.old) (S.failure_count shelf.new) (IsErrOf result DaemonFault.Device) }
    ensures faults { IfErr result IsShowFault }
{
    let (state, version) = look(alloc, shelf)?;
    let text = report_text(alloc, version, state.doc())?;
    Ok(text)
}

/// Writes what a shelf holds, as `report` says it. Writes nothing to the shelf.
///
/// The errors: `Device`, where the device or the output failed; `Damaged` and `Memory` as `report` answers them, and then nothing
/// was written.
pub fn show_shelf<S: Shelf, W: Write>(
    alloc: Global,
    shelf: &mut S,
    output: &mut W,
) -> Result<(), DaemonFault>
    ensures found { IsTrue (S.honest shelf.old) → OnOk result
        (WritesReportOf (S.disk shelf.old) (W.contents output.old) (W.contents output.new)) }
    ensures form { OnOk result (WritesReport (W.contents output.old) (W.contents output.new)) }
    ensures damaged { IsTrue (S.honest shelf.old) → (n : ℕ) (at : ℕ) → IsErrOf result (DaemonFault.Damaged n at) → Finds (seen (S.disk shelf.old)) (IsDamaged n at) }
    ensures unwritten { IfErr result (λ fault. (fault ≡ DaemonFault.Device → ⊥) → W.contents output.new ≡ W.contents output.old) }
    ensures disk { IsTrue (S.honest shelf.old) → (S.disk shelf.new ≡ S.disk shelf.old) × (S.past shelf.new ≡ S.past shelf.old) }
    ensures honest { S.honest shelf.new ≡ S.honest shelf.old }
    ensures faults { IfErr result IsShowFault }
{
    let text = report(alloc, shelf)?;
    write_out(output, &text)?;
    Ok(())
}

/// Writes what the journal in a folder holds, as `report` says it. Writes nothing to the folder.
///
/// The errors are those of `show_shelf`; `Device` too where the folder is missing or can't be read.
pub fn show<R: Files<File = File> + AllocGlobal + Clone + Drop, W: Write>(
    files: R,
    dir: &str,
    output: &mut W,
) -> Result<(), DaemonFault>
    ensures form { OnOk result (WritesReport (W.contents output.old) (W.contents output.new)) }
    ensures unwritten { IfErr result (λ fault. (fault ≡ DaemonFault.Device → ⊥) → W.contents output.new ≡ W.contents output.old) }
    ensures faults { IfErr result IsShowFault }
{
    let alloc = files.alloc();
    let mut shelf = DirShelf::existing(files, dir)?;
    show_shelf(alloc, &mut shelf, output)
}
