// A document as rows or as a tree.
ghost use Rattle.std.specs.Prelude.{◌≡◌, ℕ, IfErr, IfOk, IsErrOf, IsTrue, OnOk};
ghost use Rattle.canvas_journal.specs.Found.{Finds, IsDamaged};
ghost use Rattle.canvas_shelf.specs.Disk.{seen};
ghost use Rattle.canvas_lines.specs.Reports.{WritesReport};
ghost use Rattle.app_admin.specs.Shown.{WritesRows, WritesRowsOf, WritesTreeOf};

use crate::homes::Home;
use crate::writing_rows::{Layout, rows_text};
use app_faults::Fault;
use canvas_journal::look;
use canvas_lines::{report_text, write_out};
use canvas_shelf::Shelf;
use std::alloc::Global;
use std::io::Write;

/// Writes the rows of the document that a shelf holds. Writes nothing to the shelf.
///
/// The errors: `Device`, where the device failed; `Damaged`, for the first record that isn't what it has to be; `Memory`; and `Stream`,
/// where the output failed.
pub fn show_rows_of<S: Shelf, W: Write>(
    alloc: Global,
    shelf: &mut S,
    layout: Layout,
    output: &mut W,
) -> Result<(), Fault>
    ensures found { IsTrue (S.honest shelf.old) → OnOk result (WritesRowsOf (S.disk shelf.old) layout (W.contents output.old) (W.contents output.new)) }
    ensures form { OnOk result (WritesRows layout (W.contents output.old) (W.contents output.new)) }
    ensures damaged { IsTrue (S.honest shelf.old) → (n : ℕ) (at : ℕ) → IsErrOf result (Fault.Damaged n at) → Finds (seen (S.disk shelf.old)) (IsDamaged n at) }
    ensures unwritten { IfErr result (λ fault. (fault ≡ Fault.Stream → ⊥) → W.contents output.new ≡ W.contents output.old) }
    ensures disk { IsTrue (S.honest shelf.old) → (S.disk shelf.new ≡ S.disk shelf.old) × (S.past shelf.new ≡ S.past shelf.old) }
    ensures honest { S.honest shelf.new ≡ S.honest shelf.old }
{
    let (state, _version) = look(alloc, shelf)?;
    let text = rows_text(alloc, state.doc(), layout)?;
    write_out(output, &text)?;
    Ok(())
}

/// Writes the rows of the document that is kept there. Writes nothing to it, and a server may have it meanwhile.
///
/// The errors are those of `show_rows_of` and of `Home::look`.
pub fn show_rows<S: Shelf + Drop, H: Home<S>, W: Write>(
    alloc: Global,
    home: &mut H,
    layout: Layout,
    output: &mut W,
) -> Result<(), Fault>
    ensures found { IsTrue (H.honest home.old) → OnOk result (WritesRowsOf (H.disk home.old) layout (W.contents output.old) (W.contents output.new)) }
    ensures form { OnOk result (WritesRows layout (W.contents output.old) (W.contents output.new)) }
    ensures damaged { IsTrue (H.honest home.old) → (n : ℕ) (at : ℕ) → IsErrOf result (Fault.Damaged n at) → Finds (seen (H.disk home.old)) (IsDamaged n at) }
    ensures unwritten { IfErr result (λ fault. (fault ≡ Fault.Stream → ⊥) → W.contents output.new ≡ W.contents output.old) }
{
    let mut shelf = home.look(alloc)?;
    match show_rows_of(alloc, &mut shelf, layout, output) {
        Ok(()) => Ok(()),
        Err(fault) => Err(home.explain(fault)),
    }
}

/// Writes the version and the tree of the document that a shelf holds, as `report_text` says it. Writes nothing to the shelf.
///
/// The errors are those of `show_rows_of`.
pub fn show_tree_of<S: Shelf, W: Write>(
    alloc: Global,
    shelf: &mut S,
    output: &mut W,
) -> Result<(), Fault>
    ensures found { IsTrue (S.honest shelf.old) → OnOk result (WritesTreeOf (S.disk shelf.old) (W.contents output.old) (W.contents output.new)) }
    ensures form { OnOk result (WritesReport (W.contents output.old) (W.contents output.new)) }
    ensures damaged { IsTrue (S.honest shelf.old) → (n : ℕ) (at : ℕ) → IsErrOf result (Fault.Damaged n at) → Finds (seen (S.disk shelf.old)) (IsDamaged n at) }
    ensures unwritten { IfErr result (λ fault. (fault ≡ Fault.Stream → ⊥) → W.contents output.new ≡ W.contents output.old) }
    ensures disk { IsTrue (S.honest shelf.old) → (S.disk shelf.new ≡ S.disk shelf.old) × (S.past shelf.new ≡ S.past shelf.old) }
    ensures honest { S.honest shelf.new ≡ S.honest shelf.old }
{
    let (state, version) = look(alloc, shelf)?;
    let text = report_text(alloc, version, state.doc())?;
    write_out(output, &text)?;
    Ok(())
}

/// Writes the version and the tree of the document that is kept there. Writes nothing to it, and a server may have it meanwhile.
///
/// The errors are those of `show_tree_of` and of `Home::look`.
pub fn show_tree<S: Shelf + Drop, H: Home<S>, W: Write>(
    alloc: Global,
    home: &mut H,
    output: &mut W,
) -> Result<(), Fault>
    ensures found { IsTrue (H.honest home.old) → OnOk result (WritesTreeOf (H.disk home.old) (W.contents output.old) (W.contents output.new)) }
    ensures form { OnOk result (WritesReport (W.contents output.old) (W.contents output.new)) }
    ensures damaged { IsTrue (H.honest home.old) → (n : ℕ) (at : ℕ) → IsErrOf result (Fault.Damaged n at) → Finds (seen (H.disk home.old)) (IsDamaged n at) }
    ensures unwritten { IfErr result (λ fault. (fault ≡ Fault.Stream → ⊥) → W.contents output.new ≡ W.contents output.old) }
{
    let mut shelf = home.look(alloc)?;
    match show_tree_of(alloc, &mut shelf, output) {
        Ok(()) => Ok(()),
        Err(fault) => Err(home.explain(fault)),
    }
}
