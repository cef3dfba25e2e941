// A folder's first segment.
ghost use Rattle.std.specs.Prelude.{◌≡◌, ◌∷◌, [], true, IfErr, IsErrOf, IsTrue, OnOk};
ghost use Rattle.canvas_shelf.specs.Disk.{Content, Image, seen, top_is_listed};
ghost use Rattle.canvas_journal.specs.Found.{Finds, IsState};
ghost use Rattle.canvas_journal.specs.OnDisk.{on_top};

use crate::checkpoints::checkpoint_bytes;
use app_faults::Fault;
use canvas_journal::look;
use canvas_judge::State;
use canvas_shelf::Shelf;
use std::alloc::Global;

/// Puts a checkpoint of a state and its version into a shelf that lists no segment, and makes sure of it: it is what is found there from
/// now on, also after a crash. It reads what it wrote before it says so.
///
/// The errors: `Taken`, where a segment is listed, and then nothing was written; `TooLarge`, where the checkpoint can't be written; `Device`,
/// where the device failed, or what is read isn't what was written; `Damaged`, where it is no journal; `Memory`.
pub fn plant<S: Shelf>(
    alloc: Global,
    shelf: &mut S,
    state: &State,
    version: u64,
) -> Result<(), Fault>
    requires { IsTrue (S.honest shelf.old) → top_is_listed (S.disk shelf.old) ≡ true }
    ensures found { IsTrue (S.honest shelf.old) → OnOk result (Finds (seen (S.disk shelf.new)) (IsState (state.now, version))) }
    ensures crash { IsTrue (S.honest shelf.old) → OnOk result ((left : Content) → Image (S.disk shelf.new) left → Finds left (IsState (state.now, version))) }
    ensures taken { IsTrue (S.honest shelf.old) → IsErrOf result Fault.Taken → S.disk shelf.new ≡ S.disk shelf.old }
    ensures honest { S.honest shelf.new ≡ S.honest shelf.old }
{
    let listed = shelf.list(alloc)?;
    if !listed.is_empty() {
        return Err(Fault::Taken);
    }
    let bytes = checkpoint_bytes(alloc, state, version)?;
    begin(shelf, &bytes)?;
    let (found, at) = look(alloc, shelf)?;
    if at == version && found.same(state) {
        Ok(())
    } else {
        Err(Fault::Device)
    }
}

// Makes the first segment of a shelf without segments, with these bytes, and makes sure of it.
fn begin<S: Shelf>(shelf: &mut S, bytes: &[u8]) -> Result<(), Fault>
    requires { IsTrue (S.honest shelf.old) → S.disk shelf.old ≡ [] }
    ensures disk { IsTrue (S.honest shelf.old) → OnOk result (S.disk shelf.new ≡ on_top 1 bytes.now bytes.now ∷ []) }
    ensures faults { IfErr result (λ fault. fault ≡ Fault.Taken → ⊥) }
    ensures honest { S.honest shelf.new ≡ S.honest shelf.old }
{
    shelf.create(1)?;
    shelf.append(1, bytes)?;
    shelf.sync(1)?;
    Ok(())
}
