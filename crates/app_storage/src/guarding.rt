// What is done before a folder is opened: whether that would lose something, and then a copy of what is there.
ghost use Rattle.std.specs.Prelude.{◌≡◌, ◌++◌, false, IfErr, IfOk, IsTrue, None, OnOk, Option};
ghost use Rattle.canvas_shelf.specs.Disk.{numbers, seen};
ghost use Rattle.app_admin.specs.Losing.{TellsLoss};
ghost use Rattle.disk_integrity.specs.declared.trace.Trace.{Trace};
ghost use Rattle.app_storage.specs.Faults.{IsLossFault, fault_of_looking};

use crate::copies::{Copies, NewCopies, begin, put_in_place};
use app_admin::{FolderSums, find_loss, trace_in};
use app_faults::Fault;
use app_identity::{IdentityError, read_identity, remove_identity};
use canvas_shelf::Shelf;
use disk_integrity::{Loss, Trace};
use std::alloc::Global;

/// Looks whether opening a folder would lose something. If that is accepted, the segments are copied to its folder `lost` first, which is there
/// whole or not at all; nothing else is changed, but that the identity of a document that has gone is removed: what is served then is another
/// document. A folder `lost` that holds nothing but beginnings of these segments, as a killed one leaves it, is replaced.
///
/// The errors: `Lost`, if it isn't accepted; `Identity` and `ChangedIdentity`, if it is, and the identity isn't one or another than its
/// sum names, and then nothing was written; `NotKept`, if the copies can't be made, or those of an earlier loss are there, or the identity can't be
/// removed; `Device`, if the folder can't be read; `Damaged`, for the first record that isn't what it has to be; and `Memory`.
pub fn guard<S: Shelf>(
    files: &HostRuntime,
    dir: &str,
    shelf: &mut S,
    accept_loss: bool,
) -> Result<(), Fault>
    ensures whole { IsTrue (S.honest shelf.old) → OnOk result (accept_loss ≡ false → (trace : Option Trace) × TellsLoss (S.disk shelf.old) trace None) }
    ensures disk { IsTrue (S.honest shelf.old) → S.disk shelf.new ≡ S.disk shelf.old }
    ensures honest { S.honest shelf.new ≡ S.honest shelf.old }
    ensures faults { IfErr result IsLossFault }
{
    match loss_in(files, dir, shelf)? {
        None => Ok(()),
        Some(loss) if accept_loss => give_up(files, dir, shelf, loss),
        Some(loss) => Err(Fault::Lost { loss }),
    }
}

// What opening a folder would lose, if anything, by what is left of a document beside its segments.
fn loss_in<S: Shelf>(files: &HostRuntime, dir: &str, shelf: &mut S) -> Result<Option<Loss>, Fault>
    ensures found { IsTrue (S.honest shelf.old) → IfOk result (λ loss. (trace : Option Trace) × TellsLoss (S.disk shelf.old) trace loss) }
    ensures disk { IsTrue (S.honest shelf.old) → S.disk shelf.new ≡ S.disk shelf.old }
    ensures honest { S.honest shelf.new ≡ S.honest shelf.old }
    ensures faults { IfErr result IsLossFault }
{
    let trace = trace_of(files, dir)?;
    let sums = FolderSums { files, dir };
    match find_loss(files.alloc(), shelf, &sums, trace) {
        Ok(loss) => Ok(loss),
        Err(fault) => Err(fault_of_looking(fault)),
    }
}

/// What is left of a document beside the segments of a folder, if anything is.
pub(crate) fn trace_of(files: &HostRuntime, dir: &str) -> Result<Option<Trace>, Fault>
    ensures { IfErr result IsLossFault }
{
    match trace_in(files, dir) {
        Ok(trace) => Ok(trace),
        Err(fault) => Err(fault_of_looking(fault)),
    }
}

/// What a fault of looking at a folder is to a server of it: whatever only a command tells is a folder that can't be read.
pub(crate) fn fault_of_looking(fault: Fault) -> Fault
    ensures fault { result ≡ fault_of_looking fault }
    ensures loss { IsLossFault result }
{
    match fault {
        Fault::InUse
        | Fault::Denied
        | Fault::AboveDenied
        | Fault::NoDescriptor
        | Fault::NoRoom
        | Fault::Identity
        | Fault::ChangedIdentity
        | Fault::Damaged { .. }
        | Fault::TooLarge
        | Fault::NoSpace { .. }
        | Fault::Memory => fault,
        _ => Fault::Device,
    }
}

// Copies the segments, and removes the identity of a document that has gone. That of another must be one.
fn give_up<S: Shelf>(files: &HostRuntime, dir: &str, shelf: &mut S, loss: Loss) -> Result<(), Fault>
    ensures disk { IsTrue (S.honest shelf.old) → S.disk shelf.new ≡ S.disk shelf.old }
    ensures honest { S.honest shelf.new ≡ S.honest shelf.old }
    ensures faults { IfErr result IsLossFault }
{
    let Loss::Gone {
        trace: Trace::Identity,
    } = loss
    else {
        read_identity(files, dir)?;
        return keep(files, dir, shelf);
    };
    keep(files, dir, shelf)?;
    forget(files, dir)
}

// Removes the identity of a document that has gone.
fn forget(files: &HostRuntime, dir: &str) -> Result<(), Fault>
    ensures { IfErr result IsLossFault }
{
    match remove_identity(files, dir) {
        Ok(()) => Ok(()),
        Err(IdentityError::Memory) => Err(Fault::Memory),
        Err(_) => Err(Fault::NotKept),
    }
}

// Copies the segments to the folder `lost`: to a hidden one first, which is then renamed. If it is there,
// it may hold nothing that the segments don't.
fn keep<S: Shelf>(files: &HostRuntime, dir: &str, shelf: &mut S) -> Result<(), Fault>
    ensures disk { IsTrue (S.honest shelf.old) → S.disk shelf.new ≡ S.disk shelf.old }
    ensures honest { S.honest shelf.new ≡ S.honest shelf.old }
    ensures faults { IfErr result IsLossFault }
{
    let alloc = files.alloc();
    let lost = format!(in alloc; "{dir}/lost")?;
    let draft = format!(in alloc; "{dir}/.lost.new")?;
    begin(files, dir, &draft, &lost)?;
    let mut copies = NewCopies { files, dir: &draft };
    keep_all(alloc, shelf, &mut copies)?;
    put_in_place(files, dir, &draft, &lost)
}

/// Makes sure that there is a copy of each segment that a shelf lists, the highest first.
///
/// The errors: `NotKept`, as of `Copies::put`; `Device`, if a segment can't be read; `Memory`.
pub fn keep_all<S: Shelf, C: Copies>(
    alloc: Global,
    shelf: &mut S,
    copies: &mut C,
) -> Result<(), Fault>
    ensures disk { IsTrue (S.honest shelf.old) → S.disk shelf.new ≡ S.disk shelf.old }
    ensures honest { S.honest shelf.new ≡ S.honest shelf.old }
    ensures copies { IsTrue (S.honest shelf.old) → IsTrue (C.honest copies.old) → OnOk result (C.kept copies.new ≡ C.kept copies.old ++ seen (S.disk shelf.old)) }
    ensures faults { IfErr result IsLossFault }
{
    let listed = shelf.list(alloc)?;
    keep_each(alloc, shelf, &listed, copies)
}

// Makes sure that there is a copy of each of these segments.
fn keep_each<S: Shelf, C: Copies>(
    alloc: Global,
    shelf: &mut S,
    listed: &[u32],
    copies: &mut C,
) -> Result<(), Fault>
    requires { IsTrue (S.honest shelf.old) → listed.now ≡ numbers (S.disk shelf.old) }
    ensures disk { IsTrue (S.honest shelf.old) → S.disk shelf.new ≡ S.disk shelf.old }
    ensures honest { S.honest shelf.new ≡ S.honest shelf.old }
    ensures copies { IsTrue (S.honest shelf.old) → IsTrue (C.honest copies.old) → OnOk result (C.kept copies.new ≡ C.kept copies.old ++ seen (S.disk shelf.old)) }
    ensures faults { IfErr result IsLossFault }
{
    for number in listed {
        let bytes = shelf.read(alloc, *number)?;
        copies.put(*number, &bytes)?;
    }
    Ok(())
}
