// What stands in the segments of a folder that no crash leaves.
ghost use Rattle.std.specs.Prelude.{◌≡◌, IfOk, IsTrue};
ghost use Rattle.canvas_shelf.specs.Disk.{numbers, seen};
ghost use Rattle.app_admin.specs.Losing.{TellsLoss, content_of, number_taken};
ghost use Rattle.app_admin.specs.Taken.{source_of};

use crate::checkpoints::checkpoint_bytes;
use crate::taking::{Taken, take};
use app_faults::Fault;
use canvas_journal::look;
use canvas_shelf::Shelf;
use disk_integrity::{Listed, Loss, Trace, loss_of, read_sums};
use std::alloc::Global;
use std::fs::File;
use std::rt::Files;

/// Where the sums of segments are read.
pub trait SumSource {
    /// The bytes of the sums of this segment; none where it has none.
    ///
    /// Answers a fault where they are there and can't be read.
    fn sums(&self, number: u32) -> Result<Vec<u8>, Fault>;
}

/// The sums that stand in the files of a folder, beside its segments.
#[derive(Clone, Copy)]
pub struct FolderSums<'a, R: Files<File = File> + AllocGlobal> {
    /// What reads files.
    pub files: &'a R,
    /// The folder.
    pub dir: &'a str,
}

impl<R: Files<File = File> + AllocGlobal> SumSource for FolderSums<'_, R> {
    fn sums(&self, number: u32) -> Result<Vec<u8>, Fault> {
        match read_sums(self.files, self.dir, number) {
            Ok(sums) => Ok(sums),
            Err(error) => Err(Fault::from(error)),
        }
    }
}

/// What stands in the segments of a shelf that no crash leaves, if anything does: the first such loss from the highest segment down to the one
/// that recovery takes; or that recovery takes none, though `trace` is left of a document beside them (`disk_integrity::loss_of`, `trace_in`).
/// Writes nothing to the shelf.
///
/// Whoever opens a folder for writing asks this first: opening takes what it doesn't understand for what a crash left, and removes it.
///
/// The errors: `Device`, where the device failed, or sums can't be read; `Damaged`, as `look` finds it; `TooLarge`, where a text of the checkpoint
/// of what is found has 4 GiB; `Memory`.
pub fn find_loss<S: Shelf, N: SumSource>(
    alloc: Global,
    shelf: &mut S,
    sums: &N,
    trace: Option<Trace>,
) -> Result<Option<Loss>, Fault>
    ensures found { IsTrue (S.honest shelf.old) → IfOk result (TellsLoss (S.disk shelf.old) trace) }
    ensures disk { IsTrue (S.honest shelf.old) → (S.disk shelf.new ≡ S.disk shelf.old) × (S.past shelf.new ≡ S.past shelf.old) }
    ensures honest { S.honest shelf.new ≡ S.honest shelf.old }
{
    let listing = shelf.list(alloc)?;
    let listed = read_each(alloc, shelf, &listing, sums)?;
    let (state, version) = look(alloc, shelf)?;
    let taken = take(alloc, shelf)?;
    let checkpoint = checkpoint_bytes(alloc, &state, version)?;
    Ok(loss_of(&listed, taken_number(&taken), &checkpoint, trace))
}

/// The number of the segment that is taken, if one is.
pub(crate) fn taken_number(taken: &Option<Taken>) -> Option<u32>
    ensures { result ≡ number_taken (source_of taken.now) }
{
    match taken {
        Some(taken) => Some(taken.number),
        None => None,
    }
}

// These segments with their bytes and sums.
fn read_each<S: Shelf, N: SumSource>(
    alloc: Global,
    shelf: &mut S,
    listing: &[u32],
    sums: &N,
) -> Result<Vec<Listed>, Fault>
    requires { IsTrue (S.honest shelf.old) → listing.now ≡ numbers (S.disk shelf.old) }
    ensures content { IsTrue (S.honest shelf.old) → IfOk result (λ listed. content_of listed.items ≡ seen (S.disk shelf.old)) }
    ensures disk { IsTrue (S.honest shelf.old) → (S.disk shelf.new ≡ S.disk shelf.old) × (S.past shelf.new ≡ S.past shelf.old) }
    ensures honest { S.honest shelf.new ≡ S.honest shelf.old }
{
    let mut listed = Vec::new(alloc);
    for number in listing {
        // In this order: a server may lengthen both, the segment first.
        let sums = sums.sums(*number)?;
        let bytes = shelf.read(alloc, *number)?;
        let number = *number;
        listed.push(Listed {
            number,
            bytes,
            sums,
        })?;
    }
    Ok(listed)
}
