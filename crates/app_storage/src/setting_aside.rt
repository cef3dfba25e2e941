// What crashes left of checkpoints, which is removed before anything is written to a folder.
ghost use Rattle.std.specs.Prelude.{IfErr, IfOk, IsTrue, Option};
ghost use Rattle.canvas_shelf.specs.Disk.{seen};
ghost use Rattle.canvas_journal.specs.Found.{Finds, IsState};
ghost use Rattle.canvas_journal.specs.Meaning.{Versioned};
ghost use Rattle.app_admin.specs.Torn.{AreRemovable};
ghost use Rattle.disk_integrity.specs.declared.trace.Trace.{Trace};
ghost use Rattle.app_storage.specs.Faults.{IsLossFault};

use crate::guarding::{fault_of_looking, trace_of};
use app_admin::{FolderSums, removable_segments};
use app_faults::Fault;
use app_identity::read_identity;
use canvas_folder::DirShelf;
use canvas_shelf::Shelf;
use std::fs::{self, DirEntry};
use std::io::{self, ErrorKind};

/// Sets aside what crashes left of checkpoints: the segments of a folder above the one that recovery takes (`removable_segments`), whose room the
/// next checkpoint needs. The folder is made if it is missing, and locked meanwhile. One whose opening would lose something, or whose identity
/// can't be read, isn't changed: whoever opens it is told.
///
/// Each segment is renamed to `segment-NUMBER.torn`, and this is made certain, so that no crash brings the old name back: a crash leaves the
/// segment as it was, or none. `remove_torn` removes the files.
///
/// The errors: `InUse`; `Denied`, `AboveDenied`, `NoDescriptor`, `NoRoom` and `Device`, as of `OsFolder::new`, and `Device` if the folder can't be
/// locked, read or written; `Damaged`, for the first record that isn't what it has to be; `TooLarge`, as of `find_loss`; and `Memory`.
pub fn set_torn_aside(files: &HostRuntime, dir: &str) -> Result<(), Fault>
    ensures { IfErr result IsLossFault }
{
    let mut shelf = DirShelf::new(*files, dir)?;
    let path = shelf.folder().path()?;
    if read_identity(files, &path).is_err() {
        return Ok(());
    }
    let torn = torn_in(files, &path, &mut shelf)?;
    set_aside(files, &path, &torn)
}

/// Removes the segments of a folder that were set aside, now or by a server that was killed. If one can't be removed, the next start tries
/// again.
pub fn remove_torn(files: &HostRuntime, dir: &str) {
    let _ = remove_set_aside(files, dir);
}

// The segments that are to be removed.
fn torn_in<S: Shelf>(files: &HostRuntime, dir: &str, shelf: &mut S) -> Result<Vec<u32>, Fault>
    ensures torn { IsTrue (S.honest shelf.old) → (s : Versioned) → Finds (seen (S.disk shelf.old)) (IsState s) →
        IfOk result (λ torn. (trace : Option Trace) × AreRemovable (S.disk shelf.old) trace torn.items) }
    ensures faults { IfErr result IsLossFault }
{
    let trace = trace_of(files, dir)?;
    let sums = FolderSums { files, dir };
    match removable_segments(files.alloc(), shelf, &sums, trace) {
        Ok(torn) => Ok(torn),
        Err(fault) => Err(fault_of_looking(fault)),
    }
}

// Renames these segments, and makes certain of that.
fn set_aside(files: &HostRuntime, dir: &str, torn: &[u32]) -> Result<(), Fault>
    ensures { IfErr result IsLossFault }
{
    if torn.is_empty() {
        return Ok(());
    }
    match rename_all(files, dir, torn) {
        Ok(()) => Ok(()),
        Err(error) => Err(fault_of_looking(Fault::from(error))),
    }
}

// Renames these segments, and syncs the folder.
fn rename_all(files: &HostRuntime, dir: &str, torn: &[u32]) -> io::Result<()> {
    for number in torn {
        rename_one(files, dir, *number)?;
    }
    fs::open(files, dir)?.sync_all()
}

// Removes the sums of a segment, if there are any, and renames it. They name none of its bytes, as it was never synced.
fn rename_one(files: &HostRuntime, dir: &str, number: u32) -> io::Result<()> {
    let alloc = files.alloc();
    let segment = format!(in alloc; "{dir}/segment-{number:010}")?;
    let sums = format!(in alloc; "{segment}.sum")?;
    let aside = format!(in alloc; "{segment}.torn")?;
    match fs::remove_file(files, &sums) {
        Err(error) if error.kind() != ErrorKind::NotFound => Err(error),
        _ => fs::rename(files, &segment, &aside),
    }
}

// Removes the files of renamed segments.
fn remove_set_aside(files: &HostRuntime, dir: &str) -> io::Result<()> {
    for entry in fs::read_dir(files, dir)? {
        remove_if_set_aside(files, dir, entry)?;
    }
    Ok(())
}

// Removes a file, if it is a renamed segment. A name that isn't text is passed over.
fn remove_if_set_aside(
    files: &HostRuntime,
    dir: &str,
    entry: io::Result<DirEntry<HostRuntime>>,
) -> io::Result<()> {
    match entry {
        Ok(entry) if is_set_aside(entry.file_name()) => {
            let name = entry.file_name();
            fs::remove_file(files, &format!(in files.alloc(); "{dir}/{name}")?)
        }
        Err(error) if error.kind() != ErrorKind::InvalidFilename => Err(error),
        _ => Ok(()),
    }
}

// Checks whether a file of this name is a renamed segment.
fn is_set_aside(name: &str) -> bool {
    match name.strip_prefix("segment-") {
        Some(rest) => rest.ends_with(".torn"),
        None => false,
    }
}
