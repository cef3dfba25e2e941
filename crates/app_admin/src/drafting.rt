// A new folder's segment, made whole in a hidden folder and then put in its place.
use crate::planting::plant;
use app_faults::Fault;
use canvas_folder::DirShelf;
use canvas_judge::State;
use std::alloc::{AllocError, Global};
use std::fs::{self, File};
use std::io::{self, ErrorKind};
use std::rt::Files;

// The hidden folder, and the first segment's file.
const DRAFT: &str = ".new";

const SEGMENT: &str = "segment-0000000001";

// The sum of an identity that isn't there any more.
const IDENTITY_SUM: &str = "identity.sum";

/// Puts a state and its version into the folder of this path, which holds nothing of a document, as its first segment. The segment is made
/// and synced in a hidden folder there, and then renamed: so a crash leaves all of it, or nothing that is opened. What an earlier one left is
/// removed first, and so are sums under the segment's name, and the sum of an identity.
///
/// The errors: `TooLarge`, if the checkpoint can't be written; `InUse`, if another makes a draft there; `Device`; `Memory`.
pub(crate) fn plant_whole<R: Files<File = File> + AllocGlobal + Clone + Drop>(
    files: &R,
    path: &str,
    state: &State,
    version: u64,
) -> Result<(), Fault> {
    let alloc = files.alloc();
    let draft = within(alloc, path, DRAFT)?;
    clear(files, &draft)?;
    make(files, &draft, state, version)?;
    match put_in_place(files, path, &draft) {
        Ok(()) => Ok(()),
        Err(error) => Err(Fault::from(error)),
    }
}

// Makes the segment in a folder of its own.
fn make<R: Files<File = File> + AllocGlobal + Clone + Drop>(
    files: &R,
    draft: &str,
    state: &State,
    version: u64,
) -> Result<(), Fault> {
    let mut shelf = DirShelf::new(files.clone()?, draft)?;
    plant(files.alloc(), &mut shelf, state, version)
}

// Removes what an earlier one left of a draft.
fn clear<R: Files<File = File> + AllocGlobal>(files: &R, draft: &str) -> Result<(), Fault> {
    let segment = within(files.alloc(), draft, SEGMENT)?;
    for done in [
        removed(fs::remove_file(files, &segment)),
        removed(fs::remove_dir(files, draft)),
    ] {
        if let Err(error) = done {
            return Err(Fault::from(error));
        }
    }
    Ok(())
}

// That something was removed, or wasn't there.
fn removed(done: io::Result<()>) -> io::Result<()> {
    match done {
        Err(error) if error.kind() != ErrorKind::NotFound => Err(error),
        _ => Ok(()),
    }
}

// Renames the segment to its place, makes sure of that, and removes the hidden folder.
fn put_in_place<R: Files<File = File> + AllocGlobal>(
    files: &R,
    path: &str,
    draft: &str,
) -> io::Result<()> {
    let alloc = files.alloc();
    let place = within(alloc, path, SEGMENT)?;
    removed(fs::remove_file(files, &sums_of(alloc, &place)?))?;
    removed(fs::remove_file(files, &within(alloc, path, IDENTITY_SUM)?))?;
    fs::rename(files, within(alloc, draft, SEGMENT)?, &place)?;
    fs::open(files, path)?.sync_all()?;
    // What stays of it does no harm: nothing opens it, and the next draft removes it.
    let _ = fs::remove_dir(files, draft);
    Ok(())
}

// The path of the sums of a segment.
fn sums_of(alloc: Global, segment: &str) -> Result<String, AllocError> {
    format!(in alloc; "{segment}.sum")
}

// The path of what a folder holds under this name.
fn within(alloc: Global, folder: &str, name: &str) -> Result<String, AllocError> {
    format!(in alloc; "{folder}/{name}")
}
