// Calls of the system on files and folders.
use crate::fault::OsFault;
use std::alloc::{AllocError, Allocator, Global};
use std::fs::{DirEntry, File, Metadata, OpenOptions, ReadDir, TryLockError};
use std::io::{ErrorKind, Read, Write};
use std::rt::Files;
use std::{fs, io};

// Nothing but a regular file is opened.
fn require_file(found: io::Result<Metadata>) -> Result<(), OsFault> {
    match found {
        Ok(found) if found.is_file() => Ok(()),
        Ok(_) => Err(OsFault::Device),
        Err(e) => Err(OsFault::from(e)),
    }
}

// Opens a file.
pub(crate) fn open<R: Files<File = File>>(
    files: &R,
    how: &OpenOptions,
    path: &str,
) -> Result<File, OsFault> {
    match how.open(files, path) {
        Ok(file) => Ok(file),
        Err(e) => Err(OsFault::from(e)),
    }
}

// The same, where it stands: opening a pipe may wait for its other end, so what it is comes first.
pub(crate) fn open_regular<R: Files<File = File>>(
    files: &R,
    how: &OpenOptions,
    path: &str,
) -> Result<File, OsFault> {
    require_file(fs::symlink_metadata(files, path))?;
    let file = open(files, how, path)?;
    require_file(file.metadata())?;
    Ok(file)
}

// Opens a folder.
pub(crate) fn open_folder<R: Files<File = File>>(files: &R, path: &str) -> Result<File, OsFault> {
    match fs::open(files, path) {
        Ok(folder) => Ok(folder),
        Err(e) => Err(OsFault::from(e)),
    }
}

// Locks a folder that was opened. None where another has its lock.
pub(crate) fn lock(folder: File) -> Result<Option<File>, OsFault> {
    match folder.try_lock() {
        Ok(()) => Ok(Some(folder)),
        Err(TryLockError::WouldBlock) => Ok(None),
        Err(TryLockError::Error(e)) => Err(OsFault::from(e)),
    }
}

// Adds the bytes of a file.
pub(crate) fn read_all<A: Allocator>(
    mut file: File,
    bytes: &mut Vec<u8, A>,
) -> Result<(), OsFault> {
    match file.read_to_end(bytes) {
        Ok(_) => Ok(()),
        Err(e) => Err(OsFault::from(e)),
    }
}

// Puts bytes at the end of a file.
pub(crate) fn write(file: &mut File, bytes: &[u8]) -> Result<(), OsFault> {
    match file.write_all(bytes) {
        Ok(()) => Ok(()),
        Err(e) => Err(OsFault::from(e)),
    }
}

// Syncs a file or a folder.
pub(crate) fn sync(file: &File) -> Result<(), OsFault> {
    match file.sync_all() {
        Ok(()) => Ok(()),
        Err(e) => Err(OsFault::from(e)),
    }
}

// Fails where there is no folder that can be read and searched.
pub(crate) fn require_folder<R: Files<File = File> + AllocGlobal + Clone + Drop>(
    files: &R,
    path: &str,
) -> Result<(), OsFault> {
    if let Err(e) = fs::read_dir(files, path) {
        return Err(OsFault::from(e));
    }
    let inside = format!(in files.alloc(); "{path}/.")?;
    match fs::symlink_metadata(files, inside.as_str()) {
        Ok(_) => Ok(()),
        Err(e) => Err(OsFault::from(e)),
    }
}

// Fails where a folder can't be open four times at once: as many descriptors are needed beside those of the folders above, for its lock, for
// two segments, and for what stands beside them.
pub(crate) fn require_descriptors<R: Files<File = File>>(
    files: &R,
    path: &str,
) -> Result<(), OsFault> {
    let _lock = open_folder(files, path)?;
    let _segment = open_folder(files, path)?;
    let _former = open_folder(files, path)?;
    open_folder(files, path)?;
    Ok(())
}

// Adds a name.
fn add_name(alloc: Global, names: &mut Vec<String>, name: &str) -> Result<(), AllocError> {
    names.push(String::from_str(alloc, name)?)?;
    Ok(())
}

// Adds the name of what a folder holds. One that isn't text is passed over.
fn add_entry<R: Files + Drop>(
    alloc: Global,
    names: &mut Vec<String>,
    entry: io::Result<DirEntry<R>>,
) -> Result<(), OsFault> {
    match entry {
        Ok(entry) => Ok(add_name(alloc, names, entry.file_name())?),
        Err(e) if e.kind() == ErrorKind::InvalidFilename => Ok(()),
        Err(e) => Err(OsFault::from(e)),
    }
}

// Adds the names of all that a folder holds.
fn add_entries<R: Files + Clone + Drop>(
    alloc: Global,
    names: &mut Vec<String>,
    entries: ReadDir<R, Global>,
) -> Result<(), OsFault> {
    for entry in entries {
        add_entry(alloc, names, entry)?;
    }
    Ok(())
}

// Adds the names of all that the folder of a path holds. One that isn't text is passed over.
pub(crate) fn add_names<R: Files<File = File> + AllocGlobal + Clone + Drop>(
    files: &R,
    path: &str,
    names: &mut Vec<String>,
) -> Result<(), OsFault> {
    match fs::read_dir(files, path) {
        Ok(entries) => add_entries(files.alloc(), names, entries),
        Err(e) => Err(OsFault::from(e)),
    }
}
