// The folders above one.
use crate::fault::OsFault;
use crate::path::FolderPath;
use crate::system_calls::{open_folder, require_folder, sync};
use std::fs;
use std::fs::File;
use std::io::ErrorKind;
use std::rt::Files;

// Opens the folder that holds this one.
fn open_above<R: Files<File = File> + AllocGlobal>(files: &R, path: &str) -> Result<File, OsFault> {
    let above = format!(in files.alloc(); "{path}/..")?;
    match open_folder(files, above.as_str()) {
        Ok(folder) => Ok(folder),
        Err(fault) => Err(fault.above()),
    }
}

// Adds the folder that holds this one, opened.
fn add_above<R: Files<File = File> + AllocGlobal>(
    files: &R,
    path: &str,
    above: &mut Vec<File>,
) -> Result<(), OsFault> {
    let one = open_above(files, path)?;
    match above.push(one) {
        Ok(()) => Ok(()),
        Err(_) => Err(OsFault::Memory),
    }
}

// Makes a folder. It may stand there by now.
fn make<R: Files>(files: &R, path: &str) -> Result<bool, OsFault> {
    match fs::create_dir(files, path) {
        Ok(()) => Ok(true),
        Err(e) if e.kind() == ErrorKind::AlreadyExists => Ok(true),
        Err(e) => Err(OsFault::from(e).above()),
    }
}

// Checks whether there is a folder. Fails if the folders above it can't be searched.
pub(crate) fn is_there<R: Files>(files: &R, path: &str) -> Result<bool, OsFault> {
    match fs::exists(files, path) {
        Ok(is_there) => Ok(is_there),
        Err(e) => Err(OsFault::from(e).above()),
    }
}

// Makes a folder where it is missing, and tells whether it was.
fn make_one<R: Files>(files: &R, path: &str) -> Result<bool, OsFault> {
    if is_there(files, path)? {
        Ok(false)
    } else {
        make(files, path)
    }
}

// Makes a folder above where it is missing, and adds then the one that holds it.
fn make_above<R: Files<File = File> + AllocGlobal>(
    files: &R,
    path: &str,
    above: &mut Vec<File>,
) -> Result<(), OsFault> {
    if make_one(files, path)? {
        add_above(files, path, above)?;
    }
    Ok(())
}

// Makes a folder where it is missing, with those above it. Adds each folder that holds one that was missing, the highest first, and
// the one that holds this one in any case. If this one can't be read, that is its own fault, so it is looked at before the one that holds it.
pub(crate) fn make_all<R: Files<File = File> + AllocGlobal + Clone + Drop>(
    files: &R,
    path: &str,
    above: &mut Vec<File>,
) -> Result<(), OsFault> {
    for end in 1..path.len() {
        if let Some((front, rest)) = path.split_at_checked(end) {
            if rest.starts_with('/') {
                make_above(files, front, above)?;
            }
        }
    }
    make_one(files, path)?;
    require_folder(files, path)?;
    add_above(files, path, above)
}

// Opens the folder above, where none was opened when this one was made.
fn know_above<R: Files<File = File> + AllocGlobal>(
    files: &R,
    path: &mut FolderPath,
    above: &mut Vec<File>,
) -> Result<(), OsFault> {
    if above.is_empty() {
        add_above(files, path.folder()?, above)?;
    }
    Ok(())
}

// Syncs the folders above, the highest first.
pub(crate) fn sync_all<R: Files<File = File> + AllocGlobal>(
    files: &R,
    path: &mut FolderPath,
    above: &mut Vec<File>,
) -> Result<(), OsFault> {
    know_above(files, path, above)?;
    for one in above.as_slice() {
        sync(one)?;
    }
    Ok(())
}
