//! Journals in folders.
use canvas_folder::{DirShelf, OsFolder};
use canvas_journal::look;
use std::fs;
use std::fs::File;
use std::rt::Files;
use std::test::Fail;

/// A shelf on a folder, which is made.
pub fn shelf_in<R: Files<File = File> + AllocGlobal + Clone + Drop>(
    rt: &R,
    folder: &str,
) -> Result<DirShelf<OsFolder<R>>, Fail> {
    Ok(DirShelf::new(rt.clone()?, folder)?)
}

/// The version that a folder's journal is found to hold.
pub fn version_in<R: Files<File = File> + AllocGlobal + Clone + Drop>(
    rt: &R,
    folder: &str,
) -> Result<u64, Fail> {
    let mut shelf = DirShelf::existing(rt.clone()?, folder)?;
    match look(rt.alloc(), &mut shelf) {
        Ok((_, version)) => Ok(version),
        Err(_) => Err(Fail::from("a folder that isn't read")),
    }
}

/// Removes a folder of this test, where it is there.
pub fn remove<R: Files + AllocGlobal>(rt: &R, folder: &str) {
    let _ = fs::remove_dir_all(rt, folder);
}
