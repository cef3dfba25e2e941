// Copies of the segments of a folder that has lost something.
ghost use Rattle.std.specs.Prelude.{◌≡◌, ◌++◌, [], ◌∷◌, Bool, false, IfErr, IsTrue, OnOk};
ghost use Rattle.canvas_shelf.specs.Disk.{Content};
ghost use Rattle.app_storage.specs.Faults.{IsLossFault};

use app_faults::Fault;
use std::alloc::Global;
use std::fs::{self, File, ReadDir};
use std::io::{self, ErrorKind, Read, Write};

/// A place for copies of segments.
///
/// Contracts see it as `kept`, the segments that have copies, with their bytes, and say so of an honest one alone.
pub trait Copies {
    /// The copies that are there, the one that was made first in front.
    ghost kept: { Self → Content };

    /// It holds what it was given.
    ghost honest: { Self → Bool };

    /// Makes sure that there is a copy of this segment.
    ///
    /// Fails with NotKept if it can't be made, or another is there, and with Memory if memory runs out.
    fn put(&mut self, number: u32, bytes: &[u8]) -> Result<(), Fault>
        ensures kept { IsTrue (honest self.old) → OnOk result (kept self.new ≡ kept self.old ++ (number, bytes.now) ∷ []) }
        ensures honest { honest self.new ≡ honest self.old }
        ensures faults { IfErr result IsLossFault };
}

/// A folder of the process that gets copies, as files that weren't there. Nothing is claimed of what it holds.
#[derive(Drop)]
pub(crate) struct NewCopies<'a> {
    /// What makes files.
    pub(crate) files: &'a HostRuntime,
    /// The folder.
    pub(crate) dir: &'a str,
}

impl Copies for NewCopies<'_> {
    ghost kept = { λ s. [] };

    ghost honest = { λ s. false };

    fn put(&mut self, number: u32, bytes: &[u8]) -> Result<(), Fault> {
        kept(write_new(self.files, self.dir, number, bytes))
    }
}

/// Makes an empty hidden folder of copies, in place of what a killed one left of it.
///
/// Fails with NotKept if it can't be made, or if the folder of copies is there and holds what its folder doesn't hold too, as those of an
/// earlier loss; and with Memory if memory runs out.
pub(crate) fn begin(files: &HostRuntime, dir: &str, draft: &str, lost: &str) -> Result<(), Fault>
    ensures { IfErr result IsLossFault }
{
    kept(require_part(files, dir, lost))?;
    kept(begin_anew(files, draft))
}

/// Puts the hidden folder of copies in its place, whole and certain. What is there holds nothing that it doesn't hold too.
pub(crate) fn put_in_place(
    files: &HostRuntime,
    dir: &str,
    draft: &str,
    lost: &str,
) -> Result<(), Fault>
    ensures { IfErr result IsLossFault }
{
    kept(require_part(files, draft, lost))?;
    kept(rename_certainly(files, dir, draft, lost))
}

// Writes bytes to a file that wasn't there, and syncs it.
fn write_new(files: &HostRuntime, dir: &str, number: u32, bytes: &[u8]) -> io::Result<()> {
    let path = format!(in files.alloc(); "{dir}/segment-{number:010}")?;
    let mut file = File::create_new(files, &path)?;
    file.write_all(bytes)?;
    file.sync_all()
}

// Fails if a folder of copies holds what that other folder doesn't: the file of each name there must begin with the copy.
fn require_part(files: &HostRuntime, whole: &str, lost: &str) -> io::Result<()> {
    let alloc = files.alloc();
    for name in &names_in(files, lost)? {
        let held = read(files, &format!(in alloc; "{whole}/{name}")?)?;
        let copy = read(files, &format!(in alloc; "{lost}/{name}")?)?;
        if !held.starts_with(&copy) {
            return Err(io::Error::from(ErrorKind::InvalidData));
        }
    }
    Ok(())
}

// The bytes of a file, and of nothing else.
fn read(files: &HostRuntime, path: &str) -> io::Result<Vec<u8>> {
    if !fs::symlink_metadata(files, path)?.is_file() {
        return Err(io::Error::from(ErrorKind::InvalidData));
    }
    let mut bytes = Vec::new(files.alloc());
    fs::open(files, path)?.read_to_end(&mut bytes)?;
    Ok(bytes)
}

// Makes an empty folder, in place of what is there of an earlier one.
fn begin_anew(files: &HostRuntime, draft: &str) -> io::Result<()> {
    clear(files, draft)?;
    fs::create_dir(files, draft)
}

// Removes a folder of copies, if there is one.
fn clear(files: &HostRuntime, folder: &str) -> io::Result<()> {
    for name in &names_in(files, folder)? {
        let path = format!(in files.alloc(); "{folder}/{name}")?;
        fs::remove_file(files, &path)?;
    }
    match fs::remove_dir(files, folder) {
        Err(error) if error.kind() != ErrorKind::NotFound => Err(error),
        _ => Ok(()),
    }
}

// The names of a folder's files; none if it isn't there. No link to one is followed.
fn names_in(files: &HostRuntime, folder: &str) -> io::Result<Vec<String>> {
    let alloc = files.alloc();
    let mut names = Vec::new(alloc);
    match fs::symlink_metadata(files, folder) {
        Ok(found) if found.is_dir() => add_names(alloc, &mut names, fs::read_dir(files, folder)?)?,
        Ok(_) => return Err(io::Error::from(ErrorKind::InvalidData)),
        Err(error) if error.kind() == ErrorKind::NotFound => {}
        Err(error) => return Err(error),
    }
    Ok(names)
}

// Adds the names of a folder's files.
fn add_names(
    alloc: Global,
    names: &mut Vec<String>,
    entries: ReadDir<HostRuntime, Global>,
) -> io::Result<()> {
    for entry in entries {
        let entry = entry?;
        names.push(String::from_str(alloc, entry.file_name())?)?;
    }
    Ok(())
}

// Renames a folder whose files are synced, and makes certain of that.
fn rename_certainly(files: &HostRuntime, dir: &str, draft: &str, lost: &str) -> io::Result<()> {
    fs::open(files, draft)?.sync_all()?;
    clear(files, lost)?;
    fs::rename(files, draft, lost)?;
    fs::open(files, dir)?.sync_all()
}

// What a call of the system did about a copy.
fn kept(done: io::Result<()>) -> Result<(), Fault>
    ensures { IfErr result IsLossFault }
{
    match done {
        Ok(()) => Ok(()),
        Err(error) => Err(not_kept(error.kind())),
    }
}

// What it means that a copy can't be made.
fn not_kept(kind: ErrorKind) -> Fault
    ensures { IsLossFault result }
{
    match kind {
        ErrorKind::OutOfMemory => Fault::Memory,
        _ => Fault::NotKept,
    }
}
