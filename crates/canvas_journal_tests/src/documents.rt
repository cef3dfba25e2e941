//! Folders as shelves, calls that are made of them, and what they hold.
ghost use Rattle.std.specs.Prelude.{◌≡◌, false};

use canvas_folder::{DirShelf, OsFolder};
use canvas_shelf::{CreateError, Shelf, ShelfError};
use std::alloc::Global;
use std::fs;
use std::test::Fail;

/// A call of a shelf.
#[derive(Clone, Copy)]
pub enum Call<'a> {
    /// Makes a segment.
    Create(u32),
    /// Makes a segment, which the device refuses.
    Refused(u32),
    /// Puts bytes at the end of a segment.
    Append(u32, &'a [u8]),
    /// Makes sure of a segment.
    Sync(u32),
    /// Takes a segment off the list.
    Retire(u32),
    /// Reads a segment, which has these bytes.
    Read(u32, &'a [u8]),
    /// Reads a segment, which the device refuses.
    Unread(u32),
    /// Lists the segments: these, the first one highest.
    Lists(&'a [u32]),
    /// Reads all that is listed: these segments with these bytes, the first one highest.
    Holds(&'a [(u32, &'a [u8])]),
}

/// What a folder's shelf is opened for.
#[derive(Clone, Copy)]
pub enum Access {
    /// All calls.
    Writing,
    /// Its list and its bytes: all calls that would change something fail.
    Reading,
}

/// The shelf of a folder, opened for that.
pub fn shelf_for(
    rt: &HostRuntime,
    folder: &str,
    access: Access,
) -> Result<DirShelf<OsFolder<HostRuntime>>, Fail> {
    match access {
        Access::Writing => Ok(DirShelf::new(rt.clone()?, folder)?),
        Access::Reading => Ok(DirShelf::existing(rt.clone()?, folder)?),
    }
}

/// The shelf of a folder.
pub fn shelf_in(rt: &HostRuntime, folder: &str) -> Result<DirShelf<OsFolder<HostRuntime>>, Fail> {
    shelf_for(rt, folder, Access::Writing)
}

/// Makes a folder anew, where nothing stood or this test's own files did.
pub fn renew(rt: &HostRuntime, folder: &str) -> Result<(), Fail> {
    let _ = fs::remove_dir_all(rt, folder);
    shelf_in(rt, folder)?;
    Ok(())
}

/// Writes a file of a folder.
pub fn write(rt: &HostRuntime, folder: &str, name: &str, bytes: &[u8]) -> Result<(), Fail> {
    let path = format!(in rt.alloc(); "{folder}/{name}")?;
    fs::write(rt, path.as_str(), bytes)?;
    Ok(())
}

/// Checks whether a file of a folder holds these bytes.
pub fn is_file(rt: &HostRuntime, folder: &str, name: &str, bytes: &[u8]) -> Result<bool, Fail> {
    let path = format!(in rt.alloc(); "{folder}/{name}")?;
    let read = fs::read(rt, path.as_str())?;
    Ok(read.as_slice() == bytes)
}

// Checks whether a shelf lists these segments, the first one highest, and reads these bytes of them.
fn holds<S: Shelf>(
    alloc: Global,
    shelf: &mut S,
    segments: &[(u32, &[u8])],
) -> Result<bool, ShelfError>
    requires { S.honest shelf.old ≡ false }
    ensures { S.honest shelf.new ≡ S.honest shelf.old }
{
    let listed = shelf.list(alloc)?;
    let mut wanted = segments.iter();
    for number in &listed {
        let bytes = shelf.read(alloc, *number)?;
        if wanted.next() != Some(&(*number, bytes.as_slice())) {
            return Ok(false);
        }
    }
    Ok(wanted.next().is_none())
}

// Checks whether a shelf lists these segments, the first one highest.
fn lists<S: Shelf>(alloc: Global, shelf: &mut S, numbers: &[u32]) -> Result<bool, ShelfError>
    requires { S.honest shelf.old ≡ false }
    ensures { S.honest shelf.new ≡ S.honest shelf.old }
{
    let listed = shelf.list(alloc)?;
    Ok(listed.as_slice() == numbers)
}

// Checks whether a shelf reads these bytes of a segment.
fn reads<S: Shelf>(
    alloc: Global,
    shelf: &mut S,
    number: u32,
    bytes: &[u8],
) -> Result<bool, ShelfError>
    requires { S.honest shelf.old ≡ false }
    ensures { S.honest shelf.new ≡ S.honest shelf.old }
{
    let read = shelf.read(alloc, number)?;
    Ok(read.as_slice() == bytes)
}

// Checks whether a shelf does what it is called for.
fn does<S: Shelf>(alloc: Global, shelf: &mut S, call: Call) -> bool
    requires { S.honest shelf.old ≡ false }
    ensures { S.honest shelf.new ≡ S.honest shelf.old }
{
    match call {
        Call::Create(number) => shelf.create(number).is_ok(),
        Call::Refused(number) => shelf.create(number) == Err(CreateError::Device),
        Call::Append(number, bytes) => shelf.append(number, bytes).is_ok(),
        Call::Sync(number) => shelf.sync(number).is_ok(),
        Call::Retire(number) => shelf.retire(number).is_ok(),
        Call::Read(number, bytes) => reads(alloc, shelf, number, bytes) == Ok(true),
        Call::Unread(number) => shelf.read(alloc, number).err() == Some(ShelfError::Device),
        Call::Lists(numbers) => lists(alloc, shelf, numbers) == Ok(true),
        Call::Holds(segments) => holds(alloc, shelf, segments) == Ok(true),
    }
}

// The first of these calls of a shelf that isn't done though it is said to be, or the other way round.
fn first_other<S: Shelf>(alloc: Global, shelf: &mut S, calls: &[(Call, bool)]) -> Option<usize>
    requires { S.honest shelf.old ≡ false }
{
    for (i, (call, is_done)) in calls.iter().enumerate() {
        if does(alloc, shelf, *call) != *is_done {
            return Some(i);
        }
    }
    None
}

// The same, and how many calls failed, as the shelf counts them.
fn play<S: Shelf>(alloc: Global, shelf: &mut S, calls: &[(Call, bool)]) -> (Option<usize>, u64)
    requires { S.honest shelf.old ≡ false }
{
    let other = first_other(alloc, shelf, calls);
    (other, shelf.failures())
}

/// Makes calls of a shelf that is opened for that, each with whether it is done. The first of which this isn't so, and how many failed, as
/// the shelf counts them.
pub fn played_for(
    rt: &HostRuntime,
    folder: &str,
    access: Access,
    calls: &[(Call, bool)],
) -> Result<(Option<usize>, u64), Fail> {
    let mut shelf = shelf_for(rt, folder, access)?;
    Ok(play(rt.alloc(), &mut shelf, calls))
}

/// The same of a shelf for all calls.
pub fn played(
    rt: &HostRuntime,
    folder: &str,
    calls: &[(Call, bool)],
) -> Result<(Option<usize>, u64), Fail> {
    played_for(rt, folder, Access::Writing, calls)
}

/// Checks whether a folder's segments are these, the highest first, as a shelf opened anew reads them.
pub fn is_there(rt: &HostRuntime, folder: &str, segments: &[(u32, &[u8])]) -> Result<bool, Fail> {
    Ok(played(rt, folder, &[(Call::Holds(segments), true)])? == (None, 0))
}
