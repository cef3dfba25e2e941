// Shelves in folders in memory, over a crash.
ghost use Rattle.std.specs.Prelude.{◌≡◌, [], IsTrue};

use canvas_folder::DirShelf;
use canvas_shelf::{Shelf, ShelfError};
use memory_folder::MemFolder;
use std::alloc::Global;
use std::test::Fail;

// Makes a segment in a shelf that has none: three bytes that are synced, and three that aren't.
fn write<S: Shelf>(shelf: &mut S) -> Result<(), Fail>
    requires { IsTrue (S.honest shelf.old) → S.disk shelf.old ≡ [] }
{
    shelf.create(1)?;
    shelf.append(1, b"abc")?;
    shelf.sync(1)?;
    shelf.append(1, b"def")?;
    Ok(())
}

// Checks whether a shelf has one segment, of these bytes.
fn holds<S: Shelf>(alloc: Global, shelf: &mut S, bytes: &[u8]) -> Result<bool, ShelfError> {
    let listed = shelf.list(alloc)?;
    let mut found = 0u64;
    for number in &listed {
        let read = shelf.read(alloc, *number)?;
        if *number == 1 && read.as_slice() == bytes {
            found = found.saturating_add(1);
        }
    }
    Ok(found == 1 && listed.len() == 1)
}

// Checks whether so many of the bytes that weren't synced are there after a crash that kept so many, behind those that were.
fn outlasts(alloc: Global, more: u64, left: &[u8]) -> Result<bool, Fail> {
    let mut shelf = DirShelf::open(alloc, MemFolder::new(alloc))?;
    write(&mut shelf)?;
    let kept: [(&[u8], u64); 1] = [(b"segment-0000000001", more)];
    let mut again = DirShelf::open(alloc, shelf.folder().crash(&kept)?)?;
    Ok(holds(alloc, &mut again, left)?)
}

// Checks whether what was synced outlasts a crash that keeps nothing else.
fn outlasts_all(alloc: Global) -> Result<bool, Fail> {
    let mut shelf = DirShelf::open(alloc, MemFolder::new(alloc))?;
    write(&mut shelf)?;
    let mut again = DirShelf::open(alloc, shelf.folder().crash(&[])?)?;
    Ok(holds(alloc, &mut again, b"abc")?)
}

// Checks whether a folder of which that call fails makes no shelf.
fn refuses(alloc: Global, call: u64) -> bool {
    let mut folder = MemFolder::new(alloc);
    folder.fail_one(call);
    DirShelf::open(alloc, folder).is_err()
}

#[test]
fn over_a_crash(rt: HostRuntime) -> Result<(), Fail> {
    assert!(rt; outlasts_all(rt.alloc())?);
    assert!(rt; outlasts(rt.alloc(), 0, b"abc")?);
    assert!(rt; outlasts(rt.alloc(), 2, b"abcde")?);
    assert!(rt; outlasts(rt.alloc(), 9, b"abcdef")?);
    Ok(())
}

#[test]
fn calls_that_fail(rt: HostRuntime) -> Result<(), Fail> {
    let mut folder = MemFolder::new(rt.alloc());
    folder.take_lock();
    assert!(rt; DirShelf::open(rt.alloc(), folder).is_err());
    assert!(rt; refuses(rt.alloc(), 1) && refuses(rt.alloc(), 2) && refuses(rt.alloc(), 3));
    assert!(rt; !refuses(rt.alloc(), 4));
    Ok(())
}
