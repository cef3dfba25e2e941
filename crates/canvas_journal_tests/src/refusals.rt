//! The first growth of each shelf's answer refused.
ghost use Rattle.std.specs.Prelude.{◌≡◌, true, IfOk, IsTrue};
ghost use Rattle.canvas_shelf.specs.Disk.{is_listed};
ghost use Rattle.canvas_shelf.specs.Shelved.{disk_of};

use crate::bytes::JOINED;
use crate::documents::{renew, shelf_in, write};
use canvas_shelf::{MemShelf, Shelf, ShelfError};
use refusing::Refusing;
use std::alloc::Global;
use std::fs;
use std::test::Fail;

// A shelf in memory whose one segment has the first Join.
fn in_memory(alloc: Global) -> Result<MemShelf, Fail>
    ensures { IfOk result (λ m. is_listed 1 (disk_of m) ≡ true) }
{
    let mut shelf = MemShelf::new(alloc);
    shelf.create(1)?;
    shelf.append(1, JOINED)?;
    Ok(shelf)
}

// Checks whether a shelf that is asked for its numbers, with the first growth refused, tells so and counts no failure, and answers when it
// is asked again.
fn refuses_list<S: Shelf>(alloc: Global, shelf: &mut S) -> bool
    ensures disk { IsTrue (S.honest shelf.old) → S.disk shelf.new ≡ S.disk shelf.old }
    ensures honest { S.honest shelf.new ≡ S.honest shelf.old }
{
    let heap = Refusing::new(alloc, 1);
    let failures = shelf.failures();
    let refused = shelf.list(&heap).err() == Some(ShelfError::Memory);
    let again = shelf.list(&heap).is_ok();
    refused && heap.left() == 0 && shelf.failures() == failures && again
}

// The same of a shelf that is asked for the bytes of its first segment.
fn refuses_read<S: Shelf>(alloc: Global, shelf: &mut S) -> bool
    requires { IsTrue (S.honest shelf.old) → is_listed 1 (S.disk shelf.old) ≡ true }
{
    let heap = Refusing::new(alloc, 1);
    let failures = shelf.failures();
    let refused = shelf.read(&heap, 1).err() == Some(ShelfError::Memory);
    let again = shelf.read(&heap, 1).is_ok();
    refused && heap.left() == 0 && shelf.failures() == failures && again
}

// Checks whether a shelf does both.
fn refuses<S: Shelf>(alloc: Global, shelf: &mut S) -> bool
    requires { IsTrue (S.honest shelf.old) → is_listed 1 (S.disk shelf.old) ≡ true }
{
    refuses_list(alloc, shelf) && refuses_read(alloc, shelf)
}

#[test]
fn shelves(rt: HostRuntime) -> Result<(), Fail> {
    let mut memory = in_memory(rt.alloc())?;
    assert!(rt; refuses(rt.alloc(), &mut memory));
    let folder = "journal-refusals";
    renew(&rt, folder)?;
    write(&rt, folder, "segment-0000000001", JOINED)?;
    let mut shelf = shelf_in(&rt, folder)?;
    assert!(rt; refuses(rt.alloc(), &mut shelf));
    let _ = fs::remove_dir_all(&rt, folder);
    Ok(())
}
