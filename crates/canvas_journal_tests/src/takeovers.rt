// Shelves in stores in memory, which another takes over.
ghost use Rattle.std.specs.Prelude.{◌≡◌, [], IsTrue, IfOk};
ghost use Rattle.canvas_shelf.specs.Disk.{Content};
ghost use Rattle.canvas_shelf.specs.Memory.{synced_disk};

use canvas_etcd::{CHUNK, EtcdShelf};
use canvas_shelf::{Shelf, ShelfError};
use memory_store::MemStore;
use std::alloc::Global;
use std::test::Fail;

// Checks whether a shelf that was just opened has no segment.
fn is_empty<S: Shelf>(alloc: Global, shelf: &mut S) -> Result<bool, ShelfError>
    requires { IsTrue (S.honest shelf.old) → (held : Content) × (S.disk shelf.old ≡ synced_disk held) }
    ensures honest { S.honest shelf.new ≡ S.honest shelf.old }
    ensures empty { IfOk result (λ none. IsTrue none → IsTrue (S.honest shelf.old) → S.disk shelf.new ≡ []) }
{
    let listed = shelf.list(alloc)?;
    Ok(listed.is_empty())
}

// Makes a segment in a shelf that has none: some bytes that are synced, and some that aren't.
fn write<S: Shelf>(shelf: &mut S, first: &[u8], more: &[u8]) -> Result<(), Fail>
    requires { IsTrue (S.honest shelf.old) → S.disk shelf.old ≡ [] }
{
    shelf.create(1)?;
    shelf.append(1, first)?;
    shelf.sync(1)?;
    shelf.append(1, more)?;
    Ok(())
}

// The same, where the second sync is to fail: whether it does, and the shelf answers nothing more.
fn fails_for_good<S: Shelf>(
    alloc: Global,
    shelf: &mut S,
    first: &[u8],
    more: &[u8],
) -> Result<bool, Fail>
    requires { IsTrue (S.honest shelf.old) → S.disk shelf.old ≡ [] }
{
    shelf.create(1)?;
    shelf.append(1, first)?;
    shelf.sync(1)?;
    shelf.append(1, more)?;
    let Err(_) = shelf.sync(1) else {
        return Ok(false);
    };
    let Err(_) = shelf.sync(1) else {
        return Ok(false);
    };
    let silent = shelf.list(alloc).is_err();
    Ok(silent && shelf.append(1, b"g").is_err())
}

// Checks whether a shelf has one segment, of these bytes.
fn holds<S: Shelf>(alloc: Global, shelf: &mut S, bytes: &[u8]) -> Result<bool, ShelfError> {
    let listed = shelf.list(alloc)?;
    let mut found = 0u64;
    for number in &listed {
        let read = shelf.read(alloc, *number)?;
        if *number == 1 && read.as_slice() == bytes {
            found = found.saturating_add(1);
        }
    }
    Ok(found == 1 && listed.len() == 1)
}

// Checks whether another finds what was synced, and nothing else.
fn outlasts(alloc: Global) -> Result<bool, Fail> {
    let mut store = MemStore::new(alloc);
    store.fuse(9);
    let mut shelf = EtcdShelf::open(alloc, store)?;
    if !is_empty(alloc, &mut shelf)? {
        return Ok(false);
    }
    write(&mut shelf, b"abc", b"def")?;
    let mut next = EtcdShelf::open(alloc, shelf.store().found(true)?)?;
    let mut reader = EtcdShelf::open_for_reading(alloc, shelf.store().found(false)?)?;
    Ok(holds(alloc, &mut next, b"abc")? && holds(alloc, &mut reader, b"abc")?)
}

// Checks whether another finds either of these, where that call of the store fails.
fn finds(
    alloc: Global,
    call: u64,
    more: &[u8],
    not_done: &[u8],
    done: &[u8],
) -> Result<bool, Fail> {
    let mut store = MemStore::new(alloc);
    store.fail_one(call);
    let mut shelf = EtcdShelf::open(alloc, store)?;
    if !is_empty(alloc, &mut shelf)? {
        return Ok(false);
    }
    let failed = fails_for_good(alloc, &mut shelf, b"abc", more)?;
    let mut one = EtcdShelf::open(alloc, shelf.store().found(false)?)?;
    let mut other = EtcdShelf::open(alloc, shelf.store().found(true)?)?;
    Ok(failed && holds(alloc, &mut one, not_done)? && holds(alloc, &mut other, done)?)
}

// Checks whether a store of which that call fails makes no shelf.
fn refuses(alloc: Global, call: u64) -> bool {
    let mut store = MemStore::new(alloc);
    store.fail_one(call);
    EtcdShelf::open(alloc, store).is_err()
}

#[test]
fn over_a_takeover(rt: HostRuntime) -> Result<(), Fail> {
    assert!(rt; outlasts(rt.alloc())?);
    Ok(())
}

#[test]
fn over_a_lost_answer(rt: HostRuntime) -> Result<(), Fail> {
    assert!(rt; finds(rt.alloc(), 5, b"def", b"abc", b"abcdef")?);
    Ok(())
}

// A sync of two chunks, of which the second isn't answered.
#[test]
fn within_a_long_sync(rt: HostRuntime) -> Result<(), Fail> {
    let mut more = Vec::new(rt.alloc());
    more.resize(CHUNK + 9, 7)?;
    let mut all = Vec::from_slice(rt.alloc(), b"abc")?;
    all.extend_from_slice(&more)?;
    let cut = all.len().min(CHUNK + 3);
    assert!(rt; finds(rt.alloc(), 6, &more, &all.as_slice()[..cut], &all)?);
    Ok(())
}

#[test]
fn calls_that_fail(rt: HostRuntime) -> Result<(), Fail> {
    let mut store = MemStore::new(rt.alloc());
    store.lose();
    assert!(rt; EtcdShelf::open(rt.alloc(), store).is_err());
    assert!(rt; refuses(rt.alloc(), 1) && refuses(rt.alloc(), 2) && refuses(rt.alloc(), 3));
    assert!(rt; !refuses(rt.alloc(), 4));
    Ok(())
}
