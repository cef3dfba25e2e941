// Shelves of which calls fail as they were told, and what is found of them later.
ghost use Rattle.std.specs.Prelude.{◌≡◌, true, IsTrue, IfOk, IfSome};
ghost use Rattle.canvas_shelf.specs.Disk.{top_is_listed};

use crate::bench::{Failing, Segment};
use crate::shelves::{failing_shelf, put_all};
use canvas_etcd::{EtcdError, EtcdShelf, Store};
use canvas_shelf::{Call, MemShelf, Shelf};
use memory_store::MemStore;
use std::alloc::{AllocError, Global};

/// A shelf of which calls fail as it was told, and of which can be seen what is found later.
pub trait Fragile: Shelf + Drop {
    /// How many things may be found.
    const WAYS: usize;

    /// A shelf of these segments, all of their bytes certain. These calls fail. None, where one failed before there was a shelf.
    fn make(
        alloc: Global,
        segments: &[Segment],
        failing: Failing,
    ) -> Result<Option<Self>, AllocError>
        ensures { IfOk result (λ made. IfSome made (λ s. IsTrue (Self.honest s) → top_is_listed (Self.disk s) ≡ true)) };

    /// One of the things that may be found now, as a new shelf of which all is certain and no call fails. The first of them, 0, has
    /// nothing that isn't certain.
    fn found(&self, alloc: Global, way: usize) -> Result<Self, AllocError>
        ensures { IfOk result (λ s. IsTrue (Self.honest s) → top_is_listed (Self.disk s) ≡ true) };
}

// A crash that keeps all bytes of the segments that a script makes.
const ALL: [(u32, u64); 4] = [(1, u64::MAX), (2, u64::MAX), (3, u64::MAX), (4, u64::MAX)];

// A crash that keeps half of what was appended before the last call, where that was to make sure of it.
fn half_of(calls: &[Call]) -> [(u32, u64); 1] {
    match calls {
        [.., Call::Append(_, size), Call::Sync(segment)] => [(*segment, *size as u64 / 2)],
        _ => [(1, 0)],
    }
}

// Found after a crash: none, half, and all of the bytes that aren't synced are kept.
impl Fragile for MemShelf {
    const WAYS: usize = 3;

    fn make(
        alloc: Global,
        segments: &[Segment],
        failing: Failing,
    ) -> Result<Option<MemShelf>, AllocError> {
        match failing_shelf(alloc, segments, failing) {
            Ok(shelf) => Ok(Some(shelf)),
            Err(error) => Err(error),
        }
    }

    fn found(&self, _alloc: Global, way: usize) -> Result<MemShelf, AllocError> {
        match way {
            0 => self.crash(&[]),
            1 => self.crash(&half_of(self.calls())),
            _ => self.crash(&ALL),
        }
    }
}

/// A shelf in a store of keys in memory.
pub type StoreShelf = EtcdShelf<MemStore>;

/// A store of keys of which calls fail as it was told, and of which can be seen what another finds that takes the document over.
pub trait FragileStore: Store + Drop {
    /// A store of a document without segments, of which no call fails.
    fn new(alloc: Global) -> Self;

    /// Makes these calls fail.
    fn fail(&mut self, failing: Failing);

    /// What another finds now: the transaction that wasn't answered is done, or not.
    fn found(&self, done: bool) -> Result<Self, AllocError>;
}

impl FragileStore for MemStore {
    fn new(alloc: Global) -> MemStore {
        MemStore::new(alloc)
    }

    fn fail(&mut self, failing: Failing) {
        match failing {
            Failing::After(calls) => self.fuse(calls),
            Failing::Only(call) => self.fail_one(call),
        }
    }

    fn found(&self, done: bool) -> Result<MemStore, AllocError> {
        MemStore::found(self, done)
    }
}

// A store of a document of these segments.
fn store_of<S: FragileStore>(alloc: Global, segments: &[Segment]) -> Result<S, AllocError> {
    let Ok(mut shelf) = EtcdShelf::open(alloc, S::new(alloc)) else {
        return Err(AllocError);
    };
    if put_all(alloc, &mut shelf, segments).is_err() {
        return Err(AllocError);
    }
    shelf.store().found(false)
}

// Found by another that takes the document over: the transaction that wasn't answered isn't done, and is done.
impl<S: FragileStore> Fragile for EtcdShelf<S> {
    const WAYS: usize = 2;

    fn make(
        alloc: Global,
        segments: &[Segment],
        failing: Failing,
    ) -> Result<Option<Self>, AllocError> {
        let mut store = store_of::<S>(alloc, segments)?;
        store.fail(failing);
        match EtcdShelf::open(alloc, store) {
            Ok(shelf) => Ok(Some(shelf)),
            Err(EtcdError::Memory) => Err(AllocError),
            Err(_) => Ok(None),
        }
    }

    fn found(&self, alloc: Global, way: usize) -> Result<Self, AllocError> {
        match EtcdShelf::open(alloc, self.store().found(way > 0)?) {
            Ok(shelf) => Ok(shelf),
            Err(_) => Err(AllocError),
        }
    }
}
