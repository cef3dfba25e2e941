// The shelves that a server has open: that of a folder, and that of a document in an etcd.
ghost use Rattle.std.specs.Prelude.{◌≡◌, IfOk, false};

use canvas_etcd::EtcdShelf;
use canvas_folder::{DirShelf, Folder};
use canvas_shelf::{CreateError, DeviceFailed, Shelf, ShelfError};
use disk_integrity::{SumFiles, Watched, Witness};
use etcd_store::EtcdStore;
use std::alloc::{AllocError, Allocator, Global};
use std::net::{Net, TcpStream};
use std::random::RandomSource;
use std::time::Clock;

/// The shelf of a folder, which is watched.
type WatchedFolder<F> = Watched<DirShelf<F>, SumFiles<HostRuntime>>;

/// The shelf of a folder, which is watched: the sums of its segments are written, and the first call that fails is noted. It does what that
/// shelf does, over an honest folder as an honest one, and lies on the heap under a name of its own, so that the types above it stay short.
pub struct FolderShelf<F: Folder + Drop> {
    shelf: Box<WatchedFolder<F>>,
}

impl<F: Folder + Drop> Drop for FolderShelf<F> {
    fn drop(self) {
        let FolderShelf { shelf: _ } = self;
    }
}

impl<F: Folder + Drop> FolderShelf<F> {
    /// The same shelf, put on the heap.
    ///
    /// Fails if memory runs out.
    pub fn new(alloc: Global, shelf: WatchedFolder<F>) -> Result<Self, AllocError>
        ensures honest { IfOk result (λ s. ⟦<FolderShelf<F> as Shelf>⟧.honest s ≡ ⟦<WatchedFolder<F> as Shelf>⟧.honest shelf) }
        ensures disk { IfOk result (λ s. ⟦<FolderShelf<F> as Shelf>⟧.disk s ≡ ⟦<WatchedFolder<F> as Shelf>⟧.disk shelf) }
        ensures past { IfOk result (λ s. ⟦<FolderShelf<F> as Shelf>⟧.past s ≡ ⟦<WatchedFolder<F> as Shelf>⟧.past shelf) }
    {
        match Box::new(alloc, shelf) {
            Ok(shelf) => Ok(FolderShelf { shelf }),
            Err(_) => Err(AllocError),
        }
    }
}

impl<F: Folder + Drop> Shelf for FolderShelf<F> {
    ghost use Rattle.canvas_folder.specs.Sound.{sound_disk};

    ghost disk = { λ s. ⟦<WatchedFolder<F> as Shelf>⟧.disk s.shelf.value };

    ghost past = { λ s. ⟦<WatchedFolder<F> as Shelf>⟧.past s.shelf.value };

    ghost honest = { λ s. ⟦<WatchedFolder<F> as Shelf>⟧.honest s.shelf.value };

    ghost failure_count = { λ s. ⟦<WatchedFolder<F> as Shelf>⟧.failure_count s.shelf.value };

    ghost sound = { λ s h. sound_disk (F.value s.shelf.value.shelf.folder).files (F.sound s.shelf.value.shelf.folder h) };

    fn list<A: Allocator>(&mut self, alloc: A) -> Result<Vec<u32, A>, ShelfError> {
        self.shelf.list(alloc)
    }

    fn read<A: Allocator>(&mut self, alloc: A, number: u32) -> Result<Vec<u8, A>, ShelfError> {
        self.shelf.read(alloc, number)
    }

    fn create(&mut self, number: u32) -> Result<(), CreateError> {
        self.shelf.create(number)
    }

    fn append(&mut self, number: u32, bytes: &[u8]) -> Result<(), DeviceFailed> {
        self.shelf.append(number, bytes)
    }

    fn sync(&mut self, number: u32) -> Result<(), DeviceFailed> {
        self.shelf.sync(number)
    }

    fn retire(&mut self, number: u32) -> Result<(), DeviceFailed> {
        self.shelf.retire(number)
    }

    fn failures(&self) -> u64 {
        self.shelf.failures()
    }
}

/// Who is shown what a document's shelf did, and keeps nothing of it: an etcd keeps what it was given.
#[derive(Drop)]
pub struct NoWitness;

impl Witness for NoWitness {
    fn created(&mut self, _number: u32) {}

    fn appended(&mut self, _number: u32, _bytes: &[u8]) {}

    fn synced(&mut self, _number: u32) {}

    fn retired(&mut self, _number: u32) {}
}

/// A document in an etcd, which is watched.
type WatchedDocument<R> = Watched<EtcdShelf<EtcdStore<R>>, NoWitness>;

/// The shelf of a document in an etcd, which is watched: the first call that fails is noted. It does what that shelf does, and lies on the
/// heap under a name of its own, so that the types above it stay short.
pub struct DocumentShelf<
    R: Net<Stream = TcpStream> + Clock + RandomSource + AllocGlobal + Clone + Drop,
> {
    shelf: Box<WatchedDocument<R>>,
}

impl<R: Net<Stream = TcpStream> + Clock + RandomSource + AllocGlobal + Clone + Drop> Drop
    for DocumentShelf<R> {
    fn drop(self) {
        let DocumentShelf { shelf: _ } = self;
    }
}

impl<R: Net<Stream = TcpStream> + Clock + RandomSource + AllocGlobal + Clone + Drop> DocumentShelf<
    R,
> {
    /// The same shelf, put on the heap.
    ///
    /// Fails if memory runs out.
    pub fn new(alloc: Global, shelf: WatchedDocument<R>) -> Result<Self, AllocError>
        ensures { IfOk result (λ s. ⟦<DocumentShelf<R> as Shelf>⟧.honest s ≡ false) }
    {
        match Box::new(alloc, shelf) {
            Ok(shelf) => Ok(DocumentShelf { shelf }),
            Err(_) => Err(AllocError),
        }
    }
}

impl<R: Net<Stream = TcpStream> + Clock + RandomSource + AllocGlobal + Clone + Drop> Shelf
    for DocumentShelf<R> {
    ghost disk = { λ s. ⟦<WatchedDocument<R> as Shelf>⟧.disk s.shelf.value };

    ghost past = { λ s. ⟦<WatchedDocument<R> as Shelf>⟧.past s.shelf.value };

    ghost honest = { λ s. ⟦<WatchedDocument<R> as Shelf>⟧.honest s.shelf.value };

    ghost failure_count = { λ s. ⟦<WatchedDocument<R> as Shelf>⟧.failure_count s.shelf.value };

    // Nothing is claimed of what an etcd holds (`EtcdStore`).
    ghost sound = { λ s h. record { falls = tt; segments = tt } };

    fn list<A: Allocator>(&mut self, alloc: A) -> Result<Vec<u32, A>, ShelfError> {
        self.shelf.list(alloc)
    }

    fn read<A: Allocator>(&mut self, alloc: A, number: u32) -> Result<Vec<u8, A>, ShelfError> {
        self.shelf.read(alloc, number)
    }

    fn create(&mut self, number: u32) -> Result<(), CreateError> {
        self.shelf.create(number)
    }

    fn append(&mut self, number: u32, bytes: &[u8]) -> Result<(), DeviceFailed> {
        self.shelf.append(number, bytes)
    }

    fn sync(&mut self, number: u32) -> Result<(), DeviceFailed> {
        self.shelf.sync(number)
    }

    fn retire(&mut self, number: u32) -> Result<(), DeviceFailed> {
        self.shelf.retire(number)
    }

    fn failures(&self) -> u64 {
        self.shelf.failures()
    }
}
