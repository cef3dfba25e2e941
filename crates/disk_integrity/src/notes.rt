// What is noted of a shelf, for other threads to read.
ghost use Rattle.std.specs.Prelude.{◌≡◌};

use crate::call::ShelfCall;
use std::alloc::{AllocError, Global};
use std::sync::Arc;
use std::sync::atomic::{AtomicU64, Ordering};

// The cells. A call's segment is written before its code, and both only once.
#[derive(Drop)]
struct Cells {
    failed_code: AtomicU64,
    failed_segment: AtomicU64,
    syncs: AtomicU64,
    bytes: AtomicU64,
    checkpoints: AtomicU64,
    checkpoint_bytes: AtomicU64,
    bytes_since: AtomicU64,
}

/// What is noted of a shelf: the first call that failed, and counts. Each share reads the same, in any thread, and waits for nobody.
pub struct Notes {
    cells: Arc<Cells, Global>,
}

/// What was counted of a shelf.
#[derive(Clone, Copy, Debug, PartialEq, Eq)]
pub struct CallCounts {
    /// How often a segment was synced.
    pub syncs: u64,
    /// How many bytes were appended.
    pub bytes: u64,
    /// How many segments were made and then synced: a journal puts a checkpoint into each.
    pub checkpoints: u64,
    /// How many bytes the last of these had when it was first synced.
    pub checkpoint_bytes: u64,
    /// How many bytes were appended since then.
    pub bytes_since: u64,
}

impl Drop for Notes {
    fn drop(self) {
        let Notes { cells: _ } = self;
    }
}

impl Notes {
    /// Nothing is noted yet. Errors: out of memory.
    pub(crate) fn new(alloc: Global) -> Result<Notes, AllocError> {
        let cells = Cells {
            failed_code: AtomicU64::new(0),
            failed_segment: AtomicU64::new(0),
            syncs: AtomicU64::new(0),
            bytes: AtomicU64::new(0),
            checkpoints: AtomicU64::new(0),
            checkpoint_bytes: AtomicU64::new(0),
            bytes_since: AtomicU64::new(0),
        };
        Ok(Notes {
            cells: Arc::new(alloc, cells)?,
        })
    }

    /// The same notes, for another thread. Errors: out of memory.
    pub fn share(&self) -> Result<Notes, AllocError> {
        Ok(Notes {
            cells: Arc::try_clone(&self.cells)?,
        })
    }

    /// The first call that failed, if one did.
    pub fn failed(&self) -> Option<ShelfCall> {
        let code = self.cells.failed_code.load(Ordering::SeqCst);
        let segment = self.cells.failed_segment.load(Ordering::SeqCst);
        ShelfCall::of_code(code, u32::try_from(segment).unwrap_or(0))
    }

    /// What was counted so far.
    pub fn counts(&self) -> CallCounts {
        CallCounts {
            syncs: self.cells.syncs.load(Ordering::SeqCst),
            bytes: self.cells.bytes.load(Ordering::SeqCst),
            checkpoints: self.cells.checkpoints.load(Ordering::SeqCst),
            checkpoint_bytes: self.cells.checkpoint_bytes.load(Ordering::SeqCst),
            bytes_since: self.cells.bytes_since.load(Ordering::SeqCst),
        }
    }

    // Notes that a call failed, and none before it. Answers that call.
    pub(crate) fn fail(&self, call: ShelfCall) -> ShelfCall
        ensures { result ≡ call }
    {
        let segment = u64::from(call.number());
        self.cells.failed_segment.store(segment, Ordering::SeqCst);
        self.cells.failed_code.store(call.code(), Ordering::SeqCst);
        call
    }

    // So many bytes were appended.
    pub(crate) fn append(&self, bytes: u64) {
        self.cells.bytes.fetch_add(bytes, Ordering::SeqCst);
        self.cells.bytes_since.fetch_add(bytes, Ordering::SeqCst);
    }

    // A segment was synced.
    pub(crate) fn sync(&self) {
        self.cells.syncs.fetch_add(1, Ordering::SeqCst);
    }

    // A new segment was synced for the first time, with so many bytes.
    pub(crate) fn checkpoint(&self, bytes: u64) {
        self.cells.checkpoint_bytes.store(bytes, Ordering::SeqCst);
        self.cells.bytes_since.store(0, Ordering::SeqCst);
        self.cells.checkpoints.fetch_add(1, Ordering::SeqCst);
    }
}
