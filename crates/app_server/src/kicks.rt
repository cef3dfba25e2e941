// The connections that an operator ends.

use mio::Waker;
use std::alloc::{AllocError, Global};
use std::collections::BTreeSet;
use std::sync::atomic::{AtomicU64, AtomicUsize, Ordering};
use std::sync::{Arc, Mutex, Wait};

/// The connections that an operator ends, those of one file at a time: each worker looks for its own among them.
#[derive(Drop)]
pub(crate) struct Kicks {
    numbers: Mutex<BTreeSet<u64>>,
    // How many files there were, and how many workers haven't looked at the numbers of the last one yet.
    count: AtomicU64,
    left: AtomicUsize,
    wakers: Vec<Arc<Waker, Global>>,
}

impl Kicks {
    /// Returns those of a server before the first file, for the workers of these wakers. Errors: out of memory.
    pub(crate) fn new(alloc: Global, wakers: &[Arc<Waker, Global>]) -> Result<Kicks, AllocError> {
        let mut own = Vec::with_capacity(alloc, wakers.len())?;
        for waker in wakers {
            own.push(Arc::try_clone(waker)?)?;
        }
        Ok(Kicks {
            numbers: Mutex::new(BTreeSet::new(alloc)),
            count: AtomicU64::new(0),
            left: AtomicUsize::new(0),
            wakers: own,
        })
    }

    /// Checks whether each worker has looked at the numbers of the last file.
    pub(crate) fn is_over(&self) -> bool {
        self.left.load(Ordering::SeqCst) == 0
    }

    /// Calls the workers to end the connections of these numbers. Called once the last file is over.
    pub(crate) fn begin<R: Wait>(&self, rt: &R, numbers: BTreeSet<u64>) {
        *self.numbers.lock(rt) = numbers;
        self.left.store(self.wakers.len(), Ordering::SeqCst);
        self.count.fetch_add(1, Ordering::SeqCst);
        for waker in self.wakers.iter() {
            let _ = waker.wake();
        }
    }

    /// Returns how many files there were.
    pub(crate) fn count(&self) -> u64 {
        self.count.load(Ordering::SeqCst)
    }

    /// Checks whether the connection of this number is ended.
    pub(crate) fn has<R: Wait>(&self, rt: &R, number: u64) -> bool {
        self.numbers.lock(rt).contains(&number)
    }

    /// A worker has looked at the numbers of the last file.
    pub(crate) fn end(&self) {
        self.left.fetch_sub(1, Ordering::SeqCst);
    }
}
