// Why the calls of a store failed, for other threads to read.
use crate::error::StoreError;
use std::alloc::{AllocError, Global};
use std::sync::Arc;
use std::sync::atomic::{AtomicU64, Ordering};

/// Why calls of a store failed. Each share reads the same, in any thread, and waits for nobody.
pub struct Causes {
    // The code of the last one's cause, or 0.
    last: Arc<AtomicU64, Global>,
}

impl Drop for Causes {
    fn drop(self) {
        let Causes { last: _ } = self;
    }
}

impl Causes {
    /// No call has failed yet. Errors: out of memory.
    pub(crate) fn new(alloc: Global) -> Result<Causes, AllocError> {
        Ok(Causes {
            last: Arc::new(alloc, AtomicU64::new(0))?,
        })
    }

    /// The same causes, for another thread. Errors: out of memory.
    pub fn share(&self) -> Result<Causes, AllocError> {
        Ok(Causes {
            last: Arc::try_clone(&self.last)?,
        })
    }

    /// Why the last call failed that told a failure of the device, if one has. `Memory` only where memory ran out in a call that can't tell
    /// that itself.
    pub fn last(&self) -> Option<StoreError> {
        StoreError::of_code(self.last.load(Ordering::SeqCst))
    }

    // A call failed.
    pub(crate) fn note(&self, error: StoreError) {
        self.last.store(error.code(), Ordering::SeqCst);
    }
}
