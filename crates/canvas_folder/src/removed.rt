// Files that were removed, and are still open.
use std::alloc::{AllocError, Global};
use std::fs::File;
use std::sync::{Arc, Mutex};

// So many stay open at most.
const MOST_FILES: usize = 8;

/// Files of a folder that were removed, and are still open. The system gives the blocks of a file back once nobody has it open, which takes
/// some file systems milliseconds: so the folder's calls leave it to whoever calls `close`, in a thread for which nobody waits. If eight
/// are open and nobody has closed one, the next is closed as it is removed. Nothing is waited for.
pub struct Removed {
    files: Arc<Mutex<Vec<File>>, Global>,
}

impl Drop for Removed {
    fn drop(self) {
        let Removed { files: _ } = self;
    }
}

impl Removed {
    pub(crate) fn new(alloc: Global) -> Result<Removed, AllocError> {
        let files = Vec::with_capacity(alloc, MOST_FILES)?;
        Ok(Removed {
            files: Arc::new(alloc, Mutex::new(files))?,
        })
    }

    /// The same files, for another thread. Errors: out of memory.
    pub fn share(&self) -> Result<Removed, AllocError> {
        Ok(Removed {
            files: Arc::try_clone(&self.files)?,
        })
    }

    // Leaves a file open, if there is one and there is room for it.
    pub(crate) fn put(&self, file: Option<File>) {
        if let Some(file) = file {
            self.put_one(file);
        }
    }

    // Leaves a file open, if there is room for it.
    fn put_one(&self, file: File) {
        if let Some(mut files) = self.files.try_lock() {
            if files.len() < MOST_FILES {
                let _ = files.push(file);
            }
        }
    }

    // Takes one of them.
    fn take(&self) -> Option<File> {
        self.files.try_lock()?.pop()
    }

    /// Closes one of them, if there is one.
    pub fn close(&self) {
        drop(self.take());
    }
}
