// Files in memory.
ghost use Rattle.std.specs.Prelude.{◌≡◌, ◌≤◌, true, length, take, IfOk, IfSome};

use std::alloc::{AllocError, Global};

// A file in memory: its name, what is certain of it, and its bytes.
#[derive(Drop)]
pub(crate) struct Held {
    pub(crate) name: Vec<u8>,
    // Whether the name stands; else it was removed.
    pub(crate) there: bool,
    // Whether that is certain.
    pub(crate) sure: bool,
    // Whether an earlier file of this name was removed.
    pub(crate) again: bool,
    // The bytes that it had when it was last synced, if it was.
    pub(crate) synced: Option<Vec<u8>>,
    pub(crate) bytes: Vec<u8>,
}

// What a folder was.
#[derive(Drop)]
pub(crate) struct Moment {
    pub(crate) placed: bool,
    pub(crate) doubt: bool,
    pub(crate) files: Vec<Held>,
}

impl Held {
    ghost use Rattle.memory_folder.specs.Held.{file_of, synced_of};
    ghost use Rattle.memory_folder.specs.Left.{size_staying, synced_size, certain_file};
    ghost use Rattle.memory_folder.specs.Sound.{has_synced};

    // What was synced, once more.
    fn copy_synced(&self, alloc: Global) -> Result<Option<Vec<u8>>, AllocError>
        ensures { IfOk result (λ s. synced_of s ≡ synced_of self.now.synced) }
    {
        match &self.synced {
            Some(bytes) => Ok(Some(bytes.to_vec(alloc)?)),
            None => Ok(None),
        }
    }

    // The same file once more.
    pub(crate) fn copy(&self, alloc: Global) -> Result<Held, AllocError>
        ensures { IfOk result (λ h. file_of h ≡ file_of self.now) }
    {
        Ok(Held {
            name: self.name.to_vec(alloc)?,
            there: self.there,
            sure: self.sure,
            again: self.again,
            synced: self.copy_synced(alloc)?,
            bytes: self.bytes.to_vec(alloc)?,
        })
    }

    // How many bytes were synced.
    fn synced_size(&self) -> usize
        ensures { result ≡ synced_size (synced_of self.now.synced) }
    {
        match &self.synced {
            Some(bytes) => bytes.len(),
            None => 0,
        }
    }

    // How many bytes a crash leaves that keeps so many unsynced ones, or none where the file is missing.
    pub(crate) fn stays(&self, asked: Option<u64>) -> Option<usize>
        requires { has_synced (synced_of self.now.synced) self.now.bytes.items ≡ true }
        ensures stays { result ≡ size_staying self.now.there self.now.sure (synced_of self.now.synced) self.now.bytes.items asked }
        ensures within { IfSome result (λ size. size ≤ length self.now.bytes.items) }
    {
        if !self.there {
            return None;
        }
        let more = match asked {
            Some(more) => more as usize,
            None if self.sure => 0,
            None => return None,
        };
        let synced = self.synced_size();
        Some(synced + more.min(self.bytes.len().saturating_sub(synced)))
    }

    // What a crash leaves of it that leaves so many bytes: all of that is certain.
    pub(crate) fn left(&self, alloc: Global, size: usize) -> Result<Held, AllocError>
        requires { size ≤ length self.now.bytes.items }
        ensures { IfOk result (λ h. file_of h ≡ certain_file (self.now.name.items, take size self.now.bytes.items)) }
    {
        let bytes = &self.bytes.as_slice()[..size];
        Ok(Held {
            name: self.name.to_vec(alloc)?,
            there: true,
            sure: true,
            again: false,
            synced: Some(bytes.to_vec(alloc)?),
            bytes: bytes.to_vec(alloc)?,
        })
    }
}
