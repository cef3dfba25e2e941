// The files that were written last.
use crate::fault::OsFault;
use crate::path::FolderPath;
use crate::system_calls::{sync, write};
use std::alloc::{AllocError, Global};
use std::fs::{File, OpenOptions};
use std::rt::Files;

// The files of a folder that were written last, as they were opened.
#[derive(Drop)]
pub(crate) struct Written {
    // The name of the file that was written last, and that file.
    name: Vec<u8>,
    current: Option<File>,
    // The file that was written before that one.
    former: Option<File>,
    // True if the file that was written last was made here and not synced since.
    is_new: bool,
}

// Room for the name of a file.
const NAME_ROOM: usize = 64;

impl Written {
    pub(crate) fn new(alloc: Global) -> Result<Written, AllocError> {
        Ok(Written {
            name: Vec::with_capacity(alloc, NAME_ROOM)?,
            current: None,
            former: None,
            is_new: false,
        })
    }

    // Keeps the file that was written last, and the one before it. There is room for a segment's name.
    fn keep(&mut self, name: &[u8], file: File) {
        if self.current.is_some() {
            self.former = self.current.take();
        }
        self.is_new &= self.name.as_slice() == name;
        self.name.clear();
        if self.name.extend_from_slice(name).is_ok() {
            self.current = Some(file);
        }
    }

    // Takes out the file of this name, where it was written last.
    fn take_current(&mut self, name: &[u8]) -> Option<File> {
        if self.name.as_slice() == name {
            self.current.take()
        } else {
            None
        }
    }

    // Takes out a file that is still open: the one of this name, or else the one that was written before it.
    pub(crate) fn take_any(&mut self, name: &[u8]) -> Option<File> {
        if self.name.as_slice() == name {
            self.is_new = false;
            self.current.take()
        } else {
            self.former.take()
        }
    }

    // The file of this name, open for appending: as it was opened, where it was written last.
    fn take<R: Files<File = File>>(
        &mut self,
        files: &R,
        path: &mut FolderPath,
        name: &[u8],
    ) -> Result<File, OsFault> {
        match self.take_current(name) {
            Some(file) => Ok(file),
            None => path.open(files, OpenOptions::new().append(true), name),
        }
    }

    // Makes a file. If memory, a descriptor or disk space ran out, no file was made.
    pub(crate) fn create<R: Files<File = File>>(
        &mut self,
        files: &R,
        path: &mut FolderPath,
        name: &[u8],
    ) -> Result<(), OsFault> {
        let file = path.make(files, name)?;
        self.keep(name, file);
        self.is_new = self.current.is_some();
        Ok(())
    }

    // Removes the file that was written last, if it was made here and not synced since. Returns true if it did.
    pub(crate) fn discard<R: Files<File = File>>(
        &mut self,
        files: &R,
        path: &mut FolderPath,
    ) -> bool {
        self.is_new && path.remove(files, &self.name).is_ok()
    }

    // Puts bytes at the end of a file.
    pub(crate) fn append<R: Files<File = File>>(
        &mut self,
        files: &R,
        path: &mut FolderPath,
        name: &[u8],
        bytes: &[u8],
    ) -> Result<(), OsFault> {
        let mut file = self.take(files, path, name)?;
        let done = write(&mut file, bytes);
        self.keep(name, file);
        done
    }

    // Syncs a file.
    pub(crate) fn sync<R: Files<File = File>>(
        &mut self,
        files: &R,
        path: &mut FolderPath,
        name: &[u8],
    ) -> Result<(), OsFault> {
        let file = self.take(files, path, name)?;
        let done = sync(&file);
        self.keep(name, file);
        self.is_new &= done.is_err();
        done
    }
}
