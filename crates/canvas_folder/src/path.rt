// The path of a folder, and what is opened by it.
use crate::fault::OsFault;
use crate::system_calls::{lock, open, open_folder, open_regular, read_all, sync};
use std::alloc::{AllocError, Allocator, Global};
use std::fs::{File, OpenOptions};
use std::io::Write;
use std::os::fd::AsRawFd;
use std::rt::Files;
use std::{fs, str};

// The path of a folder of the system, and after it the name of the file that was asked for last.
#[derive(Drop)]
pub(crate) struct FolderPath {
    bytes: Vec<u8>,
    // How long the folder's path is, with its slash.
    base: usize,
}

// Room in a path for the name of a file.
const NAME_ROOM: usize = 64;

// Adds a path, and a slash where it has none at its end.
fn add_with_slash(bytes: &mut Vec<u8>, path: &str) -> Result<(), AllocError> {
    bytes.extend_from_slice(path.as_bytes())?;
    if !path.ends_with('/') {
        bytes.push(b'/')?;
    }
    Ok(())
}

impl FolderPath {
    pub(crate) fn new(alloc: Global, path: &str) -> Result<FolderPath, AllocError> {
        let mut bytes = Vec::with_capacity(alloc, path.len().saturating_add(NAME_ROOM))?;
        add_with_slash(&mut bytes, path)?;
        let base = bytes.len();
        Ok(FolderPath { bytes, base })
    }

    // Makes the path that of a file.
    fn go_to(&mut self, name: &[u8]) -> Result<(), AllocError> {
        self.bytes.truncate(self.base);
        self.bytes.extend_from_slice(name)
    }

    // The path as text, which it has to be.
    fn text(&self) -> Result<&str, OsFault> {
        match str::from_utf8(&self.bytes) {
            Ok(path) => Ok(path),
            Err(_) => Err(OsFault::Device),
        }
    }

    // The path of the folder itself.
    pub(crate) fn folder(&mut self) -> Result<&str, OsFault> {
        self.bytes.truncate(self.base);
        self.text()
    }

    // The path of a file.
    fn file(&mut self, name: &[u8]) -> Result<&str, OsFault> {
        self.go_to(name)?;
        self.text()
    }

    // Syncs the folder.
    pub(crate) fn sync<R: Files<File = File>>(&mut self, files: &R) -> Result<(), OsFault> {
        let folder = open_folder(files, self.folder()?)?;
        sync(&folder)
    }

    // Makes the path lead to this open folder, by its descriptor (proc(5), `/proc/pid/fd`): whatever is put at the folder's name from then
    // on, it is the folder that was opened. It leads there for as long as the folder is open. There is room for it: no memory is asked for.
    pub(crate) fn pin(&mut self, folder: &File) -> Result<(), OsFault> {
        let number = folder.as_raw_fd();
        self.bytes.clear();
        match write!(self.bytes, "/proc/self/fd/{number}/") {
            Ok(()) => {
                self.base = self.bytes.len();
                Ok(())
            }
            Err(error) => Err(OsFault::from(error)),
        }
    }

    // A copy of the folder's path.
    pub(crate) fn copied(&self, alloc: Global) -> Result<String, OsFault> {
        let (folder, _) = self.bytes.split_at(self.base.min(self.bytes.len()));
        match str::from_utf8(folder) {
            Ok(path) => Ok(String::from_str(alloc, path)?),
            Err(_) => Err(OsFault::Device),
        }
    }

    // Locks the folder. None where another has its lock.
    pub(crate) fn lock<R: Files<File = File>>(
        &mut self,
        files: &R,
    ) -> Result<Option<File>, OsFault> {
        let folder = open_folder(files, self.folder()?)?;
        lock(folder)
    }

    // Opens a regular file.
    pub(crate) fn open<R: Files<File = File>>(
        &mut self,
        files: &R,
        how: &OpenOptions,
        name: &[u8],
    ) -> Result<File, OsFault> {
        open_regular(files, how, self.file(name)?)
    }

    // Adds the bytes of a file.
    pub(crate) fn read<R: Files<File = File>, A: Allocator>(
        &mut self,
        files: &R,
        name: &[u8],
        bytes: &mut Vec<u8, A>,
    ) -> Result<(), OsFault> {
        let file = self.open(files, OpenOptions::new().read(true), name)?;
        read_all(file, bytes)
    }

    // Makes a file, open for appending. If memory, a descriptor or disk space ran out, no file was made.
    pub(crate) fn make<R: Files<File = File>>(
        &mut self,
        files: &R,
        name: &[u8],
    ) -> Result<File, OsFault> {
        let path = self.file(name)?;
        let mut how = OpenOptions::new();
        how.append(true).create_new(true);
        open(files, &how, path)
    }

    // Takes a file off the folder.
    pub(crate) fn remove<R: Files<File = File>>(
        &mut self,
        files: &R,
        name: &[u8],
    ) -> Result<(), OsFault> {
        match fs::remove_file(files, self.file(name)?) {
            Ok(()) => Ok(()),
            Err(e) => Err(OsFault::from(e)),
        }
    }
}
