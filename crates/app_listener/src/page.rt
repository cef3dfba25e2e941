// The files of a page.
ghost use Rattle.std.specs.Prelude.{◌≡◌, None};
ghost use Rattle.std.specs.Option.{option_copied};
ghost use Rattle.net_http.specs.declared.asked.PageFile.{PageFile};
ghost use Rattle.app_listener.specs.Pages.{held};

use bytes::Bytes;
use net_http::PageFile;
use std::fs::{self, File};
use std::io::{self, ErrorKind, Read};
use std::rt::Files;

// The most bytes that a file of the page may have.
const MOST_FILE_BYTES: u64 = 16 << 20;

/// The files of a page as they were when it was read, each in memory once. A server without a page has none.
#[derive(Drop)]
pub struct Page {
    index: Option<Bytes>,
    script: Option<Bytes>,
    worker: Option<Bytes>,
    library: Option<Bytes>,
    module: Option<Bytes>,
    style: Option<Bytes>,
    icon: Option<Bytes>,
}

impl Page {
    /// Returns no page.
    pub fn none() -> Page
        ensures { (file : PageFile) → held result file ≡ None }
    {
        Page {
            index: None,
            script: None,
            worker: None,
            library: None,
            module: None,
            style: None,
            icon: None,
        }
    }

    /// Reads the files of a page from this folder: of each at most its first 16 MiB. One that can't be read is left out. Fails if the index
    /// can't be read, or memory runs out.
    pub fn read<R>(files: &R, folder: &str) -> io::Result<Page>
    where
        R: Files<File = File> + AllocGlobal,
    {
        Ok(Page {
            index: Some(read_file(files, folder, PageFile::Index)?),
            script: try_file(files, folder, PageFile::Script)?,
            worker: try_file(files, folder, PageFile::Worker)?,
            library: try_file(files, folder, PageFile::Library)?,
            module: try_file(files, folder, PageFile::Module)?,
            style: try_file(files, folder, PageFile::Style)?,
            icon: try_file(files, folder, PageFile::Icon)?,
        })
    }

    /// Returns what this file holds, if the page has it.
    pub(crate) fn get(&self, file: PageFile) -> Option<&Bytes>
        ensures { option_copied result ≡ held self.now file }
    {
        match file {
            PageFile::Index => self.index.as_ref(),
            PageFile::Script => self.script.as_ref(),
            PageFile::Worker => self.worker.as_ref(),
            PageFile::Library => self.library.as_ref(),
            PageFile::Module => self.module.as_ref(),
            PageFile::Style => self.style.as_ref(),
            PageFile::Icon => self.icon.as_ref(),
        }
    }
}

// Reads a file of a page, if it can be read. Fails if memory runs out.
fn try_file<R>(files: &R, folder: &str, file: PageFile) -> io::Result<Option<Bytes>>
where
    R: Files<File = File> + AllocGlobal,
{
    match read_file(files, folder, file) {
        Ok(bytes) => Ok(Some(bytes)),
        Err(error) if error.kind() == ErrorKind::OutOfMemory => Err(error),
        Err(_) => Ok(None),
    }
}

// Reads a file of a page: at most its first 16 MiB.
fn read_file<R>(files: &R, folder: &str, file: PageFile) -> io::Result<Bytes>
where
    R: Files<File = File> + AllocGlobal,
{
    let alloc = files.alloc();
    let name = file.name();
    let path = format!(in alloc; "{folder}/{name}")?;
    let mut bytes = Vec::new(alloc);
    fs::open(files, &path)?
        .take(MOST_FILE_BYTES)
        .read_to_end(&mut bytes)?;
    match Bytes::from_vec(bytes) {
        Ok(bytes) => Ok(bytes),
        Err(_) => Err(io::Error::from(ErrorKind::OutOfMemory)),
    }
}
