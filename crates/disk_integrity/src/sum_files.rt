// The files of sums, one beside each segment.
ghost use Rattle.std.specs.Prelude.{◌≡◌, IfOk, string_bytes};

use crate::summing::Sums;
use crate::witness::Witness;
use std::alloc::{AllocError, Global};
use std::fs::{self, File, OpenOptions};
use std::io::{self, ErrorKind, Read};
use std::rt::Files;

/// The witness that writes the sums of each segment that it saw made: for segment 7 of a folder the file `segment-0000000007.sum`, of
/// which each sync writes a line (`RunningSum::line`). A retired segment's file is removed.
///
/// Nothing is synced, and no failure is told. If a line can't be written, or only in part, no further line of that segment is: so what
/// stands there are always the lines of its first syncs, and a part of one more. If this value is dropped before the first line of a segment
/// was written, its file is removed: the folder (`OsFolder`) removes that segment too.
pub struct SumFiles<R: Files + AllocGlobal + Drop> {
    files: R,
    dir: String,
    sums: Sums<R::File>,
}

impl<R: Files + AllocGlobal + Drop> Drop for SumFiles<R> {
    fn drop(self) {
        let SumFiles { files, dir, sums } = self;
        if let Some(number) = sums.without_line() {
            let _ = remove_file(&files, &dir, number);
        }
    }
}

// The path of the sums of a segment.
fn sum_path(alloc: Global, dir: &str, number: u32) -> Result<String, AllocError> {
    format!(in alloc; "{dir}/segment-{number:010}.sum")
}

/// The bytes of the file of a segment's sums; none where there is no such file.
///
/// Answers the system's error where the file is there and can't be read, or is no regular file.
pub fn read_sums<R: Files<File = File> + AllocGlobal>(
    files: &R,
    dir: &str,
    number: u32,
) -> io::Result<Vec<u8>> {
    let alloc = files.alloc();
    let path = sum_path(alloc, dir, number)?;
    let mut sums = Vec::new(alloc);
    match add_sums(files, path.as_str(), &mut sums) {
        Ok(()) => Ok(sums),
        Err(error) => Err(error),
    }
}

// Adds the bytes of the file of this path, if there is one. Nothing but a regular file is read.
fn add_sums<R: Files<File = File>>(files: &R, path: &str, sums: &mut Vec<u8>) -> io::Result<()> {
    match fs::symlink_metadata(files, path) {
        Ok(found) if found.is_file() => add_file(files, path, sums),
        Ok(_) => Err(io::Error::from(ErrorKind::InvalidInput)),
        Err(error) if error.kind() == ErrorKind::NotFound => Ok(()),
        Err(error) => Err(error),
    }
}

// Adds the bytes of a file.
fn add_file<R: Files<File = File>>(files: &R, path: &str, sums: &mut Vec<u8>) -> io::Result<()> {
    fs::open(files, path)?.read_to_end(sums)?;
    Ok(())
}

// Removes the file of a segment's sums, if there is one.
fn remove_file<R: Files + AllocGlobal>(files: &R, dir: &str, number: u32) -> io::Result<()> {
    let path = sum_path(files.alloc(), dir, number)?;
    fs::remove_file(files, path.as_str())
}

// Makes the file of a new segment's sums.
fn make_file<R: Files + AllocGlobal>(files: &R, dir: &str, number: u32) -> io::Result<R::File> {
    let path = sum_path(files.alloc(), dir, number)?;
    let mut how = OpenOptions::new();
    how.append(true).create_new(true);
    how.open(files, path.as_str())
}

impl<R: Files + AllocGlobal + Drop> SumFiles<R> {
    /// A witness of the segments of this folder. Errors: out of memory.
    pub fn new(files: R, dir: &str) -> Result<Self, AllocError>
        ensures { IfOk result (λ s. (s.files ≡ files) × (string_bytes s.dir ≡ dir.now) × (s.sums ≡ Sums.NoneMade)) }
    {
        let dir = String::from_str(files.alloc(), dir)?;
        Ok(SumFiles {
            files,
            dir,
            sums: Sums::NoneMade,
        })
    }
}

impl<R: Files + AllocGlobal + Drop> Witness for SumFiles<R> {
    ghost use Rattle.disk_integrity.specs.Sums.{SumsSee};

    ghost sees = { λ old change new. (new.files ≡ old.files) × (new.dir ≡ old.dir) × SumsSee R.File.contents change old.sums new.sums };

    fn created(&mut self, number: u32) {
        // An older file may be there. Mostly there is none.
        let _ = remove_file(&self.files, &self.dir, number);
        let made = make_file(&self.files, &self.dir, number);
        self.sums = Sums::begin(number, made);
    }

    fn appended(&mut self, number: u32, bytes: &[u8]) {
        self.sums.add(number, bytes);
    }

    fn synced(&mut self, number: u32) {
        self.sums.sync(self.files.alloc(), number);
    }

    fn retired(&mut self, number: u32) {
        // A file that stays does no harm: no other segment gets this number.
        let _ = remove_file(&self.files, &self.dir, number);
    }
}
