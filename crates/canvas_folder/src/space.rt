// Disk space for a file that is about to be made, and why one wasn't made.
ghost use Rattle.std.specs.Prelude.{◌≡◌, Some, MatchOption};

use crate::fault::OsFault;
use crate::path::FolderPath;
use std::alloc::{AllocError, Global};
use std::fs::File;
use std::io::Write;
use std::rt::Files;
use std::sync::Arc;
use std::sync::atomic::{AtomicU64, Ordering};

/// Why a file wasn't made.
#[derive(Clone, Copy, Debug, PartialEq, Eq)]
pub enum SpaceRefusal {
    /// The disk has no room for it.
    NoSpace {
        /// How many bytes are missing.
        missing: u64,
    },
    /// No descriptor is left for it.
    NoDescriptor,
}

impl SpaceRefusal {
    ghost use Rattle.canvas_folder.specs.Refusals.{code_of, refusal_of};

    // As a number: one more than the bytes that are missing.
    fn code(self) -> u64
        ensures { result ≡ code_of self }
    {
        match self {
            SpaceRefusal::NoSpace { missing } => missing.min(MOST_MISSING) + 1,
            SpaceRefusal::NoDescriptor => u64::MAX,
        }
    }

    // What a number says. 0 says that nothing was refused.
    fn of_code(code: u64) -> Option<SpaceRefusal>
        ensures { result ≡ refusal_of code }
    {
        match code {
            0 => None,
            u64::MAX => Some(SpaceRefusal::NoDescriptor),
            _ => Some(SpaceRefusal::NoSpace { missing: code - 1 }),
        }
    }
}

// The most missing bytes that are noted.
const MOST_MISSING: u64 = u64::MAX - 2;

// What was refused: how often, and why the last file that was asked for wasn't made; 0 if it was.
#[derive(Drop)]
struct Cells {
    refused: AtomicU64,
    last: AtomicU64,
}

/// The files of a folder that were refused: how many, and why the last one was. Each share reads the same in any thread, and never blocks.
pub struct Space {
    cells: Arc<Cells, Global>,
}

impl Drop for Space {
    fn drop(self) {
        let Space { cells: _ } = self;
    }
}

impl Space {
    // Nothing was refused yet.
    pub(crate) fn new(alloc: Global) -> Result<Space, AllocError> {
        let cells = Cells {
            refused: AtomicU64::new(0),
            last: AtomicU64::new(0),
        };
        Ok(Space {
            cells: Arc::new(alloc, cells)?,
        })
    }

    /// The same, for another thread. Errors: out of memory.
    pub fn share(&self) -> Result<Space, AllocError> {
        Ok(Space {
            cells: Arc::try_clone(&self.cells)?,
        })
    }

    /// How many files weren't made, for want of room or of a descriptor.
    pub fn refused(&self) -> u64 {
        self.cells.refused.load(Ordering::SeqCst)
    }

    /// Why the last file that was to be made wasn't; None if it was.
    pub fn last(&self) -> Option<SpaceRefusal> {
        SpaceRefusal::of_code(self.cells.last.load(Ordering::SeqCst))
    }

    // A file wasn't made.
    pub(crate) fn refuse(&self, refusal: SpaceRefusal) {
        self.cells.last.store(refusal.code(), Ordering::SeqCst);
        self.cells.refused.fetch_add(1, Ordering::SeqCst);
    }

    // A file was made.
    pub(crate) fn make(&self) {
        self.cells.last.store(0, Ordering::SeqCst);
    }
}

// The file that is written to see whether there is room. It is no segment's name, so recovery passes it over.
const SCRATCH: &[u8] = b".space";

// The bytes that are written to it.
static ZEROS: [u8; 65536] = [0; 65536];

// Room for a segment's name and its file of sums, and for a checkpoint that is a little longer than the segment before it.
pub(crate) const BESIDE: u64 = 65536;

// How many bytes the disk lacks for a file of this size and BESIDE, if it lacks any: zeros are written to the scratch file, which is then
// removed. A file system that compresses zeros may pass this and still have too little.
pub(crate) fn missing<R: Files<File = File>>(
    files: &R,
    path: &mut FolderPath,
    bytes: u64,
) -> Result<Option<u64>, OsFault> {
    // It may be there if a server was killed.
    let _ = path.remove(files, SCRATCH);
    let wanted = bytes.saturating_add(BESIDE);
    let left = match path.make(files, SCRATCH) {
        Ok(mut scratch) => write_zeros(&mut scratch, wanted),
        Err(OsFault::Full) => return Ok(Some(wanted)),
        Err(fault) => return Err(fault),
    };
    path.remove(files, SCRATCH)?;
    match left? {
        0 => Ok(None),
        missing => Ok(Some(missing)),
    }
}

// Writes `count` zeros. Returns how many were left when the disk was full, and 0 if it wasn't.
fn write_zeros<W: Write>(output: &mut W, count: u64) -> Result<u64, OsFault> {
    let mut left = count;
    for _ in 0..count {
        let size = left.min(ZEROS.len() as u64) as usize;
        if size == 0 {
            break;
        }
        let (zeros, _) = ZEROS.split_at(size);
        match output.write(zeros) {
            Ok(written) => left = left.saturating_sub(written as u64),
            Err(error) => return left_of(left, OsFault::from(error)),
        }
    }
    Ok(left)
}

// What is left if the disk is full.
fn left_of(left: u64, fault: OsFault) -> Result<u64, OsFault> {
    match fault {
        OsFault::Full => Ok(left),
        _ => Err(fault),
    }
}
