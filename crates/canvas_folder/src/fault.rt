// Why a call of the system failed.
use std::alloc::AllocError;
use std::io;
use std::io::ErrorKind;

// Why a call of the system failed, as far as anybody asks.
#[derive(Clone, Copy, Drop)]
pub(crate) enum OsFault {
    // Memory ran out.
    Memory,
    // This process has no descriptor left, or no process has.
    NoDescriptor,
    // The disk is full, or what its user may have of it.
    Full,
    // This process has no rights to it.
    Denied,
    // This process has no rights to a folder above it.
    AboveDenied,
    // Anything else.
    Device,
}

// The system's numbers for: this process has no descriptor left, and no process has.
const EMFILE: i32 = 24;

const ENFILE: i32 = 23;

impl OsFault {
    // The same of a call that needs the folders above.
    pub(crate) fn above(self) -> OsFault {
        match self {
            OsFault::Denied => OsFault::AboveDenied,
            fault => fault,
        }
    }
}

impl From<io::Error> for OsFault {
    fn from(e: io::Error) -> OsFault {
        match e.kind() {
            ErrorKind::OutOfMemory => OsFault::Memory,
            ErrorKind::StorageFull | ErrorKind::QuotaExceeded => OsFault::Full,
            ErrorKind::PermissionDenied => OsFault::Denied,
            _ => match e.raw_os_error() {
                Some(EMFILE | ENFILE) => OsFault::NoDescriptor,
                _ => OsFault::Device,
            },
        }
    }
}

impl From<AllocError> for OsFault {
    fn from(_: AllocError) -> OsFault {
        OsFault::Memory
    }
}
