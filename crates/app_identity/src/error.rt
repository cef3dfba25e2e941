// Why a document has no identity.
ghost use Rattle.std.specs.Prelude.{◌≡◌};

use std::alloc::AllocError;
use std::io::{self, ErrorKind};
use thiserror::Error;

/// Why a document has no identity.
#[derive(Clone, Copy, Debug, PartialEq, Eq, Error)]
pub enum IdentityError {
    /// What stands there is no identity.
    #[error("not 32 hex digits")]
    NotOne,
    /// The sum beside it names another.
    #[error("not the one that identity.sum names")]
    Changed,
    /// The file can't be read or written, or the system gives no random bits.
    #[error("the folder can't be read and written")]
    Device,
    /// Memory ran out.
    #[error("out of memory")]
    Memory,
}

impl From<AllocError> for IdentityError {
    ghost use Rattle.app_identity.specs.declared.error.IdentityError.TheVariants.{Memory};

    ghost from_gives = { λ _ e. e ≡ Memory };

    fn from(_: AllocError) -> IdentityError {
        IdentityError::Memory
    }
}

impl From<io::Error> for IdentityError {
    // A text that isn't UTF-8 is none.
    fn from(error: io::Error) -> IdentityError {
        match error.kind() {
            ErrorKind::OutOfMemory => IdentityError::Memory,
            ErrorKind::InvalidData => IdentityError::NotOne,
            _ => IdentityError::Device,
        }
    }
}
