// Why words ask for nothing.
ghost use Rattle.std.specs.Prelude.{◌≡◌};

use app_faults::Fault;
use app_identity::AddressError;
use std::alloc::{AllocError, AllocFailed};
use thiserror::Error;

/// Why words ask for nothing.
#[derive(Drop)]
pub enum WordsError {
    /// They are no command, or ask for its help or version.
    Line(clap::Error),
    /// They are a command, of which a word isn't as it has to be; or memory ran out.
    Word(WordError),
}

/// Which word isn't as it has to be.
#[derive(Clone, Copy, Debug, PartialEq, Eq, Error)]
pub enum WordError {
    /// An origin isn't as browsers send it.
    #[error("no origin")]
    NotAnOrigin,
    /// A host isn't as browsers send it.
    #[error("no host")]
    NotAHost,
    /// The URLs of an etcd aren't as `http://127.0.0.1:2379`, or there is none.
    #[error("no URL of an etcd")]
    NotAUrl,
    /// The name of a document in an etcd isn't 1 to 64 letters, digits, `-`, `.` and `_`.
    #[error("no name of a document")]
    NotAName,
    /// Memory ran out.
    #[error("out of memory")]
    Memory,
}

impl From<AddressError> for WordsError {
    fn from(error: AddressError) -> WordsError {
        WordsError::Word(match error {
            AddressError::NotAUrl => WordError::NotAUrl,
            AddressError::NotAName => WordError::NotAName,
            AddressError::Memory => WordError::Memory,
        })
    }
}

impl From<AllocError> for WordsError {
    fn from(_: AllocError) -> WordsError {
        WordsError::Word(WordError::Memory)
    }
}

impl<T: Drop> From<AllocFailed<T>> for WordsError {
    fn from(_: AllocFailed<T>) -> WordsError {
        WordsError::Word(WordError::Memory)
    }
}

impl From<WordError> for Fault {
    ghost use Rattle.app_args.specs.Wrong.{fault_of_word};

    ghost from_gives = { λ error fault. fault ≡ fault_of_word error };

    fn from(error: WordError) -> Fault {
        match error {
            WordError::NotAnOrigin => Fault::NotAnOrigin,
            WordError::NotAHost => Fault::NotAHost,
            WordError::NotAUrl => Fault::NotAUrl,
            WordError::NotAName => Fault::NotAName,
            WordError::Memory => Fault::Memory,
        }
    }
}
