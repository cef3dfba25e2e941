// Why a store's call has no answer.
ghost use Rattle.std.specs.Prelude.{◌≡◌, MatchOption};
ghost use Rattle.etcd_store.specs.Errors.{error_code, error_of_refusal, is_final, more_telling};

use etcd_gateway::{GatewayError, GatewayRefusal};
use std::alloc::{AllocError, AllocFailed};
use std::io;
use std::io::ErrorKind;
use thiserror::Error;

/// Why a store's call has no answer.
#[derive(Clone, Copy, Debug, PartialEq, Eq, Error)]
pub enum StoreError {
    /// No endpoint took a connection: nothing was asked.
    #[error("no endpoint can be reached")]
    Unreachable,
    /// It was asked and no answer came in time, or none that can be used. Changes may have been made, and may be made yet.
    #[error("no answer came")]
    Unanswered,
    /// The etcd wants a user and a password, or denies the permission.
    #[error("the etcd refuses it")]
    Refused,
    /// An endpoint speaks TLS.
    #[error("the endpoint speaks TLS")]
    TlsWanted,
    /// The etcd's quota of space is used up.
    #[error("the etcd has no space")]
    NoSpace,
    /// What stands is no document: a key is none of a document's, or a chunk is missing or has another size.
    #[error("what stands is no document")]
    Damaged,
    /// Another owns the document, or its owner's key was deleted or put back. Changes were made before that, or never will be.
    #[error("another owns the document")]
    Lost,
    /// Memory ran out.
    #[error("out of memory")]
    Memory,
}

impl StoreError {
    // Which error it is, as a number from 1.
    pub(crate) fn code(self) -> u64
        ensures { result ≡ error_code self }
    {
        match self {
            StoreError::Unreachable => 1,
            StoreError::Unanswered => 2,
            StoreError::Refused => 3,
            StoreError::TlsWanted => 4,
            StoreError::NoSpace => 5,
            StoreError::Damaged => 6,
            StoreError::Lost => 7,
            StoreError::Memory => 8,
        }
    }

    // The error of this code. None where no error has it.
    pub(crate) fn of_code(code: u64) -> Option<StoreError>
        ensures { MatchOption result ((error : StoreError) → error_code error ≡ code → ⊥) (λ error. error_code error ≡ code) }
    {
        match code {
            1 => Some(StoreError::Unreachable),
            2 => Some(StoreError::Unanswered),
            3 => Some(StoreError::Refused),
            4 => Some(StoreError::TlsWanted),
            5 => Some(StoreError::NoSpace),
            6 => Some(StoreError::Damaged),
            7 => Some(StoreError::Lost),
            8 => Some(StoreError::Memory),
            _ => None,
        }
    }
}

// The error that a refusal is.
pub(crate) fn error_of(refusal: GatewayRefusal) -> StoreError
    ensures { result ≡ error_of_refusal refusal }
{
    match refusal {
        GatewayRefusal::Rights => StoreError::Refused,
        GatewayRefusal::Space => StoreError::NoSpace,
        GatewayRefusal::Other => StoreError::Unanswered,
    }
}

// Checks whether no other endpoint is asked after this error: the etcd itself has answered, or memory ran out.
pub(crate) fn is_final(error: StoreError) -> bool
    ensures { result ≡ is_final error }
{
    matches!(
        error,
        StoreError::Refused | StoreError::NoSpace | StoreError::Memory
    )
}

// Of the errors of two endpoints the one that comes later in the order of refusal: what was asked of one of them may have been done,
// though the other can't be reached.
pub(crate) fn more_telling(a: StoreError, b: StoreError) -> StoreError
    ensures { result ≡ more_telling a b }
{
    if a.code() < b.code() { b } else { a }
}

impl From<AllocError> for StoreError {
    fn from(_error: AllocError) -> StoreError {
        StoreError::Memory
    }
}

impl<T: Drop> From<AllocFailed<T>> for StoreError {
    fn from(_error: AllocFailed<T>) -> StoreError {
        StoreError::Memory
    }
}

impl From<GatewayError> for StoreError {
    fn from(error: GatewayError) -> StoreError {
        match error {
            GatewayError::Memory => StoreError::Memory,
            _ => StoreError::Unanswered,
        }
    }
}

impl From<io::Error> for StoreError {
    fn from(error: io::Error) -> StoreError {
        if error.kind() == ErrorKind::OutOfMemory {
            StoreError::Memory
        } else {
            StoreError::Unanswered
        }
    }
}
