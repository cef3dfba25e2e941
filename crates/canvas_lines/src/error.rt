// Why a line, or a part of one, isn't read.
ghost use Rattle.std.specs.Prelude.{◌≡◌};
ghost use Rattle.canvas_lines.specs.declared.error.LineError.TheVariants.{Unreadable, Memory};

use canvas_doc::TooDeep;
use canvas_model::{NotAKind, NotAnId};
use std::alloc::{AllocError, AllocFailed};
use thiserror::Error;

/// Why a line, or a part of one, isn't read.
#[derive(Clone, Copy, Debug, PartialEq, Eq, Error)]
pub enum LineError {
    /// Nothing is spelled so.
    #[error("cannot read")]
    Unreadable,
    /// Memory ran out.
    #[error("out of memory")]
    Memory,
}

impl From<AllocError> for LineError {
    ghost from_gives = { λ _ e. e ≡ Memory };

    fn from(_: AllocError) -> LineError {
        LineError::Memory
    }
}

impl<T: Drop> From<AllocFailed<T>> for LineError {
    ghost from_gives = { λ _ e. e ≡ Memory };

    fn from(_: AllocFailed<T>) -> LineError {
        LineError::Memory
    }
}

impl From<NotAnId> for LineError {
    ghost from_gives = { λ _ e. e ≡ Unreadable };

    fn from(_: NotAnId) -> LineError {
        LineError::Unreadable
    }
}

impl From<NotAKind> for LineError {
    ghost from_gives = { λ _ e. e ≡ Unreadable };

    fn from(_: NotAKind) -> LineError {
        LineError::Unreadable
    }
}

impl From<TooDeep> for LineError {
    ghost from_gives = { λ _ e. e ≡ Unreadable };

    fn from(_: TooDeep) -> LineError {
        LineError::Unreadable
    }
}
