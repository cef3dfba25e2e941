// What the server answers requests.
use canvas_judge::Entry;
use std::alloc::{AllocError, Allocator, Global};
use thiserror::Error;

/// What becomes of a request, before anything has changed.
#[derive(Debug, Drop)]
pub enum Looked<A: Allocator = Global> {
    /// It is judged, and this is its entry, which may come next.
    Next(Entry<A>),
    /// The edit was judged already.
    Repeat {
        /// The number of the client's last judged edit.
        done: u64,
    },
    /// An edit before this one is missing.
    Gap {
        /// The number of the client's last judged edit.
        done: u64,
    },
}

/// What became of a request.
#[derive(Clone, Copy, Debug, PartialEq, Eq)]
pub enum Took {
    /// It was judged, and its entry made this version.
    Judged(u64),
    /// The edit was judged already.
    Repeat {
        /// The number of the client's last judged edit.
        done: u64,
    },
    /// An edit before this one is missing.
    Gap {
        /// The number of the client's last judged edit.
        done: u64,
    },
}

/// Why a request isn't taken: the first reason that holds, in this order. An edit that is a repeat or comes after a gap is answered
/// so, whether there is room for it or not.
#[derive(Clone, Copy, Debug, PartialEq, Eq, Error)]
pub enum TakeError {
    /// The edit's client hasn't joined.
    #[error("the client hasn't joined")]
    Stranger = 1,
    /// There are 2^62 entries; or it is a Join, and the next id is 4294967295.
    #[error("no entry more may come")]
    Full = 2,
    /// Memory ran out.
    #[error("out of memory")]
    Memory = 3,
}

impl From<AllocError> for TakeError {
    ghost use Rattle.std.specs.Prelude.{◌≡◌};
    ghost use Rattle.canvas_server.specs.declared.taking.TakeError.TheVariants.{Memory};

    ghost from_gives = { λ _ e. e ≡ Memory };

    fn from(_error: AllocError) -> TakeError {
        TakeError::Memory
    }
}
