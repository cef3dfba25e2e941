// Why a desk doesn't do what it is asked.
use canvas_journal::KeepError;
use canvas_server::TakeError;
use std::alloc::AllocError;
use thiserror::Error;

/// Why the server's rule refuses a request: the first reason that holds, in this order.
#[derive(Clone, Copy, Debug, PartialEq, Eq, Error)]
pub enum Refusal {
    /// The edit's client hasn't joined.
    #[error("the client hasn't joined")]
    Stranger,
    /// The edit was judged already.
    #[error("the client's edits up to {done} are judged")]
    Repeat {
        /// The number of the client's last judged edit.
        done: u64,
    },
    /// An edit before this one is missing.
    #[error("an edit is missing after {done}")]
    Gap {
        /// The number of the client's last judged edit.
        done: u64,
    },
    /// There are 2^62 entries; or it is a Join, and the next id is 4294967295.
    #[error("no entry more may come")]
    Full,
}

/// Why a request has no receipt, or a checkpoint no floor that is published.
#[derive(Clone, Copy, Debug, PartialEq, Eq, Error)]
pub enum SubmitError {
    /// The server's rule refuses the request.
    #[error(transparent)]
    Refused(Refusal),
    /// No entry of the request comes into the history, for this reason of the keeper's, or since the desk itself was refused memory. After
    /// Device the entry may be found all the same. At a checkpoint Memory stands too where it is written and its floor is owed.
    #[error(transparent)]
    NotKept(KeepError),
    /// Memory ran out for publishing an entry that is synced: it is owed, and the next call publishes it first.
    #[error("entry {version} is owed: out of memory")]
    Owed {
        /// The version of the last entry that is owed.
        version: u64,
    },
}

impl From<AllocError> for SubmitError {
    ghost use Rattle.std.specs.Prelude.{◌≡◌};
    ghost use Rattle.canvas_journal.specs.declared.fault.KeepError.TheVariants as keep;
    ghost use Rattle.canvas_desk.specs.declared.faults.SubmitError.TheVariants.{NotKept};

    ghost from_gives = { λ _ e. e ≡ NotKept keep.Memory };

    fn from(_error: AllocError) -> SubmitError {
        SubmitError::NotKept(KeepError::Memory)
    }
}

impl From<TakeError> for SubmitError {
    ghost use Rattle.std.specs.Prelude.{◌≡◌};
    ghost use Rattle.canvas_desk.specs.Faults.{not_taken};

    ghost from_gives = { λ e s. s ≡ not_taken e };

    fn from(error: TakeError) -> SubmitError {
        match error {
            TakeError::Stranger => SubmitError::Refused(Refusal::Stranger),
            TakeError::Full => SubmitError::Refused(Refusal::Full),
            TakeError::Memory => SubmitError::NotKept(KeepError::Memory),
        }
    }
}

impl From<KeepError> for SubmitError {
    ghost use Rattle.std.specs.Prelude.{◌≡◌};
    ghost use Rattle.canvas_desk.specs.declared.faults.SubmitError.TheVariants.{NotKept};

    ghost from_gives = { λ e s. s ≡ NotKept e };

    fn from(error: KeepError) -> SubmitError {
        SubmitError::NotKept(error)
    }
}
