// What is told of a loss, of a call that failed, and of an etcd, inside a sentence.
use disk_integrity::{Loss, ShelfCall, SumFault, Trace};
use etcd_store::StoreError;
use std::fmt;

/// A loss, as a part of a sentence.
#[derive(Clone, Copy, Debug)]
pub(crate) struct Lost(pub(crate) Loss);

impl fmt::Display for Lost {
    ghost use Rattle.std.specs.Prelude.{Some};
    ghost use Rattle.app_faults.specs.Causes.{loss_text};

    ghost output = { λ lost. Some (loss_text lost.0) };

    fn fmt<W: fmt::Write>(&self, f: &mut fmt::Formatter<W>) -> fmt::Result {
        let Lost(loss) = *self;
        match loss {
            Loss::Sums { segment, fault } => match fault {
                SumFault::Unreadable { good } => write!(
                    f,
                    "the sums of segment {segment} can't be read behind those of its first {good} bytes"
                ),
                SumFault::Short { good: _, named } => write!(
                    f,
                    "segment {segment} had {named} bytes when it was synced, and has fewer"
                ),
                SumFault::Changed { good, named } => write!(
                    f,
                    "segment {segment} has other bytes between {good} and {named} than were synced"
                ),
            },
            Loss::NoCheckpoint { segment, offset } => write!(
                f,
                "segment {segment} is no checkpoint that a crash cut short, at offset {offset}"
            ),
            Loss::NoCutRecord { segment, offset } => write!(
                f,
                "segment {segment} has more behind offset {offset} than a crash leaves"
            ),
            Loss::Gone { trace } => match trace {
                Trace::Identity => write!(
                    f,
                    "no segment of the document is left, but its identity is"
                ),
                Trace::Sums { segment } => write!(
                    f,
                    "no segment of the document is left, but sums of segment {segment} are"
                ),
            },
        }
    }
}

/// Which call failed, where that is known, as a part of a sentence.
#[derive(Clone, Copy, Debug)]
pub(crate) struct Cause(pub(crate) Option<ShelfCall>);

impl fmt::Display for Cause {
    ghost use Rattle.std.specs.Prelude.{Some};
    ghost use Rattle.app_faults.specs.Causes.{cause_text};

    ghost output = { λ cause. Some (cause_text cause.0) };

    fn fmt<W: fmt::Write>(&self, f: &mut fmt::Formatter<W>) -> fmt::Result {
        let Cause(call) = *self;
        match call {
            None => write!(f, ""),
            Some(ShelfCall::List) => write!(f, " when the folder was listed"),
            Some(ShelfCall::Read(number)) => write!(f, " when segment {number} was read"),
            Some(ShelfCall::Create(number)) => write!(f, " when segment {number} was made"),
            Some(ShelfCall::Append(number)) => write!(f, " when segment {number} was written"),
            Some(ShelfCall::Sync(number)) => write!(f, " when segment {number} was synced"),
            Some(ShelfCall::Retire(number)) => write!(f, " when segment {number} was removed"),
        }
    }
}

/// What is wrong with an etcd that didn't do what it was asked, as the part of a sentence after its name.
#[derive(Clone, Copy, Debug)]
pub struct Why(pub StoreError);

impl fmt::Display for Why {
    ghost use Rattle.std.specs.Prelude.{Some};
    ghost use Rattle.app_faults.specs.Causes.{why_text};

    ghost output = { λ why. Some (why_text why.0) };

    fn fmt<W: fmt::Write>(&self, f: &mut fmt::Formatter<W>) -> fmt::Result {
        let Why(error) = *self;
        match error {
            StoreError::Unreachable => write!(f, "can't be reached"),
            StoreError::Unanswered => write!(f, "doesn't answer"),
            StoreError::Refused => write!(f, "wants a password, or denies permission"),
            StoreError::TlsWanted => write!(f, "wants TLS"),
            StoreError::NoSpace => write!(f, "has no space left"),
            StoreError::Damaged => write!(f, "holds damaged or foreign keys"),
            StoreError::Lost => write!(f, "no longer names this process as its owner"),
            StoreError::Memory => write!(f, "wasn't asked, out of memory"),
        }
    }
}

/// What a person may do about that, as the end of a sentence.
#[derive(Clone, Copy, Debug)]
pub struct Advice(pub StoreError);

impl fmt::Display for Advice {
    ghost use Rattle.std.specs.Prelude.{Some};
    ghost use Rattle.app_faults.specs.Causes.{advice_text};

    ghost output = { λ advice. Some (advice_text advice.0) };

    fn fmt<W: fmt::Write>(&self, f: &mut fmt::Formatter<W>) -> fmt::Result {
        let Advice(error) = *self;
        match error {
            StoreError::Unreachable => write!(f, "look at its URLs, and whether it runs"),
            StoreError::Unanswered => write!(f, "look at its health"),
            StoreError::Refused => write!(f, "turn its authentication off"),
            StoreError::TlsWanted => write!(f, "name a port with plain HTTP, or a tunnel"),
            StoreError::NoSpace => write!(f, "make room in it"),
            StoreError::Damaged => {
                write!(f, "delete the foreign ones, or put a snapshot in its place")
            }
            StoreError::Lost => write!(f, "start again"),
            StoreError::Memory => write!(f, "free some"),
        }
    }
}

/// Why an etcd failed, if it is known, as a part of a sentence.
#[derive(Clone, Copy, Debug)]
pub(crate) struct Because(pub(crate) Option<StoreError>);

impl fmt::Display for Because {
    ghost use Rattle.std.specs.Prelude.{Some};
    ghost use Rattle.app_faults.specs.Causes.{because_text};

    ghost output = { λ because. Some (because_text because.0) };

    fn fmt<W: fmt::Write>(&self, f: &mut fmt::Formatter<W>) -> fmt::Result {
        let Because(why) = *self;
        match why {
            None => write!(f, ""),
            Some(error) => {
                let told = Why(error);
                write!(f, ", because the etcd {told}")
            }
        }
    }
}
