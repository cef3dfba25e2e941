// When checkpoints are made.
use canvas_desk::TailLimit;

/// When checkpoints are made, and how many entries each of them keeps.
pub trait Pace {
    /// Checks whether a checkpoint is due while so many published entries are kept.
    fn is_due(&self, kept: u64) -> bool;

    /// The most that the checkpoint keeps of them.
    fn tail(&self) -> TailLimit;
}

/// A checkpoint whenever so many published entries are kept; it keeps none of them.
#[derive(Clone, Copy, Debug, PartialEq, Eq)]
pub struct EveryEntries(pub u64);

impl Pace for EveryEntries {
    fn is_due(&self, kept: u64) -> bool {
        kept >= self.0
    }

    fn tail(&self) -> TailLimit {
        TailLimit {
            entries: 0,
            bytes: 0,
        }
    }
}
