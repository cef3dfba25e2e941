// What no crash leaves.
use crate::SumFault;
use crate::trace::Trace;
use thiserror::Error;

/// What is found in a folder that no crash leaves, and what opening would lose.
#[derive(Clone, Copy, Debug, PartialEq, Eq, Error)]
pub enum Loss {
    /// Its sums don't hold.
    #[error("segment {segment} isn't what was synced: {fault}")]
    Sums {
        /// The segment's number.
        segment: u32,
        /// What is wrong with them.
        fault: SumFault,
    },
    /// Recovery passes over the segment for a checkpoint that was cut short, and it is none: it isn't a prefix of the checkpoint of what
    /// recovery finds below it.
    #[error("segment {segment} is no checkpoint that was cut short: at offset {offset} it differs")]
    NoCheckpoint {
        /// The segment's number.
        segment: u32,
        /// Where its first byte stands that the checkpoint hasn't got there.
        offset: usize,
    },
    /// What stands behind the whole records of the segment that recovery takes is no record that was cut short: more than one is there.
    #[error("segment {segment} doesn't end in a record that was cut short: at offset {offset} a length names more than there is, and further records stand behind it")]
    NoCutRecord {
        /// The segment's number.
        segment: u32,
        /// Where that record begins.
        offset: usize,
    },
    /// Recovery takes no segment, and what is left beside them says that one was synced.
    #[error("no segment of the document is left, but {trace}")]
    Gone {
        /// What is left of the document.
        trace: Trace,
    },
}
