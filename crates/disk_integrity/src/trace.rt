// What is left of a document beside its segments.
use thiserror::Error;

/// What is left of a document beside its segments. Nothing of it is there before a first segment was synced.
#[derive(Clone, Copy, Debug, PartialEq, Eq, Error)]
pub enum Trace {
    /// Its identity.
    #[error("its identity")]
    Identity,
    /// Sums that name bytes of a segment.
    #[error("sums of segment {segment}")]
    Sums {
        /// The segment's number.
        segment: u32,
    },
}
