// What is wrong with sums.
use thiserror::Error;

/// Why sums don't hold of a segment, for the first line of them that doesn't. What is called `good` is the length up to which the lines
/// before it hold: so many bytes are those that were synced.
#[derive(Clone, Copy, Debug, PartialEq, Eq, Error)]
pub enum SumFault {
    /// The line isn't a length, a space and 64 bytes, or names a length below the one before: the sums themselves are damaged.
    #[error("behind {good} bytes that hold, a line can't be read")]
    Unreadable {
        /// How many bytes hold.
        good: usize,
    },
    /// The segment is shorter than it was.
    #[error("{named} bytes were synced, and fewer are there; the first {good} hold")]
    Short {
        /// How many bytes hold.
        good: usize,
        /// How many bytes were synced.
        named: usize,
    },
    /// So many bytes aren't those that were synced. The damage lies between the two lengths, or in the line.
    #[error("the bytes between {good} and {named} aren't those that were synced")]
    Changed {
        /// How many bytes hold.
        good: usize,
        /// How many bytes don't.
        named: usize,
    },
}
