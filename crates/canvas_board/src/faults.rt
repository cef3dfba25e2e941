// Why a read isn't answered.
use thiserror::Error;

/// Why what is published isn't read.
#[derive(Clone, Copy, Debug, PartialEq, Eq, Error)]
pub enum SeatError {
    /// The room has ended.
    #[error("the room has ended")]
    Closed,
    /// Memory ran out.
    #[error("out of memory")]
    Memory,
}
