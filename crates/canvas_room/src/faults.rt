// Why there is no room.
use std::alloc::AllocError;
use thiserror::Error;

/// Why a room isn't made or opened.
#[derive(Clone, Copy, Debug, PartialEq, Eq, Error)]
pub enum RoomError {
    /// A room has 1 to 64 seats.
    #[error("a room has 1 to 64 seats")]
    SeatCount = 1,
    /// No reader is left for a seat. It can't be told from out of memory, so that is returned instead.
    #[error("no reader for a seat")]
    NoPlace = 2,
    /// Memory ran out.
    #[error("out of memory")]
    Memory = 3,
}

impl From<AllocError> for RoomError {
    ghost use Rattle.std.specs.Prelude.{◌≡◌};
    ghost use Rattle.canvas_room.specs.declared.faults.RoomError.TheVariants.{Memory};

    ghost from_gives = { λ _ e. e ≡ Memory };

    fn from(_error: AllocError) -> RoomError {
        RoomError::Memory
    }
}
