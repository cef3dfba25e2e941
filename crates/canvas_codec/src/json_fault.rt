// Why a JSON tree is no value.
use std::alloc::{AllocError, AllocFailed};
use thiserror::Error;

/// Why [`from_json`](crate::from_json) gives no value: the first case that holds, in this
/// order. But memory can be refused before the JSON tree is read whole.
#[derive(Clone, Copy, Debug, PartialEq, Eq, Error)]
pub enum JsonFault {
    /// The JSON tree isn't that of a value, whatever its whole numbers: it has `null`, a JSON object,
    /// another array, or a number that isn't a whole number of 64 bits.
    #[error("the JSON isn't that of a value")]
    NotAValue,
    /// The JSON tree is that of a value but for a number past the signed 64 bits, or a colour that isn't
    /// one of 0 to 4294967295.
    #[error("a number is out of range")]
    OutOfRange,
    /// Memory ran out.
    #[error("out of memory")]
    Memory,
}

impl From<AllocError> for JsonFault {
    ghost use Rattle.canvas_codec.specs.Faults.{IsMemory};

    ghost from_gives = { λ _ f. IsMemory f };

    fn from(_error: AllocError) -> JsonFault {
        JsonFault::Memory
    }
}

impl<T: Drop> From<AllocFailed<T>> for JsonFault {
    ghost use Rattle.canvas_codec.specs.Faults.{IsMemory};

    ghost from_gives = { λ _ f. IsMemory f };

    fn from(_error: AllocFailed<T>) -> JsonFault {
        JsonFault::Memory
    }
}
