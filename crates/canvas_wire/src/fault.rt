// What JSON tree bytes are the text of, and why they are refused.
ghost use Rattle.std.specs.Prelude.{◌≡◌, IfOk, IfErr};
ghost use Rattle.serde_json.specs.View.{view};
ghost use Rattle.canvas_wire.specs.Faults.{IsJson, IsNotJson, refusal};

use canvas_codec::JsonFault;
use canvas_doc::TooDeep;
use serde_json::Value as Json;
use std::alloc::{AllocError, AllocFailed, Global};
use thiserror::Error;

/// Why bytes are no message or entry: the first reason that holds, in this order, each looked for over the whole text before the
/// next. But memory can be refused before the text is read whole.
#[derive(Clone, Copy, Debug, PartialEq, Eq, Error)]
pub enum WireError {
    /// The bytes aren't JSON: not UTF-8, cut short, or nested more than 127 deep.
    #[error("the bytes aren't JSON")]
    NotJson,
    /// The JSON tree has the shape of no message, or of no entry, whatever its whole numbers.
    #[error("the JSON isn't that of a message")]
    NotAMessage,
    /// The shape fits, and some whole number is out of its range.
    #[error("a number is out of range")]
    OutOfRange,
    /// All else fits, and a value has lists more than 16 deep.
    #[error("a value has lists more than 16 deep")]
    TooDeep,
    /// Memory ran out.
    #[error("out of memory")]
    Memory,
}

impl From<TooDeep> for WireError {
    ghost use Rattle.canvas_wire.specs.Faults.{IsTooDeep};

    ghost from_gives = { λ _ e. IsTooDeep e };

    fn from(_error: TooDeep) -> WireError {
        WireError::TooDeep
    }
}

impl From<AllocError> for WireError {
    ghost use Rattle.canvas_wire.specs.Faults.{IsMemory};

    ghost from_gives = { λ _ e. IsMemory e };

    fn from(_error: AllocError) -> WireError {
        WireError::Memory
    }
}

impl<T: Drop> From<AllocFailed<T>> for WireError {
    ghost use Rattle.canvas_wire.specs.Faults.{IsMemory};

    ghost from_gives = { λ _ e. IsMemory e };

    fn from(_error: AllocFailed<T>) -> WireError {
        WireError::Memory
    }
}

// The JSON tree of which the bytes are JSON.
pub(crate) fn parse(heap: Global, bytes: &[u8]) -> Result<Json, WireError>
    ensures ok { IfOk result (λ j. IsJson bytes.now (view j)) }
    ensures fault { IfErr result (IsNotJson bytes.now) }
{
    match Json::from_slice(heap, bytes) {
        Ok(json) => Ok(json),
        Err(e) => if e.is_memory() {
            Err(WireError::Memory)
        } else {
            Err(WireError::NotJson)
        },
    }
}

// What a fault of the shape is answered as.
pub(crate) fn refusal(fault: JsonFault) -> WireError
    ensures { result ≡ refusal fault }
{
    match fault {
        JsonFault::NotAValue => WireError::NotAMessage,
        JsonFault::OutOfRange => WireError::OutOfRange,
        JsonFault::Memory => WireError::Memory,
    }
}
