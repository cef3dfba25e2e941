// Why an answer can't be used.
use std::alloc::{AllocError, AllocFailed};
use thiserror::Error;

/// Why an answer can't be used.
#[derive(Clone, Copy, Debug, PartialEq, Eq, Error)]
pub enum GatewayError {
    /// The bytes are no answer of HTTP, or one that doesn't tell how long its body is.
    #[error("no answer of HTTP begins so")]
    NotHttp,
    /// The answer's head or body is longer than its limit.
    #[error("the answer is too large")]
    TooLarge,
    /// The body isn't JSON: not UTF-8, cut short, or nested more than 127 deep.
    #[error("the body isn't JSON")]
    NotJson,
    /// The body's JSON tree has the shape of no answer to what was asked.
    #[error("the body isn't what was asked for")]
    NotAnAnswer,
    /// Memory ran out.
    #[error("out of memory")]
    Memory,
}

impl From<AllocError> for GatewayError {
    ghost use Rattle.etcd_gateway.specs.Faults.{IsOutOfMemory};

    ghost from_gives = { λ _ e. IsOutOfMemory e };

    fn from(_error: AllocError) -> GatewayError {
        GatewayError::Memory
    }
}

impl<T: Drop> From<AllocFailed<T>> for GatewayError {
    ghost use Rattle.etcd_gateway.specs.Faults.{IsOutOfMemory};

    ghost from_gives = { λ _ e. IsOutOfMemory e };

    fn from(_error: AllocFailed<T>) -> GatewayError {
        GatewayError::Memory
    }
}
