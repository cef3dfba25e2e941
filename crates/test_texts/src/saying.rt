// What is said of texts of every kind.
use canvas_wire::WireError;
use std::alloc::{AllocError, Global};

/// What is said of a text that was read: the text that is written of it anew.
pub fn said(heap: Global, anew: &[u8]) -> Result<Vec<u8>, AllocError> {
    let mut text = Vec::from_slice(heap, b"Ok ")?;
    text.extend_from_slice(anew)?;
    Ok(text)
}

/// What is said of a text that was refused.
pub fn refused(heap: Global, fault: WireError) -> Result<Vec<u8>, AllocError> {
    match fault {
        WireError::NotJson => Vec::from_slice(heap, b"NotJson"),
        WireError::NotAMessage => Vec::from_slice(heap, b"NotAMessage"),
        WireError::OutOfRange => Vec::from_slice(heap, b"OutOfRange"),
        WireError::TooDeep => Vec::from_slice(heap, b"TooDeep"),
        WireError::Memory => Err(AllocError),
    }
}

/// What is said of a text whose parts can't be told.
pub fn unreadable(heap: Global) -> Result<Vec<u8>, AllocError> {
    Vec::from_slice(heap, b"cannot read")
}
