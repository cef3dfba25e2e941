// What a client sends on a connection.
use memory_sockets::socket;
use std::alloc::{AllocError, Global};
use tungstenite::{Message, Role};

// Adds the bytes by which a client sends this message.
fn add_message(alloc: Global, message: Message, sent: &mut Vec<u8>) -> Result<(), AllocError> {
    let mut sender = socket(alloc, &[], Role::Client);
    match sender.send(message) {
        Ok(()) => sent.extend_from_slice(&sender.into_inner().writer),
        Err(_) => Err(AllocError),
    }
}

/// Adds the bytes by which a client sends a message of these bytes, as all messages of clients are sent.
pub fn add_bytes(alloc: Global, bytes: &[u8], sent: &mut Vec<u8>) -> Result<(), AllocError> {
    add_message(alloc, Message::binary(alloc, bytes)?, sent)
}

/// Adds the bytes by which a client sends a message of this text.
pub fn add_text(alloc: Global, text: &str, sent: &mut Vec<u8>) -> Result<(), AllocError> {
    add_message(alloc, Message::text(alloc, text)?, sent)
}

/// Adds the same for a message of each proper beginning of these bytes, the shortest first.
pub fn add_beginnings(alloc: Global, bytes: &[u8], sent: &mut Vec<u8>) -> Result<(), AllocError> {
    for size in 0..bytes.len() {
        add_bytes(alloc, &bytes[..size], sent)?;
    }
    Ok(())
}
