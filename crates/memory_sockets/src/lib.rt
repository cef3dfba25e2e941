//! For tests: WebSockets over bytes in memory.
#![tactic(auto)]

use std::alloc::{AllocError, Global};
use tungstenite::{Duplex, Error, Message, NoMask, Role, WebSocket};

/// A socket that reads bytes of somebody else's, and keeps what it sends.
pub type MemorySocket<'a> = WebSocket<Duplex<&'a [u8], Vec<u8>>, NoMask>;

/// A socket of that role that reads these bytes.
pub fn socket(alloc: Global, bytes: &[u8], role: Role) -> MemorySocket<'_> {
    let stream = Duplex {
        reader: bytes,
        writer: Vec::new(alloc),
    };
    WebSocket::from_raw_socket(alloc, stream, NoMask, role, None)
}

/// The bytes by which a socket of that role sends each of these lines as a binary message. Fails if memory runs out.
pub fn sent(alloc: Global, lines: &str, role: Role) -> Result<Vec<u8>, Error> {
    let mut sender = socket(alloc, &[], role);
    for line in lines.lines() {
        sender.send(Message::binary(alloc, line.as_bytes())?)?;
    }
    Ok(sender.into_inner().writer)
}

/// The binary messages that a client reads in these bytes, each with a line feed. Fails if memory runs out.
pub fn heard(alloc: Global, bytes: &[u8]) -> Result<Vec<u8>, AllocError> {
    let mut client = socket(alloc, bytes, Role::Client);
    let mut lines = Vec::new(alloc);
    for _ in bytes {
        let Ok(message) = client.read() else {
            return Ok(lines);
        };
        if let Message::Binary(text) = message {
            lines.extend_from_slice(text.as_slice())?;
            lines.push(b'\n')?;
        }
    }
    Ok(lines)
}
