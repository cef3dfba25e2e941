//! What a new server sends.
use crate::rooms::Room;
use canvas_sockets::serve_one;
use memory_sockets::{heard, socket};
use std::alloc::Global;
use std::test::Fail;
use tungstenite::Role;

// What a new server sends to a client that sends these bytes.
fn served(alloc: Global, bytes: &[u8]) -> Result<Vec<u8>, Fail> {
    let mut room = Room::new(alloc)?;
    let mut server = socket(alloc, bytes, Role::Server);
    let _ = serve_one(alloc, &mut room, &mut server);
    Ok(server.into_inner().writer)
}

/// The lines by which a new server answers a client that sends these bytes.
pub fn lines_to(alloc: Global, bytes: &[u8]) -> Result<Vec<u8>, Fail> {
    let told = served(alloc, bytes)?;
    Ok(heard(alloc, &told)?)
}

/// Checks whether a new server answers a client that sends these bytes by these lines.
pub fn answers(alloc: Global, bytes: &[u8], answered: &str) -> Result<bool, Fail> {
    Ok(lines_to(alloc, bytes)?.as_slice() == answered.as_bytes())
}
