//! Servers to ask, and what they are asked.
use canvas_server::{Request, Server, TakeError, Took};
use std::alloc::Global;
use std::test::Fail;
use test_rooms::{new_page, object};

/// The request of a client's edit that makes a page with the edit's number as its counter.
pub fn page(alloc: Global, client: u32, seq: u64) -> Result<Request, Fail> {
    let id = object(client, (seq % 1000) as u32);
    Ok(Request::Edit {
        client,
        seq,
        change: new_page(alloc, id)?,
    })
}

/// The request for an id.
pub fn join() -> Request {
    Request::Join
}

/// A server that client 1 has joined.
pub fn joined(alloc: Global) -> Result<Server, Fail> {
    let mut server = Server::new(alloc)?;
    server.take(join())?;
    Ok(server)
}

/// A server that client 1 has joined, where it has made two pages. Nothing is published.
pub fn with_pages(alloc: Global) -> Result<Server, Fail> {
    let mut server = joined(alloc)?;
    for seq in 1..3u64 {
        server.take(page(alloc, 1, seq)?)?;
    }
    Ok(server)
}

/// What the server makes of that edit.
pub fn taken(
    alloc: Global,
    server: &mut Server,
    client: u32,
    seq: u64,
) -> Result<Result<Took, TakeError>, Fail> {
    let request = page(alloc, client, seq)?;
    Ok(server.take(request))
}
