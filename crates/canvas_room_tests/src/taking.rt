//! What a server is answered at the last version.
use crate::servers::{join, taken, with_pages};
use canvas_server::{Server, TakeError, Took};
use std::alloc::Global;
use std::test::Fail;

// What a server at the last version but one is answered: an edit, and then another.
fn at_the_end(alloc: Global) -> Result<bool, Fail> {
    let state = with_pages(alloc)?.state().copy_in(alloc)?;
    let mut server = Server::rebuild(alloc, state, (1 << 62) - 1);
    let last = taken(alloc, &mut server, 1, 3)?;
    let repeat = taken(alloc, &mut server, 1, 3)?;
    let gap = taken(alloc, &mut server, 1, 5)?;
    let full = taken(alloc, &mut server, 1, 4)?;
    let join = server.take(join());
    Ok(
        last == Ok(Took::Judged(1 << 62))
            && repeat == Ok(Took::Repeat { done: 3 })
            && gap == Ok(Took::Gap { done: 3 })
            && full == Err(TakeError::Full)
            && join == Err(TakeError::Full),
    )
}

#[test]
fn full(rt: HostRuntime) -> Result<(), Fail> {
    assert!(rt; at_the_end(rt.alloc())?);
    Ok(())
}
