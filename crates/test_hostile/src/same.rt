// Whether clients and worlds are the same as others in ample memory, in all that they lend.
use canvas_client::Client;
use canvas_server::Server;
use canvas_world::World;
use std::alloc::{AllocError, Allocator, Global};

// Checks whether the edits that wait of two clients are the same.
fn same_waiting<A: Allocator + Copy>(
    alloc: Global,
    one: &Client<A>,
    two: &Client,
) -> Result<bool, AllocError> {
    let count = one.unacknowledged();
    if count != two.unacknowledged() {
        return Ok(false);
    }
    for i in 1..=count {
        if !one.message(alloc, i)?.same(&two.message(alloc, i)?) {
            return Ok(false);
        }
    }
    Ok(true)
}

/// Checks whether two clients are the same.
pub fn same_client<A: Allocator + Copy>(
    alloc: Global,
    one: &Client<A>,
    two: &Client,
) -> Result<bool, AllocError> {
    Ok(
        one.id() == two.id()
            && one.version() == two.version()
            && one.acknowledged() == two.acknowledged()
            && one.last_changes() == two.last_changes()
            && one.view().same(two.view())
            && same_waiting(alloc, one, two)?,
    )
}

// Checks whether two servers are the same.
fn same_server<A: Allocator>(one: &Server<A>, two: &Server) -> bool {
    one.version() == two.version()
        && one.published() == two.published()
        && one.floor() == two.floor()
        && one.state().same(two.state())
}

/// Checks whether two worlds of at most that many nodes are the same. The messages under way and the log are seen by what comes of them.
pub fn same_world<A: Allocator + Copy>(
    alloc: Global,
    one: &World<A>,
    two: &World,
    nodes: u64,
) -> Result<bool, AllocError> {
    for k in 1..=nodes {
        let is_same = match (one.client(k), two.client(k)) {
            (Some(client), Some(other)) => same_client(alloc, client, other)?,
            (None, None) => true,
            _ => false,
        };
        if !is_same {
            return Ok(false);
        }
    }
    Ok(one.synced() == two.synced() && same_server(one.server(), two.server()))
}
