// The blocks of a world, and its report.
ghost use Rattle.std.specs.Prelude.{◌≡◌, IfOk, OnErr, OnOk, length, string_bytes};
ghost use Rattle.canvas_script.specs.Report.{AddsBlocks, AddsNodeBlock, AddsReport, AddsServerBlock};
ghost use Rattle.canvas_script.specs.Report as report;

use crate::Names;
use canvas_edit_lines::write_client;
use canvas_lines::block;
use canvas_world::World;
use std::alloc::{AllocError, Global};

/// Adds the report: the server's block, and then one for each node in its order. Fails only if
/// memory runs out, and then `out` may have grown.
pub fn write_report(
    alloc: Global,
    names: &Names,
    world: &World,
    out: &mut Vec<u8>,
) -> Result<(), AllocError>
    ensures { OnOk result (AddsReport names.now world.now out.old.items out.new.items) }
{
    write_server(alloc, world, out)?;
    write_nodes(alloc, names, world, out)
}

// Adds the block of each node.
fn write_nodes(
    alloc: Global,
    names: &Names,
    world: &World,
    out: &mut Vec<u8>,
) -> Result<(), AllocError>
    ensures { OnOk result
        (AddsBlocks names.now world.now (length names.now) out.old.items out.new.items) }
{
    for k in 0..names.len() {
        write_node(alloc, names, world, k + 1, out)?;
    }
    Ok(())
}

/// Adds the server's block: what the server holds, and the tree of its whole log. Fails only if
/// memory runs out, and then `out` is as it was.
pub fn write_server(alloc: Global, world: &World, out: &mut Vec<u8>) -> Result<(), AllocError>
    ensures ok { OnOk result (AddsServerBlock world.now out.old.items out.new.items) }
    ensures err { OnErr result (out.new.items ≡ out.old.items) }
{
    let head = server_head(alloc, world)?;
    block(alloc, head.as_bytes(), world.server().state().doc(), out)
}

// What the server holds.
fn server_head(alloc: Global, world: &World) -> Result<String, AllocError>
    ensures { IfOk result (λ head. string_bytes head ≡ report.server_head world.now) }
{
    let server = world.server();
    let version = server.version();
    let synced = world.synced();
    let published = server.published();
    let floor = server.floor();
    format!(in alloc;
        "server version {version} synced {synced} published {published} floor {floor}"
    )
}

/// Adds the block of node `k`, counted from 1: its name, id, version and number of edits that wait,
/// and the tree of its view; nothing where there is no such node. Fails only if memory runs
/// out, and then `out` is as it was.
pub fn write_node(
    alloc: Global,
    names: &Names,
    world: &World,
    k: u64,
    out: &mut Vec<u8>,
) -> Result<(), AllocError>
    ensures ok { OnOk result (AddsNodeBlock names.now world.now k out.old.items out.new.items) }
    ensures err { OnErr result (out.new.items ≡ out.old.items) }
{
    let (Some(name), Some(client)) = (names.name(k), world.client(k)) else {
        return Ok(());
    };
    write_client(alloc, name, client, out)
}
