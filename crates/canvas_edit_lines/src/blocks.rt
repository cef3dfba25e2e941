// The block of a client.
ghost use Rattle.std.specs.Prelude.{◌≡◌, IfOk, OnErr, OnOk, string_bytes};
ghost use Rattle.canvas_lines.specs.Blocks.{IsBlock};
ghost use Rattle.canvas_edit_lines.specs.Heads as heads;

use canvas_client::Client;
use canvas_lines::block;
use std::alloc::{AllocError, Global};

/// Adds the block of a client of this name: the name, its id, version and number of edits that wait, and the tree of its view. Fails
/// only if memory runs out, and then `out` is as it was.
pub fn write_client(
    alloc: Global,
    name: &[u8],
    client: &Client,
    out: &mut Vec<u8>,
) -> Result<(), AllocError>
    ensures ok { OnOk result (IsBlock (heads.node_head name.now client.now) client.now.view
        out.old.items out.new.items) }
    ensures err { OnErr result (out.new.items ≡ out.old.items) }
{
    let head = node_head(alloc, name, client)?;
    block(alloc, &head, client.view(), out)
}

// A node's name, its id, its version, and how many of its edits wait.
fn node_head(alloc: Global, name: &[u8], client: &Client) -> Result<Vec<u8>, AllocError>
    ensures { IfOk result (λ head. head.items ≡ heads.node_head name.now client.now) }
{
    let id = id_word(alloc, client)?;
    let version = client.version();
    let waiting = client.unacknowledged();
    let rest = format!(in alloc; " id {id} version {version} waiting {waiting}")?;
    let mut head = Vec::from_slice(alloc, name)?;
    head.extend_from_slice(rest.as_bytes())?;
    Ok(head)
}

// A node's id, or - where it has none.
fn id_word(alloc: Global, client: &Client) -> Result<String, AllocError>
    ensures { IfOk result (λ word. string_bytes word ≡ heads.id_word client.now.id) }
{
    match client.id() {
        Some(id) => format!(in alloc; "{id}"),
        None => String::from_str(alloc, "-"),
    }
}
