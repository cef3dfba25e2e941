// Blocks of a report: the tree of a document under a head line.
ghost use Rattle.std.specs.Prelude.{◌≡◌, IfOk, OnErr, OnOk};
ghost use Rattle.canvas_lines.specs.Blocks.{IsBlock, IsBlockText};

use bumpalo::Bump;
use canvas_doc::Doc;
use canvas_tree::grow;
use std::alloc::{AllocError, Global};

/// Adds a block to `out`: the head, a line feed, and the text of the document's tree at level 1. The
/// tree is grown in an arena, which ends after it. Fails only if memory runs out, and then `out`
/// is as it was.
pub fn block(alloc: Global, head: &[u8], doc: &Doc, out: &mut Vec<u8>) -> Result<(), AllocError>
    ensures ok { OnOk result (IsBlock head.now doc.now out.old.items out.new.items) }
    ensures err { OnErr result (out.new.items ≡ out.old.items) }
{
    let text = block_text(alloc, head, doc)?;
    out.extend_from_slice(&text)
}

// The text of a block.
fn block_text(alloc: Global, head: &[u8], doc: &Doc) -> Result<Vec<u8>, AllocError>
    ensures { IfOk result (λ text. IsBlockText head.now doc.now text.items) }
{
    let arena = Bump::new(alloc);
    let tree = grow(&arena, doc)?;
    let mut text = Vec::from_slice(alloc, head)?;
    text.push(b'\n')?;
    tree.text(alloc, 1, &mut text)?;
    Ok(text)
}
