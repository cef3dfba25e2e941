// The tree of a client as text.
ghost use Rattle.std.specs.Prelude.{◌≡◌, ◌++◌, ◌-◌, ◌<◌, ◌^◌, IfOk, OnOk};
ghost use Rattle.canvas_tree.specs.Texts.{label_text};
ghost use Rattle.canvas_tree.specs.Trees.{label_of};
ghost use Rattle.canvas_embed.specs.Trees.{IsTextOfTree, IsTreeText, ListsBelow};

use canvas_client::Client;
use canvas_doc::{Doc, ObjId, Object};
use canvas_tree::{Tree, one_tree, stands_in_tree};
use canvas_value::copy_props;
use std::alloc::{AllocError, Global};

/// The text of the tree that the client shows. However deep the tree is, no call goes deeper. Errors: out of memory.
pub fn tree_text(alloc: Global, client: &Client) -> Result<Vec<u8>, AllocError>
    ensures { IfOk result (λ text. IsTreeText client.now text.items) }
{
    text_of(alloc, client.view())
}

// An object of which the lines are still to be written, at this level, and those of what is below it.
#[derive(Clone, Copy)]
struct Pending {
    id: ObjId,
    level: usize,
}

// The text of the tree of a document.
fn text_of(alloc: Global, doc: &Doc) -> Result<Vec<u8>, AllocError>
    ensures { IfOk result (λ text. IsTextOfTree doc.now text.items) }
{
    one_tree();
    stands_in_tree();
    let _objects = doc.objects();
    let mut text = Vec::new(alloc);
    // The next one is the last.
    let mut pending = Vec::new(alloc);
    pending.push(Pending {
        id: ObjId::ROOT,
        level: 0,
    })?;
    // No object stands in the tree twice.
    for _ in 0..doc.len() {
        let Some(next) = pending.pop() else {
            return Ok(text);
        };
        let Some(object) = doc.object(next.id) else {
            unreachable!()
        };
        write_object(alloc, next, object, &mut text)?;
        push_children(alloc, doc, next, &mut pending)?;
    }
    Ok(text)
}

// Writes the line of the object, and those of its properties.
fn write_object(
    alloc: Global,
    at: Pending,
    object: &Object,
    out: &mut Vec<u8>,
) -> Result<(), AllocError>
    ensures { OnOk result (out.new.items ≡ out.old.items ++ label_text at.level (label_of at.id object.now)) }
{
    let pos = match object.place() {
        Some(place) => Some(place.pos.copy(alloc)?),
        None => None,
    };
    let alone = Tree {
        id: at.id,
        kind: object.kind(),
        pos,
        props: copy_props(alloc, object.props())?,
        children: Vec::new(alloc),
    };
    alone.text(alloc, at.level, out)
}

// Puts the children of the object on the stack, a level deeper, the first one at its top.
fn push_children(
    alloc: Global,
    doc: &Doc,
    at: Pending,
    pending: &mut Vec<Pending>,
) -> Result<(), AllocError>
    requires { at.level < 2 ^ 64 - 1 }
    ensures { OnOk result (ListsBelow doc.now at pending.old.items pending.new.items) }
{
    let mut ids = doc.children(alloc, at.id)?;
    ids.reverse();
    for id in &ids {
        pending.push(Pending {
            id: *id,
            level: at.level + 1,
        })?;
    }
    Ok(())
}
