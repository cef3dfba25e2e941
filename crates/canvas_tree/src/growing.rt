// The tree of a document.
ghost use Rattle.std.specs.Prelude.{◌≡◌, IfOk, Some};
ghost use Rattle.std.specs.Option.{option_map};
ghost use Rattle.std.specs.FinMap as map;
ghost use Rattle.canvas_model.specs.Chain.{InTree};
ghost use Rattle.canvas_tree.specs.Trees.{IsTreeAt, IsTreeOf};

use crate::Tree;
use canvas_doc::{Doc, ObjId, Object};
use canvas_pos::Pos;
use canvas_value::copy_props;
use std::alloc::{AllocError, Allocator};

/// The tree of the document: the root at its top, and below each object the live objects whose
/// place names it, by position and then by id. What no chain of parents joins to the root isn't in
/// it: objects on or below a cycle of parents, and those at or below an object whose parent isn't
/// live.
///
/// It asks the document once for each object in the tree, and once for its children. Fails only
/// if memory runs out.
pub fn grow<A: Allocator + Copy, B: Allocator + Copy>(
    alloc: A,
    doc: &Doc<B>,
) -> Result<Tree<A>, AllocError>
    ensures { IfOk result (IsTreeOf doc.now) }
{
    let Some(root) = doc.object(ObjId::ROOT) else {
        unreachable!()
    };
    grow_at(alloc, doc, ObjId::ROOT, root)
}

// The tree at this object of the document, which stands in the document's tree.
fn grow_at<A: Allocator + Copy, B: Allocator + Copy>(
    alloc: A,
    doc: &Doc<B>,
    id: ObjId,
    object: &Object<B>,
) -> Result<Tree<A>, AllocError>
    requires live { map.get doc.now id ≡ Some object.now }
    requires in_tree { InTree doc.now id }
    ensures { IfOk result (IsTreeAt doc.now id) }
{
    let ids = doc.children(alloc, id)?;
    let mut children = Vec::with_capacity(alloc, ids.len())?;
    for child in &ids {
        let Some(below) = doc.object(*child) else {
            unreachable!()
        };
        let tree = grow_at(alloc, doc, *child, below)?;
        children.push(tree)?;
    }
    let pos = position(alloc, object)?;
    let props = copy_props(alloc, object.props())?;
    Ok(Tree {
        id,
        kind: object.kind(),
        pos,
        props,
        children,
    })
}

// The object's position, if it has a place.
fn position<A: Allocator, B: Allocator>(
    alloc: A,
    object: &Object<B>,
) -> Result<Option<Pos<A>>, AllocError>
    ensures { IfOk result (λ p. p ≡ option_map (λ p. p.pos) object.now.place) }
{
    match object.place() {
        Some(place) => Ok(Some(place.pos.copy(alloc)?)),
        None => Ok(None),
    }
}
