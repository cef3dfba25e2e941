// A tree of a document's objects.
ghost use Rattle.std.specs.Prelude.{◌≡◌, ◌↔◌, ◌++◌, IfOk, IsTrue, OnErr, OnOk, min};
ghost use Rattle.std.specs.Option.{option_map};
ghost use Rattle.canvas_tree.specs.Shapes.{HaveOneHead, branch_size, forest_of};
ghost use Rattle.canvas_tree.specs.Reads.{found, path, path_in, Walked};
ghost use Rattle.canvas_tree.specs.Texts.{tree_text};

use crate::texts::write_tree;
use canvas_doc::{Kind, ObjId};
use canvas_pos::Pos;
use canvas_value::{Name, Value, copy_props, same_props};
use std::alloc::{AllocError, Allocator, Global};
use std::marker::Model;

/// An object of a document with its properties, and the trees of its children. All of it stands
/// under one allocator.
///
/// A tree that was grown of a document has the root at its top; children stand by position and then
/// by id, properties by name. A tree in an arena borrows the arena, and so is dropped before the
/// arena's reset.
#[derive(Debug)]
pub struct Tree<A: Allocator = Global> {
    /// The id of the object at the top.
    pub id: ObjId,
    /// What it is.
    pub kind: Kind,
    /// Its position among its parent's children; none at the root.
    pub pos: Option<Pos<A>>,
    /// Its properties.
    pub props: Vec<(Name<A>, Value<A>), A>,
    /// The trees below it.
    pub children: Vec<Tree<A>, A>,
}

impl<A: Allocator> Drop for Tree<A> {
    fn drop(self) {
        let Tree {
            id: _,
            kind: _,
            pos: _,
            props: _,
            children: _,
        } = self;
    }
}

impl<A: Allocator> Model for Tree<A> {
    ghost use Rattle.canvas_tree.specs.Shapes.{Branch, branch_size};
    ghost use Rattle.canvas_tree.specs.Stored.{branch_code};

    ghost Value = { Branch };

    ghost coded = { branch_code };

    ghost use Rattle.std.proofs.Common.{arith};
    ghost use Rattle.canvas_tree.specs.Shapes.{branch};
    ghost use Rattle.canvas_tree.specs.Stored.{most_members};

    ghost view = { λ t. branch t.id t.kind t.pos t.props.items t.children.items };

    ghost size = { branch_size };

    ghost size_decreases = { λ a h. omega (arith, most_members a.children.items) };
}

impl<A: Allocator> Tree<A> {
    /// How many objects stand in the tree. Past `u64::MAX` the answer stays `u64::MAX`.
    pub fn count(&self) -> u64
        ensures { result ≡ min (branch_size self.now) 18446744073709551615 }
    {
        let mut total = 1u64;
        for child in &self.children {
            total = total.saturating_add(child.count());
        }
        total
    }

    /// The tree at the object of this id, if it stands in the tree.
    pub fn find(&self, id: ObjId) -> Option<&Tree<A>>
        ensures { option_map (λ t. t.now) result ≡ found id self.now }
    {
        if self.id == id {
            return Some(self);
        }
        for child in &self.children {
            if let Some(tree) = child.find(id) {
                return Some(tree);
            }
        }
        None
    }

    /// The ids from the top of the tree down to this object, both among them, or none if it doesn't
    /// stand in the tree. Errors: out of memory.
    pub fn path_to<B: Allocator>(
        &self,
        alloc: B,
        id: ObjId,
    ) -> Result<Option<Vec<ObjId, B>>, AllocError>
        ensures { IfOk result (λ p. option_map (λ v. v.items) p ≡ path id self.now) }
    {
        let mut ids = Vec::new(alloc);
        if walk(self, id, &mut ids)? {
            Ok(Some(ids))
        } else {
            Ok(None)
        }
    }

    /// The same tree under another allocator. Fails only if memory runs out, and then leaves
    /// nothing behind.
    pub fn copy_in<B: Allocator + Copy>(&self, alloc: B) -> Result<Tree<B>, AllocError>
        ensures { IfOk result (λ t. t ≡ self.now) }
    {
        copy_tree(alloc, self)
    }

    /// Writes the text of the tree at this level: a line for each object and, one level deeper, for
    /// each of its properties, two blanks deeper at each level; then the trees below it, one level
    /// deeper. An object's line is its id, its kind, and its position if it has one; a property's
    /// is a full stop and its name, a blank and the compact JSON of its value.
    ///
    /// `alloc` serves for the text while it is made. Fails only if memory runs out, and then
    /// `out` is unchanged.
    pub fn text<B: Allocator>(
        &self,
        alloc: Global,
        level: usize,
        out: &mut Vec<u8, B>,
    ) -> Result<(), AllocError>
        ensures ok { OnOk result (out.new.items ≡ out.old.items ++ tree_text self.now level) }
        ensures err { OnErr result (out.new.items ≡ out.old.items) }
    {
        let mut text = Vec::new(alloc);
        write_tree(alloc, self, level, &mut text)?;
        out.extend_from_slice(&text)
    }

    /// Checks whether two trees are the same, whichever allocators hold them. It takes no memory.
    pub fn same<B: Allocator>(&self, other: &Tree<B>) -> bool
        ensures { IsTrue result ↔ (self.now ≡ other.now) }
    {
        same_tree(self, other)
    }
}

// Writes the path to the object and says whether there is one; where there is none, nothing is
// written.
#[cycle(walk)]
fn walk<A: Allocator, B: Allocator>(
    tree: &Tree<A>,
    id: ObjId,
    ids: &mut Vec<ObjId, B>,
) -> Result<bool, AllocError>
    ensures { IfOk result (λ yes. Walked yes (path id tree.now) ids.old.items ids.new.items) }
{
    ids.push(tree.id)?;
    if tree.id == id {
        return Ok(true);
    }
    if walk_among(&tree.children, id, ids)? {
        return Ok(true);
    }
    let _ = ids.pop();
    Ok(false)
}

// The same in the first of these trees that has the object.
#[cycle(walk)]
fn walk_among<A: Allocator, B: Allocator>(
    trees: &[Tree<A>],
    id: ObjId,
    ids: &mut Vec<ObjId, B>,
) -> Result<bool, AllocError>
    ensures { IfOk result (λ yes.
        Walked yes (path_in id (forest_of trees.now)) ids.old.items ids.new.items) }
{
    for tree in trees {
        if walk(tree, id, ids)? {
            return Ok(true);
        }
    }
    Ok(false)
}

// The same tree under another allocator.
#[cycle(copy)]
fn copy_tree<A: Allocator, B: Allocator + Copy>(
    alloc: B,
    tree: &Tree<A>,
) -> Result<Tree<B>, AllocError>
    ensures { IfOk result (λ t. t ≡ tree.now) }
{
    let children = copy_trees(alloc, &tree.children)?;
    let pos = copy_pos(alloc, &tree.pos)?;
    let props = copy_props(alloc, &tree.props)?;
    Ok(Tree {
        id: tree.id,
        kind: tree.kind,
        pos,
        props,
        children,
    })
}

// The same trees under another allocator.
#[cycle(copy)]
fn copy_trees<A: Allocator, B: Allocator + Copy>(
    alloc: B,
    trees: &[Tree<A>],
) -> Result<Vec<Tree<B>, B>, AllocError>
    ensures { IfOk result (λ v. v.items ≡ trees.now) }
{
    let mut copies = Vec::with_capacity(alloc, trees.len())?;
    for tree in trees {
        let copy = copy_tree(alloc, tree)?;
        copies.push(copy)?;
    }
    Ok(copies)
}

// The same position under another allocator, or none again.
fn copy_pos<A: Allocator, B: Allocator + Copy>(
    alloc: B,
    pos: &Option<Pos<A>>,
) -> Result<Option<Pos<B>>, AllocError>
    ensures { IfOk result (λ p. p ≡ pos.now) }
{
    pos.as_ref().map(|pos| pos.copy(alloc)).transpose()
}

// Checks whether two trees are the same.
#[cycle(same)]
fn same_tree<A: Allocator, B: Allocator>(one: &Tree<A>, other: &Tree<B>) -> bool
    ensures { IsTrue result ↔ (one.now ≡ other.now) }
{
    same_label(one, other) && same_trees(&one.children, &other.children)
}

// Checks whether the trees are the same, in the same order.
#[cycle(same)]
fn same_trees<A: Allocator, B: Allocator>(ones: &[Tree<A>], others: &[Tree<B>]) -> bool
    ensures { IsTrue result ↔ (ones.now ≡ others.now) }
{
    if ones.len() != others.len() {
        return false;
    }
    for i in 0..ones.len() {
        if !same_tree(&ones[i], &others[i]) {
            return false;
        }
    }
    true
}

// Checks whether the two objects at the tops are the same, but for what is below them.
fn same_label<A: Allocator, B: Allocator>(one: &Tree<A>, other: &Tree<B>) -> bool
    ensures { IsTrue result ↔ (one.now.label ≡ other.now.label) }
{
    same_head(one, other) && same_props(&one.props, &other.props)
}

// Checks whether their ids, their kinds and their positions are the same.
fn same_head<A: Allocator, B: Allocator>(one: &Tree<A>, other: &Tree<B>) -> bool
    ensures { IsTrue result ↔ HaveOneHead one.now.label other.now.label }
{
    one.id == other.id && one.kind == other.kind && same_pos(&one.pos, &other.pos)
}

// Checks whether the two are the same position, or both none.
fn same_pos<A: Allocator, B: Allocator>(one: &Option<Pos<A>>, other: &Option<Pos<B>>) -> bool
    ensures { IsTrue result ↔ (one.now ≡ other.now) }
{
    match (one, other) {
        (Some(one), Some(other)) => one.same(other),
        (None, None) => true,
        _ => false,
    }
}
