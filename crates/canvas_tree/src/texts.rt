// The text of a tree.
ghost use Rattle.std.specs.Prelude.{◌≡◌, ◌++◌, ◌<◌, ◌^◌, IfOk, OnErr, OnOk, string_bytes};
ghost use Rattle.std.specs.List.{flat_map};
ghost use Rattle.canvas_tree.specs.Shapes.{forest_of};
ghost use Rattle.canvas_tree.specs.Texts.{blanks, forest_text, head_line, head_text, prop_line, tree_text};

use crate::Tree;
use canvas_codec::json_text;
use canvas_value::{Name, Value};
use std::alloc::{AllocError, Allocator, Global};

// Writes the text of the tree at this level. If memory runs out, `out` may have grown.
#[cycle(write)]
pub(crate) fn write_tree<A: Allocator, B: Allocator>(
    alloc: Global,
    tree: &Tree<A>,
    level: usize,
    out: &mut Vec<u8, B>,
) -> Result<(), AllocError>
    ensures { OnOk result (out.new.items ≡ out.old.items ++ tree_text tree.now level) }
{
    write_head(alloc, tree, level, out)?;
    push_props(alloc, &tree.props, level + 1, out)?;
    write_trees(alloc, &tree.children, level + 1, out)?;
    Ok(())
}

// Writes the texts of the trees, one after another. If memory runs out, `out` may have grown.
#[cycle(write)]
fn write_trees<A: Allocator, B: Allocator>(
    alloc: Global,
    trees: &[Tree<A>],
    level: usize,
    out: &mut Vec<u8, B>,
) -> Result<(), AllocError>
    ensures { OnOk result (
        out.new.items ≡ out.old.items ++ forest_text (forest_of trees.now) level) }
{
    for tree in trees {
        write_tree(alloc, tree, level, out)?;
    }
    Ok(())
}

// Writes the line of the object at the top.
fn write_head<A: Allocator, B: Allocator>(
    alloc: Global,
    tree: &Tree<A>,
    level: usize,
    out: &mut Vec<u8, B>,
) -> Result<(), AllocError>
    ensures text { OnOk result (out.new.items ≡ out.old.items ++ head_line level tree.now.label) }
    ensures low { OnOk result (level < 2 ^ 63) }
{
    let blanks = blanks(alloc, level)?;
    let head = head_text(alloc, tree)?;
    out.extend_from_slice(blanks.as_bytes())?;
    out.extend_from_slice(head.as_bytes())
}

// The object at the top: its id, its kind, and its position if it has one.
fn head_text<A: Allocator>(alloc: Global, tree: &Tree<A>) -> Result<String, AllocError>
    ensures { IfOk result (λ text. string_bytes text ≡ head_text tree.now.label) }
{
    let id = tree.id;
    let kind = tree.kind;
    match &tree.pos {
        Some(pos) => {
            let pos = pos.as_str();
            format!(in alloc; "{id} {kind} {pos}\n")
        }
        None => format!(in alloc; "{id} {kind}\n"),
    }
}

/// Writes a line for each of the properties at this level: two blanks for each level, a full stop
/// and the name, a blank and the compact JSON of the value.
///
/// `alloc` serves for the lines while they are made. Fails only if memory runs out, and then
/// `out` is unchanged.
pub fn write_props<A: Allocator, B: Allocator>(
    alloc: Global,
    props: &[(Name<A>, Value<A>)],
    level: usize,
    out: &mut Vec<u8, B>,
) -> Result<(), AllocError>
    ensures ok { OnOk result (
        out.new.items ≡ out.old.items ++ flat_map (prop_line level) props.now) }
    ensures err { OnErr result (out.new.items ≡ out.old.items) }
{
    let mut lines = Vec::new(alloc);
    push_props(alloc, props, level, &mut lines)?;
    out.extend_from_slice(&lines)
}

// Writes a line for each of the properties. If memory runs out, `out` may have grown.
fn push_props<A: Allocator, B: Allocator>(
    alloc: Global,
    props: &[(Name<A>, Value<A>)],
    level: usize,
    out: &mut Vec<u8, B>,
) -> Result<(), AllocError>
    ensures { OnOk result (out.new.items ≡ out.old.items ++ flat_map (prop_line level) props.now) }
{
    for prop in props {
        let line = prop_line(alloc, level, prop)?;
        out.extend_from_slice(line.as_bytes())?;
    }
    Ok(())
}

// The line of a property.
fn prop_line<A: Allocator>(
    alloc: Global,
    level: usize,
    prop: &(Name<A>, Value<A>),
) -> Result<String, AllocError>
    ensures { IfOk result (λ line. string_bytes line ≡ prop_line level prop.now) }
{
    let blanks = blanks(alloc, level)?;
    let name = prop.0.as_str();
    let value = json_text(alloc, &prop.1)?;
    format!(in alloc; "{blanks}.{name} {value}\n")
}

// Two blanks, `level` times.
fn blanks(alloc: Global, level: usize) -> Result<String, AllocError>
    ensures text { IfOk result (λ s. string_bytes s ≡ blanks level) }
    ensures low { OnOk result (level < 2 ^ 63) }
{
    "  ".repeat(alloc, level)
}
