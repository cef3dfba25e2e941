// The world that a script leads to, and what playing it prints.
ghost use Rattle.std.specs.Prelude.{[], IfOk, OnOk, map};
ghost use Rattle.canvas_model.specs.World.{empty};
ghost use Rattle.canvas_script.specs.Plays.{AddsAnswer, AddsItem, AddsItems, AddsNode};
ghost use Rattle.canvas_script.specs.Script.{seen_item};

use crate::answers::answer_line;
use crate::report::{write_node, write_server};
use crate::{Item, Names};
use canvas_world::{Event, EventVariant, World};
use std::alloc::{AllocError, Global};

/// Plays the items in order in the empty world, and adds to `out` what they print. Fails only if
/// memory runs out, and then `out` may have grown.
pub fn play_items(
    alloc: Global,
    names: &Names,
    items: &[Item],
    out: &mut Vec<u8>,
) -> Result<World, AllocError>
    ensures { IfOk result (λ world. AddsItems
        names.now empty (map seen_item items.now) out.old.items world out.new.items) }
{
    let mut world = World::new(alloc)?;
    for item in items {
        play_item(alloc, &mut world, names, item, out)?;
    }
    Ok(world)
}

// Plays one item, and adds what it prints.
fn play_item(
    alloc: Global,
    world: &mut World,
    names: &Names,
    item: &Item,
    out: &mut Vec<u8>,
) -> Result<(), AllocError>
    ensures { OnOk result (AddsItem names.now world.old (seen_item item.now)
        out.old.items world.new out.new.items) }
{
    match item {
        Item::Enters => add_node(world),
        Item::Happens(event) => tell(alloc, world, event, out),
        Item::ShowsServer => write_server(alloc, world, out),
        Item::ShowsNode(k) => write_node(alloc, names, world, *k, out),
    }
}

// Adds a node.
fn add_node(world: &mut World) -> Result<(), AllocError>
    ensures { OnOk result (AddsNode world.old [] world.new) }
{
    world.step(&Event::new(EventVariant::AddNode))?;
    Ok(())
}

// Plays one event, and adds the line of its answer.
fn tell(
    alloc: Global,
    world: &mut World,
    event: &Event,
    out: &mut Vec<u8>,
) -> Result<(), AllocError>
    ensures { OnOk result
        (AddsAnswer world.old event.now out.old.items world.new out.new.items) }
{
    let answer = world.step(event)?;
    let line = answer_line(alloc, &answer)?;
    out.extend_from_slice(line.as_bytes())
}
