// The events of a script, in a world under any allocator.
use canvas_script::Item;
use canvas_world::{Event, EventVariant};
use std::alloc::{AllocError, Allocator, Global};

// The same event under another allocator.
fn variant_in<A: Allocator + Copy>(
    alloc: A,
    variant: &EventVariant,
) -> Result<EventVariant<A>, AllocError> {
    Ok(match variant {
        EventVariant::AddNode => EventVariant::AddNode,
        EventVariant::AskJoin(k) => EventVariant::AskJoin(*k),
        EventVariant::Edit(k, request) => EventVariant::Edit(*k, request.copy_in(alloc)?),
        EventVariant::Send(k, i) => EventVariant::Send(*k, *i),
        EventVariant::Take(m) => EventVariant::Take(*m),
        EventVariant::Sync => EventVariant::Sync,
        EventVariant::Publish => EventVariant::Publish,
        EventVariant::Welcome(v) => EventVariant::Welcome(*v),
        EventVariant::Tell(v, k) => EventVariant::Tell(*v, *k),
        EventVariant::Copy(k) => EventVariant::Copy(*k),
        EventVariant::Deliver(m) => EventVariant::Deliver(*m),
        EventVariant::Checkpoint => EventVariant::Checkpoint,
        EventVariant::Restart(n) => EventVariant::Restart(*n),
    })
}

/// The events that the items of a script ask for.
pub fn events_in<A: Allocator + Copy>(
    global: Global,
    alloc: A,
    items: &[Item],
) -> Result<Vec<Event<A>>, AllocError> {
    let mut events = Vec::new(global);
    for item in items {
        let variant = match item {
            Item::Enters => EventVariant::AddNode,
            Item::Happens(event) => variant_in(alloc, event.variant())?,
            Item::ShowsServer | Item::ShowsNode(_) => continue,
        };
        events.push(Event::new(variant))?;
    }
    Ok(events)
}
