// Scripts of a world, with each growth refused in turn: of each event, and of the call that plays all of them.
use crate::events::events_in;
use crate::reads::{write_server, write_view};
use crate::same::same_world;
use crate::trials::{Trial, write_growths};
use canvas_script::Item;
use canvas_world::{Answer, Event, World};
use refusing::Refusing;
use std::alloc::{AllocError, Allocator, Global};
use test_cases::Text;

// A world in which the events of a script are played, and how many of them have been.
struct Stage<A: Allocator> {
    world: World<A>,
    events: Vec<Event<A>>,
    done: usize,
}

impl<A: Allocator> Drop for Stage<A> {
    fn drop(self) {
        let Stage {
            world: _,
            events: _,
            done: _,
        } = self;
    }
}

impl<A: Allocator + Copy> Stage<A> {
    // The world after so many of the events that these items ask for.
    fn after(global: Global, alloc: A, items: &[Item], count: usize) -> Result<Self, AllocError> {
        let events = events_in(global, alloc, items)?;
        let world = World::new(alloc)?;
        let mut stage = Stage {
            world,
            events,
            done: 0,
        };
        for _ in 0..count {
            stage.step()?;
        }
        Ok(stage)
    }

    // Plays the next event, and gives its answer. None where all have been played.
    fn step(&mut self) -> Result<Option<Answer>, AllocError> {
        let Some(event) = self.events.get(self.done) else {
            return Ok(None);
        };
        let answer = self.world.step(event)?;
        self.done = self.done.saturating_add(1);
        Ok(Some(answer))
    }

    // Plays the rest of the events by one call. The error is that one was refused memory.
    fn advance(&mut self) -> Result<(), AllocError> {
        let Some(rest) = self.events.get(self.done..) else {
            return Ok(());
        };
        let (done, stopped) = self.world.advance(rest);
        self.done = self.done.saturating_add(done as usize);
        match stopped {
            Some(error) => Err(error),
            None => Ok(()),
        }
    }

    // Plays the rest of the events in two worlds, and tells whether each answers alike.
    fn ends_as(&mut self, other: &mut Stage<Global>) -> Result<bool, AllocError> {
        for _ in self.done..self.events.len() {
            if self.step()? != other.step()? {
                return Ok(false);
            }
        }
        Ok(true)
    }
}

// What is tried of a script: the event before which so many others are played, with its answer where nothing is refused. Or, where there is
// no answer, all events behind those by one call.
#[derive(Clone, Copy)]
struct Part<'a> {
    items: &'a [Item],
    at: usize,
    answer: Option<Answer>,
}

impl<'a, A: Allocator + Copy> Trial<A> for Part<'a> {
    type Subject = Stage<A>;

    fn begin(&self, global: Global, alloc: A) -> Result<Stage<A>, AllocError> {
        Stage::after(global, alloc, self.items, self.at)
    }

    fn call(&self, _global: Global, _alloc: A, stage: &mut Stage<A>) -> Result<bool, AllocError> {
        if self.answer.is_some() {
            return Ok(stage.step()? == self.answer);
        }
        stage.advance()?;
        Ok(true)
    }

    fn is_as_wanted(
        &self,
        global: Global,
        stage: &mut Stage<A>,
        is_made: bool,
    ) -> Result<bool, AllocError> {
        let mut other = Stage::after(global, global, self.items, stage.done)?;
        if is_made && !stage.ends_as(&mut other)? {
            return Ok(false);
        }
        let nodes = self.items.len() as u64;
        same_world(global, &stage.world, &other.world, nodes)
    }
}

// Adds what comes of the next item.
fn write_item(
    global: Global,
    heap: &Refusing<Global>,
    items: &[Item],
    item: &Item,
    stage: &mut Stage<Global>,
    text: &mut Text,
) -> Result<(), AllocError> {
    match item {
        Item::ShowsServer => write_server(global, heap, stage.world.server(), text),
        Item::ShowsNode(k) => match stage.world.client(*k) {
            Some(client) => write_view(global, heap, client.view(), text),
            None => Ok(()),
        },
        Item::Enters | Item::Happens(_) => {
            let at = stage.done;
            let answer = stage.step()?;
            if let Some(answer) = answer {
                write!(text, "{answer:?}");
            }
            write_growths(global, heap, &Part { items, at, answer }, text);
            Ok(())
        }
    }
}

/// Adds what comes of each item of a script: of an event its answer and how many of its growths are refused, of a `show` how many
/// growths of the calls are that read what would be shown; and in the end, of the call that plays all events, how many are refused. After
/// each refusal the world is that of the events that were played, and the rest leads to the same end.
pub fn write_story(
    global: Global,
    heap: &Refusing<Global>,
    items: &[Item],
    text: &mut Text,
) -> Result<(), AllocError> {
    let mut stage = Stage::after(global, global, items, 0)?;
    for item in items {
        write_item(global, heap, items, item, &mut stage, text)?;
    }
    text.push_str("all at once");
    let all = Part {
        items,
        at: 0,
        answer: None,
    };
    write_growths(global, heap, &all, text);
    Ok(())
}
