// What a script comes to where calls of its shelf fail.
use crate::bench::{Bench, Failing};
use crate::fragile::StoreShelf;
use crate::journal_stops::write_journal_stop;
use crate::room_stops::write_room_stop;
use canvas_shelf::MemShelf;
use std::alloc::{AllocError, Global};
use std::sync::Wait;
use test_cases::Text;

// A script makes fewer calls of its shelf than this.
const MOST: u64 = 1000;

// Adds what a script comes to where these calls fail, up to the end of the line. Tells whether one failed.
fn write_stop<R: Wait + Copy + Drop>(
    rt: R,
    alloc: Global,
    bench: &Bench,
    failing: Failing,
    text: &mut Text,
) -> Result<bool, AllocError> {
    if !bench.asks_room {
        write_journal_stop(alloc, bench, failing, text)
    } else if bench.in_store {
        write_room_stop::<StoreShelf, R>(rt, alloc, bench, failing, text)
    } else {
        write_room_stop::<MemShelf, R>(rt, alloc, bench, failing, text)
    }
}

/// Adds what a script comes to, in a line.
pub fn write_play<R: Wait + Copy + Drop>(
    rt: R,
    alloc: Global,
    bench: &Bench,
    text: &mut Text,
) -> Result<(), AllocError> {
    if bench.asks_room {
        text.push_str("all:");
    }
    write_stop(rt, alloc, bench, bench.failing, text)?;
    Ok(())
}

/// Which calls fail, one run after another.
#[derive(Clone, Copy)]
pub enum Way {
    /// All of them after each number of calls.
    Fuse,
    /// Each one alone.
    Fault,
}

/// Adds what a script comes to where calls fail this way, a line each, up to the number at which none fails.
pub fn write_stops<R: Wait + Copy + Drop>(
    rt: R,
    alloc: Global,
    bench: &Bench,
    way: Way,
    text: &mut Text,
) -> Result<(), AllocError> {
    let gap = if bench.asks_room { "" } else { " " };
    for calls in 0..MOST {
        let (number, failing) = match way {
            Way::Fuse => (calls, Failing::After(calls)),
            Way::Fault => (calls + 1, Failing::Only(calls + 1)),
        };
        write!(text, "{number}:{gap}");
        if !write_stop(rt, alloc, bench, failing, text)? {
            return Ok(());
        }
    }
    Ok(())
}
