// Scripts that a room is asked.
ghost use Rattle.std.specs.Prelude.{◌≡◌};

use crate::fragile::Fragile;
use crate::rooms::{BlankOn, left_of};
use crate::steps::{SeatOf, entries_of, write_read, write_step};
use canvas_board::RoomName;
use canvas_journal::Keeper;
use canvas_room::Room;
use std::alloc::{AllocError, Global};
use std::marker::Brand;
use std::sync::Wait;
use test_cases::Text;

/// A script, and the version before its first line; none where that is the version at which the room opens.
#[derive(Clone, Copy)]
pub struct Play<'a> {
    pub script: &'a str,
    pub before: Option<u64>,
}

/// What came of a script.
pub struct Played<B> {
    /// What its lines were answered.
    pub text: Text,
    /// The version at which the room opened, and the one at the end.
    pub opened: u64,
    pub ended: u64,
    /// How many calls of the shelf failed.
    pub failures: u64,
    /// What may be found of the shelf at the end.
    pub left: Vec<B>,
}

impl<B: Drop> Drop for Played<B> {
    fn drop(self) {
        let Played {
            text: _,
            opened: _,
            ended: _,
            failures: _,
            left: _,
        } = self;
    }
}

// Takes the entries of a line off those that are passed over. False where the line isn't passed over.
fn passes(over: &mut u64, line: &str) -> bool {
    let entries = entries_of(line);
    if *over == 0 || *over < entries {
        *over = 0;
        return false;
    }
    *over -= entries;
    true
}

impl<'a> Play<'a> {
    // Asks each line, but for those whose entries stand, in a room that opened at this version. Adds what they are answered, and what both
    // seats read then.
    fn ask_lines<K: Keeper + Drop, N: RoomName, Q: Wait + Drop, W: Wait>(
        self,
        rt: &W,
        alloc: Global,
        room: &Room<K, N, Q>,
        seats: &mut [SeatOf<K, N, Q>],
        opened: u64,
        text: &mut Text,
    ) {
        let [one, two] = seats else {
            return text.refuse();
        };
        let mut over = opened.saturating_sub(self.before.unwrap_or(opened));
        for line in self.script.lines() {
            if !passes(&mut over, line) {
                write_step(rt, alloc, room, one, two, line, text);
            }
        }
        text.push_str("; read");
        write_read(alloc, one, text);
        write_read(alloc, two, text);
    }
}

// Asks this room, once it has its name.
fn played_under<N: RoomName, B: Fragile, R: Wait + Copy + Drop>(
    rt: R,
    alloc: Global,
    blank: BlankOn<B>,
    play: Play<'_>,
) -> Result<Played<B>, AllocError>
    requires book { blank.book ≡ N.book }
    requires opening { blank.opening ≡ N.opening }
{
    let Ok((room, mut seats)) = blank.open::<N, R>(rt) else {
        return Err(AllocError);
    };
    let opened = room.desk(&rt).version();
    let mut text = Text::new(alloc);
    play.ask_lines(&rt, alloc, &room, &mut seats, opened, &mut text);
    let desk = room.desk(&rt);
    let left = left_of(alloc, desk.keeper().shelf())?;
    Ok(Played {
        text,
        opened,
        ended: desk.version(),
        failures: desk.keeper().failures(),
        left,
    })
}

/// What comes of a script that this room is asked.
pub fn played_by<B: Fragile, R: Wait + Copy + Drop>(
    rt: R,
    alloc: Global,
    blank: BlankOn<B>,
    play: Play<'_>,
) -> Result<Played<B>, AllocError> {
    played_under::<Brand, B, R>(rt, alloc, blank, play)
}
