//! Hostile use, as data: a program that is run on a file of cases. A case is one of these:
//!
//! - the script of a world, or lines to one client: each growth of memory runs out in turn, of each event, of each step, and of calls
//!   that only read.
//! - a talk, which begins with the line `talk`: messages that a client sends to a room over a journal in memory, hostile ones among them.
//!
//! **Growths.** A call is made again and again: from the same beginning, with its first growth refused, then with its second, until none
//! is left to refuse. If one is refused, all must be as it was before the call; and the same call once more, with what comes after it,
//! must go as it goes where nothing is refused. What is written of a call is its answer and how many of its growths were refused so.
//!
//! **Talks.** Each line is a message that the room's one seat is asked, but for these:
//!
//! - `fuse N` lets so many calls of the room's shelf pass, and makes all others fail; it stands at the beginning.
//! - `edits A B` is one edit of client 1 for each number from A to B, which sets a property of the object 1:1 to that number.
//! - `beginnings TEXT` is a message of each proper beginning of this text, the empty one first.
//! - `bytes HEX` is a message of the bytes that these digits spell. `text TEXT` is a WebSocket's message of text, and not of bytes as all
//!   others.
//! - `segments` asks for the numbers of the segments that were made so far on the room's shelf.
//!
//! What is answered more than once in a row is written once, behind how often. Each talk is held again with a seat that answers by a copy
//! that it holds where one is due; where the client is sent something else then, a line says so.
#![tactic(auto)]

mod clients;
mod events;
mod messages;
mod reads;
mod repeats;
mod rooms;
mod same;
mod sharing;
mod stories;
mod talks;
mod trials;

use canvas_script::{Script, is_world, read_script};
use clients::{Step, answer_line};
use refusing::Refusing;
use std::alloc::{AllocError, Global};
use std::io;
use std::sync::Wait;
use stories::write_story;
use talks::Talks;
use test_cases::{CaseAnswerer, Text, run_cases};

// Answers the script of a world at once, and what is asked of one client, or in a talk, line by line.
struct Answers<R: Wait + Copy + Drop> {
    // What the client has been given and asked to do.
    steps: Vec<Step>,
    // The talk so far, where the case is one.
    talks: Talks<R>,
    is_talk: bool,
}

impl<R: Wait + Copy + Drop> Drop for Answers<R> {
    fn drop(self) {
        let Answers {
            steps: _,
            talks: _,
            is_talk: _,
        } = self;
    }
}

// Answers the script of a world.
fn answer_script(
    global: Global,
    heap: &Refusing<Global>,
    asked: &[u8],
    text: &mut Text,
) -> Result<(), AllocError> {
    let Script {
        items,
        names: _,
        bad_line,
    } = read_script(global, asked)?;
    if let Some(line) = bad_line {
        write!(text, "line {line}: cannot read\n");
        return Ok(());
    }
    write_story(global, heap, &items, text)
}

// Answers what is asked of one client.
fn answer_lines(
    global: Global,
    heap: &Refusing<Global>,
    steps: &mut Vec<Step>,
    asked: &[u8],
    text: &mut Text,
) -> Result<(), AllocError> {
    for line in str::from_utf8(asked).unwrap_or("?").lines() {
        answer_line(global, heap, steps, line, text)?;
    }
    Ok(())
}

// Answers the script of a world, or what is asked of one client.
fn answer_growths(
    global: Global,
    steps: &mut Vec<Step>,
    asked: &[u8],
    text: &mut Text,
) -> Result<(), AllocError> {
    let heap = Refusing::new(global, 0);
    if is_world(asked) {
        answer_script(global, &heap, asked, text)
    } else {
        answer_lines(global, &heap, steps, asked, text)
    }
}

impl<R: Wait + Copy + Drop> CaseAnswerer for Answers<R> {
    fn begin(&mut self, _alloc: Global) -> Result<(), AllocError> {
        self.steps.clear();
        self.talks.clear();
        self.is_talk = false;
        Ok(())
    }

    fn answer(&mut self, alloc: Global, asked: &[u8], out: &mut Vec<u8>) -> Result<(), AllocError> {
        let mut text = Text::new(alloc);
        self.is_talk = self.is_talk || asked.starts_with(b"talk\n");
        if self.is_talk {
            self.talks.answer(alloc, asked, &mut text)?;
        } else {
            answer_growths(alloc, &mut self.steps, asked, &mut text)?;
        }
        text.put(out)
    }
}

fn main(rt: HostRuntime) -> io::Result<()> {
    let mut answers = Answers {
        steps: Vec::new(rt.alloc()),
        talks: Talks::new(rt.alloc(), rt),
        is_talk: false,
    };
    run_cases(rt.alloc(), &mut answers, &mut rt.stdin(), &mut rt.stdout())
}
