// The lines of a case: what they say, and what is answered to those that ask.
use crate::bench::{Bench, Failing};
use crate::growths::write_growths;
use crate::journal_stops::{Asked, write_asked};
use crate::lines::{find, kept};
use crate::opening::write_opening;
use crate::script::STEPS;
use crate::shelves::{shelf_of, write_first, write_lists};
use crate::spoiled::{write_cuts, write_spoiled};
use crate::stops::{Way, write_play, write_stops};
use std::alloc::{AllocError, Global};
use std::sync::Wait;
use test_cases::Text;

// What a line says that asks nothing and is none of a script.
#[derive(Clone, Copy)]
enum Saying {
    Store,
    Segment,
    Record,
    Hex,
    Fuse,
    Fault,
    Keep,
}

const SAYINGS: [(&str, Saying); 7] = [
    ("store", Saying::Store),
    ("segment", Saying::Segment),
    ("record", Saying::Record),
    ("hex", Saying::Hex),
    ("fuse", Saying::Fuse),
    ("fault", Saying::Fault),
    ("keep", Saying::Keep),
];

// What a line asks.
#[derive(Clone, Copy)]
enum Question {
    Open,
    Cuts,
    Bytes,
    First,
    Play,
    Stops(Way),
    After(Asked),
    Lists,
    Growths,
}

const QUESTIONS: [(&str, Question); 13] = [
    ("open", Question::Open),
    ("cuts", Question::Cuts),
    ("bytes", Question::Bytes),
    ("first", Question::First),
    ("play", Question::Play),
    ("fuses", Question::Stops(Way::Fuse)),
    ("faults", Question::Stops(Way::Fault)),
    ("calls", Question::After(Asked::Calls)),
    ("crash", Question::After(Asked::Crash)),
    ("reopen", Question::After(Asked::Reopen)),
    ("sizes", Question::After(Asked::Sizes)),
    ("lists", Question::Lists),
    ("growths", Question::Growths),
];

// The byte that two hex digits spell.
fn byte_of(digits: &str) -> u8 {
    u8::from_str_radix(digits, 16).unwrap_or(0)
}

// Adds bytes that are written as pairs of digits to the last segment.
fn add_hex(alloc: Global, bench: &mut Bench, pairs: &str) -> Result<(), AllocError> {
    for pair in pairs.split(' ') {
        bench.add_bytes(alloc, &[byte_of(pair)])?;
    }
    Ok(())
}

// Takes what a line says.
fn take(alloc: Global, bench: &mut Bench, saying: Saying, text: &str) -> Result<(), AllocError> {
    let count = text.parse::<u64>().unwrap_or(0);
    match saying {
        Saying::Store => bench.in_store = true,
        Saying::Segment => bench.begin_segment(alloc, u32::try_from(count).unwrap_or(0))?,
        Saying::Record => bench.add_record(alloc, text.as_bytes())?,
        Saying::Hex => add_hex(alloc, bench, text)?,
        Saying::Fuse => bench.failing = Failing::After(count),
        Saying::Fault => bench.failing = Failing::Only(count),
        Saying::Keep => bench.add_crash(text)?,
    }
    Ok(())
}

// Adds the first record of the last segment.
fn write_first_of(bench: &Bench, text: &mut Text) {
    if let Some(segment) = bench.segments.last() {
        write_first(&segment.bytes, text);
    }
}

// Adds what a question is answered.
fn write_answer<R: Wait + Copy + Drop>(
    rt: R,
    alloc: Global,
    bench: &Bench,
    question: Question,
    asked: &str,
    text: &mut Text,
) -> Result<(), AllocError> {
    let count = asked.parse::<u64>().unwrap_or(0);
    match question {
        Question::Open => write_opening(alloc, shelf_of(alloc, &bench.segments)?, text),
        Question::Cuts => write_cuts(alloc, &bench.segments, text),
        Question::Bytes => write_spoiled(alloc, &bench.segments, byte_of(asked), text),
        Question::First => write_first_of(bench, text),
        Question::Play => write_play(rt, alloc, bench, text)?,
        Question::Stops(way) => write_stops(rt, alloc, bench, way, text)?,
        Question::After(what) => write_asked(alloc, bench, what, asked, text)?,
        Question::Lists => write_lists(alloc, bench.failing, count, text),
        Question::Growths => write_growths(alloc, asked.as_bytes(), text),
    }
    Ok(())
}

// Checks whether a line that begins with this word is one of a script: a call of a journal, or what a room is asked.
fn is_step(word: &str) -> bool {
    word.starts_with('[') || word == "read" || find(&STEPS, word).is_some()
}

/// Takes what a line says, or adds what it is answered.
pub fn answer_line<R: Wait + Copy + Drop>(
    rt: R,
    alloc: Global,
    bench: &mut Bench,
    line: &str,
    text: &mut Text,
) -> Result<(), AllocError> {
    let (word, rest) = line.split_once(' ').unwrap_or((line, ""));
    if let Some(saying) = find(&SAYINGS, word) {
        return take(alloc, bench, saying, rest);
    }
    if is_step(word) {
        return bench.add_step(line);
    }
    match find(&QUESTIONS, word) {
        Some(question) => write_answer(rt, alloc, bench, question, rest, text),
        None => {
            text.push_str("cannot read\n");
            Ok(())
        }
    }
}
