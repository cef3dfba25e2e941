// Talks, line by line.
use crate::messages::{add_beginnings, add_bytes, add_text};
use crate::repeats::add_lines;
use crate::rooms::{Answers, Talk, hold};
use std::alloc::{AllocError, Global};
use std::sync::Wait;
use test_cases::Text;

/// A talk so far: how many calls of the shelf pass, the bytes of its messages, how much was answered before, and whether the segments are
/// asked for.
pub struct Talks<R: Wait + Copy + Drop> {
    rt: R,
    calls: u64,
    sent: Vec<u8>,
    told: usize,
    asks_segments: bool,
}

impl<R: Wait + Copy + Drop> Drop for Talks<R> {
    fn drop(self) {
        let Talks {
            rt: _,
            calls: _,
            sent: _,
            told: _,
            asks_segments: _,
        } = self;
    }
}

// The two numbers of a text, with a blank between.
fn bounds(text: &str) -> Option<(u64, u64)> {
    let (first, last) = text.split_once(' ')?;
    Some((first.parse::<u64>().ok()?, last.parse::<u64>().ok()?))
}

// Adds the messages of client 1's edits with these numbers.
fn add_edits(alloc: Global, first: u64, last: u64, sent: &mut Vec<u8>) -> Result<(), AllocError> {
    for seq in first..last.saturating_add(1) {
        let text = format!(in alloc; "[\"edit\",1,{seq},[\"set\",[1,1],\"n\",{seq}]]")?;
        add_bytes(alloc, text.as_bytes(), sent)?;
    }
    Ok(())
}

// Adds a message of the bytes that these hex digits spell; where they spell none, an empty one.
fn add_hex(alloc: Global, digits: &str, sent: &mut Vec<u8>) -> Result<(), AllocError> {
    let bytes = hex::decode(alloc, digits.as_bytes()).unwrap_or(Vec::new(alloc));
    add_bytes(alloc, &bytes, sent)
}

impl<R: Wait + Copy + Drop> Talks<R> {
    /// No talk.
    pub fn new(alloc: Global, rt: R) -> Self {
        Talks {
            rt,
            calls: u64::MAX,
            sent: Vec::new(alloc),
            told: 0,
            asks_segments: false,
        }
    }

    // Takes a line that stands for messages.
    fn take_messages(&mut self, alloc: Global, line: &str) -> Result<(), AllocError> {
        if let Some((first, last)) = line.strip_prefix("edits ").and_then(bounds) {
            add_edits(alloc, first, last, &mut self.sent)
        } else if let Some(message) = line.strip_prefix("beginnings ") {
            add_beginnings(alloc, message.as_bytes(), &mut self.sent)
        } else if let Some(text) = line.strip_prefix("text ") {
            add_text(alloc, text, &mut self.sent)
        } else if let Some(digits) = line.strip_prefix("bytes ") {
            add_hex(alloc, digits, &mut self.sent)
        } else {
            add_bytes(alloc, line.as_bytes(), &mut self.sent)
        }
    }

    // Takes a line of the talk, of which `talk` is the first.
    fn take(&mut self, alloc: Global, line: &str) -> Result<(), AllocError> {
        if line == "talk" {
            return Ok(());
        }
        if let Some(calls) = line.strip_prefix("fuse ") {
            self.calls = calls.parse::<u64>().unwrap_or(u64::MAX);
            return Ok(());
        }
        if line == "segments" {
            self.asks_segments = true;
            return Ok(());
        }
        self.take_messages(alloc, line)
    }

    // What comes of the talk so far.
    fn hold(&self, alloc: Global, is_shared: bool) -> Result<Answers, AllocError> {
        let talk = Talk {
            calls: self.calls,
            sent: &self.sent,
            is_shared,
        };
        hold(alloc, self.rt, talk)
    }

    // Adds what is new of the answers to the talk so far.
    fn tell(&mut self, answers: &Answers, text: &mut Text) {
        let before = self.told.min(answers.texts.len());
        add_lines(
            str::from_utf8(&answers.texts[before..]).unwrap_or("?"),
            text,
        );
        self.told = answers.texts.len();
        if self.asks_segments {
            self.asks_segments = false;
            text.push_str("segments:");
            text.push_text(&answers.segments);
            text.push_str("\n");
        }
    }

    // Adds what comes of the talk, and a line where a seat that answers by a copy sends other texts.
    fn write_talk(&mut self, alloc: Global, text: &mut Text) -> Result<(), AllocError> {
        let answers = self.hold(alloc, false)?;
        self.tell(&answers, text);
        if self.hold(alloc, true)?.texts != answers.texts {
            text.push_str("(by a copy that is held, something else)\n");
        }
        Ok(())
    }

    /// Forgets the talk.
    pub fn clear(&mut self) {
        self.calls = u64::MAX;
        self.sent.clear();
        self.told = 0;
        self.asks_segments = false;
    }

    /// Takes more lines of the talk, and adds what comes of it.
    pub fn answer(
        &mut self,
        alloc: Global,
        asked: &[u8],
        text: &mut Text,
    ) -> Result<(), AllocError> {
        for line in str::from_utf8(asked).unwrap_or("?").lines() {
            self.take(alloc, line)?;
        }
        self.write_talk(alloc, text)
    }
}
