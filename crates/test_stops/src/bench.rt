// What a case has said so far.
use canvas_shelf::record;
use std::alloc::{AllocError, Global};

/// A segment of a shelf.
pub struct Segment {
    pub number: u32,
    pub bytes: Vec<u8>,
}

impl Drop for Segment {
    fn drop(self) {
        let Segment {
            number: _,
            bytes: _,
        } = self;
    }
}

/// Which calls of a shelf fail, or of the store that it is in.
#[derive(Clone, Copy)]
pub enum Failing {
    /// All of them after so many.
    After(u64),
    /// This one alone, the first being 1; none where it is 0.
    Only(u64),
}

/// The segments of a shelf, what is done over it, and the crashes after that.
pub struct Bench {
    pub segments: Vec<Segment>,
    /// Whether the segments are in a store of keys.
    pub in_store: bool,
    pub failing: Failing,
    /// What is done, one line each.
    pub script: String,
    /// Whether the script is of what a room is asked, and not of calls of a journal.
    pub asks_room: bool,
    /// Crashes, one a line, each with what it keeps.
    pub crashes: String,
}

impl Drop for Bench {
    fn drop(self) {
        let Bench {
            segments: _,
            in_store: _,
            failing: _,
            script: _,
            asks_room: _,
            crashes: _,
        } = self;
    }
}

impl Bench {
    /// No segment, and nothing done.
    pub fn new(alloc: Global) -> Bench {
        Bench {
            segments: Vec::new(alloc),
            in_store: false,
            failing: Failing::Only(0),
            script: String::new(alloc),
            asks_room: false,
            crashes: String::new(alloc),
        }
    }

    /// Forgets all.
    pub fn clear(&mut self) {
        self.segments.clear();
        self.in_store = false;
        self.failing = Failing::Only(0);
        self.script.clear();
        self.asks_room = false;
        self.crashes.clear();
    }

    /// Begins a segment.
    pub fn begin_segment(&mut self, alloc: Global, number: u32) -> Result<(), AllocError> {
        self.segments.push(Segment {
            number,
            bytes: Vec::new(alloc),
        })?;
        Ok(())
    }

    /// Adds bytes to the last segment, which is segment 1 where none was begun.
    pub fn add_bytes(&mut self, alloc: Global, bytes: &[u8]) -> Result<(), AllocError> {
        if self.segments.is_empty() {
            self.begin_segment(alloc, 1)?;
        }
        match self.segments.last_mut() {
            Some(segment) => segment.bytes.extend_from_slice(bytes),
            None => Ok(()),
        }
    }

    /// Adds a record of this text to the last segment.
    pub fn add_record(&mut self, alloc: Global, text: &[u8]) -> Result<(), AllocError> {
        match record(alloc, text) {
            Ok(bytes) => self.add_bytes(alloc, &bytes),
            Err(_) => Err(AllocError),
        }
    }

    /// Adds a line to the script. A message makes the script that of a room.
    pub fn add_step(&mut self, line: &str) -> Result<(), AllocError> {
        if line.starts_with('[') {
            self.asks_room = true;
        }
        add_line(line, &mut self.script)
    }

    /// Adds a crash that keeps this.
    pub fn add_crash(&mut self, keep: &str) -> Result<(), AllocError> {
        add_line(keep, &mut self.crashes)
    }
}

// Adds a line and its line feed.
fn add_line(line: &str, lines: &mut String) -> Result<(), AllocError> {
    lines.push_str(line)?;
    lines.push('\n')
}
