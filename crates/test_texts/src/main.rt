//! Texts of messages, entries, checkpoints, their heads and rows, values, names and positions, with what each is read as, and what is
//! then said of some.
//!
//! A line is a word and a text, as `message ["join",2]`. Each is read and copied in the machine's memory, in an arena, and with each
//! growth refused in turn, and the answer must be the same.
#![tactic(auto)]

mod asking;
mod documents;
mod kinds;
mod positions;
mod reading;
mod saying;

use asking::answer_line;
use std::alloc::{AllocError, Global};
use std::io;
use test_cases::{CaseAnswerer, run_cases};

// Answers line by line.
#[derive(Drop)]
struct Texts;

impl CaseAnswerer for Texts {
    fn begin(&mut self, _alloc: Global) -> Result<(), AllocError> {
        Ok(())
    }

    fn answer(&mut self, alloc: Global, asked: &[u8], out: &mut Vec<u8>) -> Result<(), AllocError> {
        let lines = asked.strip_suffix(b"\n").unwrap_or(asked);
        for line in lines.split(|byte| *byte == b'\n') {
            answer_line(alloc, line, out)?;
        }
        Ok(())
    }
}

fn main(rt: HostRuntime) -> io::Result<()> {
    run_cases(rt.alloc(), &mut Texts, &mut rt.stdin(), &mut rt.stdout())
}
