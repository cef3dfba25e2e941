//! Whole inputs of `scene`, each with all that is written for it.
//!
//! A question is an input. A line of it such as `5 to 7: take *` stands for `take 5`, `take 6` and `take 7`. Since the last line of
//! an input may lack its line feed, each is played without it, too, and if that makes a difference, it is told.
#![tactic(auto)]

mod inputs;

use canvas_scene::run;
use inputs::input_of;
use std::alloc::{AllocError, Global};
use std::io;
use test_cases::{CaseAnswerer, run_cases};

// Plays each question as one input.
#[derive(Drop)]
struct Scenes;

// What is written for an input, and if the status isn't 0, the status and what is told.
fn played(alloc: Global, input: &[u8]) -> Result<Vec<u8>, AllocError> {
    let mut input = input;
    let mut output = Vec::new(alloc);
    let mut faults = Vec::new(alloc);
    let status = run(alloc, &mut input, &mut output, &mut faults);
    if status != 0 {
        output.extend_from_slice(format!(in alloc; "status {status}: ")?.as_bytes())?;
        output.extend_from_slice(&faults)?;
    }
    Ok(output)
}

impl CaseAnswerer for Scenes {
    fn begin(&mut self, _alloc: Global) -> Result<(), AllocError> {
        Ok(())
    }

    fn answer(&mut self, alloc: Global, asked: &[u8], out: &mut Vec<u8>) -> Result<(), AllocError> {
        let input = input_of(alloc, asked)?;
        let written = played(alloc, &input)?;
        out.extend_from_slice(&written)?;
        let unended = input.strip_suffix(b"\n").unwrap_or(&input);
        if played(alloc, unended)? != written {
            out.extend_from_slice(b"(another answer without the last line feed)\n")?;
        }
        Ok(())
    }
}

fn main(rt: HostRuntime) -> io::Result<()> {
    run_cases(rt.alloc(), &mut Scenes, &mut rt.stdin(), &mut rt.stdout())
}
