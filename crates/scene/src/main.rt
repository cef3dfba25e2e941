//! `scene` reads the lines of a scene from standard input and plays them: the requests of a log on a
//! server, or the events of a world of nodes. It prints an answer for each, and a report of the
//! document or of the world.
#![tactic(auto)]

use canvas_lines::Fault;
use canvas_scene::{end, refuse, start};
use std::env;
use std::io::{self, ErrorKind};
use std::process::ExitCode;

// The words that follow the program's name.
fn words(rt: &HostRuntime) -> io::Result<Vec<String>> {
    let words: Vec<String> = env::args(rt)?.skip(1).collect(rt.alloc())?;
    Ok(words)
}

fn main(rt: HostRuntime) -> ExitCode {
    let mut faults = rt.stderr();
    let status = match words(&rt) {
        Ok(words) => start(
            rt.alloc(),
            &words,
            &mut rt.stdin(),
            &mut rt.stdout(),
            &mut faults,
        ),
        Err(error) => {
            if error.kind() == ErrorKind::OutOfMemory {
                end(&Fault::Memory, &mut faults)
            } else {
                refuse(&mut faults)
            }
        }
    };
    ExitCode::from(status)
}
