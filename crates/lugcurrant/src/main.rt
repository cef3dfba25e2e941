//! `lugcurrant` serves a document to clients over WebSockets for as long as it is left running, edits one that is served, and cares for folders
//! that are not served.
#![tactic(auto)]

mod caring;
mod editing;
mod kicking;
mod remote;
mod running;
mod telling;

use running::run;
use std::env;
use std::io::{self, ErrorKind, Input, LineWriter};
use std::process::ExitCode;
use telling::Faults;

// Standard error: a server doesn't wait until its fault is read.
fn faults_of(rt: HostRuntime, words: &[String]) -> Faults {
    let serves = match words.get(1) {
        Some(command) => command.as_str() == "serve",
        None => false,
    };
    Faults {
        rt,
        stderr: rt.stderr(),
        waits: !serves,
    }
}

// The program's words, of which the first is its name.
fn words(rt: &HostRuntime) -> io::Result<Vec<String>> {
    let words: Vec<String> = env::args(rt)?.collect(rt.alloc())?;
    Ok(words)
}

fn main(rt: HostRuntime) -> ExitCode {
    let status = match words(&rt) {
        // Each line about a fault is written by one call, so that no line of another thread cuts it.
        Ok(words) => match LineWriter::new(rt.alloc(), faults_of(rt, &words)) {
            Ok(mut faults) => run(
                &rt,
                rt,
                &words,
                &mut rt.reader(),
                &mut rt.stdout(),
                &mut faults,
            ),
            Err(_) => 3,
        },
        Err(error) => if error.kind() == ErrorKind::OutOfMemory {
            3
        } else {
            2
        },
    };
    ExitCode::from(status)
}
