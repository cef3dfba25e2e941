//! `canvasd` serves a document to clients over WebSockets, edits one, and shows one.
#![tactic(auto)]

use canvas_daemon::{DaemonFault, end, run};
use std::env;
use std::io::{self, ErrorKind, Input};
use std::process::ExitCode;

// The words that follow the program's name.
fn words(rt: &HostRuntime) -> io::Result<Vec<String>> {
    let words: Vec<String> = env::args(rt)?.skip(1).collect(rt.alloc())?;
    Ok(words)
}

fn main(rt: HostRuntime) -> ExitCode {
    let mut faults = rt.stderr();
    let status = match words(&rt) {
        Ok(words) => run(
            &rt,
            rt,
            &words,
            &mut rt.reader(),
            &mut rt.stdout(),
            &mut faults,
        ),
        Err(error) => {
            if error.kind() == ErrorKind::OutOfMemory {
                end(&DaemonFault::Memory, &mut faults)
            } else {
                end(&DaemonFault::Usage, &mut faults)
            }
        }
    };
    ExitCode::from(status)
}
