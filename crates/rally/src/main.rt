//! `rally` has clients edit the document of a folder at once, in one process and without sockets, and tells whether they agree.
#![tactic(auto)]

mod args;
mod fault;
mod page;
mod rallying;
mod running;

use crate::fault::end;
use crate::running::run;
use canvas_daemon::DaemonFault;
use std::env;
use std::io::{self, ErrorKind};
use std::process::ExitCode;

// The words that follow the program's name.
fn arguments(rt: &HostRuntime) -> io::Result<Vec<String>> {
    let words: Vec<String> = env::args(rt)?.skip(1).collect(rt.alloc())?;
    Ok(words)
}

fn main(rt: HostRuntime) -> ExitCode {
    let mut faults = rt.stderr();
    let status = match arguments(&rt) {
        Ok(words) => run(&rt, rt, &words, &mut rt.stdout(), &mut faults),
        Err(error) => {
            if error.kind() == ErrorKind::OutOfMemory {
                end(&DaemonFault::Memory, &mut faults)
            } else {
                end(&DaemonFault::Usage, &mut faults)
            }
        }
    };
    ExitCode::from(status)
}
