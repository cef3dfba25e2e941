// What a server writes to standard error while it runs.

use crossbeam_channel::{Receiver, Sender, bounded};
use std::alloc::{AllocError, Global};
use std::io::Eprint;
use std::sync::Wait;
use std::sync::atomic::{AtomicU64, Ordering};

// How many lines may wait to be written.
const MOST_LINES: usize = 1_024;

/// The way to standard error: lines are written by a thread of their own, so that no other blocks while standard error takes none.
#[derive(Drop)]
pub struct Log {
    lines: Sender<String, Global>,
    // How many lines were left out since one was written.
    lost: AtomicU64,
}

impl Log {
    /// Returns a log, and the lines for its thread, `write_lines`. Errors: out of memory.
    pub fn new(alloc: Global) -> Result<(Log, Receiver<String, Global>), AllocError> {
        let (lines, written) = bounded(alloc, MOST_LINES)?;
        let log = Log {
            lines,
            lost: AtomicU64::new(0),
        };
        Ok((log, written))
    }

    /// Logs a line, and never blocks: if 1,024 lines wait, it is left out and counted.
    pub fn tell<R: Wait>(&self, rt: &R, line: String) {
        if self.lines.try_send(rt, line).is_err() {
            self.lost.fetch_add(1, Ordering::SeqCst);
        }
    }

    // How many lines were left out since this was last asked.
    fn take_lost(&self) -> u64 {
        self.lost.swap(0, Ordering::SeqCst)
    }
}

/// Writes the lines of a log to standard error, one after the other, for as long as the server runs.
pub fn write_lines<R: Wait + Eprint>(rt: &R, log: &Log, lines: &Receiver<String, Global>) {
    for _ in rt.forever() {
        let Ok(line) = lines.recv(rt) else {
            return;
        };
        let _ = rt.eprintln(line.as_str());
        let lost = log.take_lost();
        if lost > 0 {
            let _ = rt.eprintln(format_args!(
                "{lost} lines were left out: standard error took none"
            ));
        }
    }
    unreachable!()
}
