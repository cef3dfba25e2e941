// Where faults are written.

use mio::event::Events;
use mio::unix::SourceFd;
use mio::{Interest, Poll, Token};
use std::io::{self, ErrorKind, Stderr, Write};
use std::os::fd::AsRawFd;
use std::time::Duration;

// How often standard error is looked at that takes nothing, and how long each look takes: 2 seconds in all.
const MOST_LOOKS: u32 = 20;

const LOOK_MILLIS: u64 = 100;

/// Standard error. A server ends even if its fault isn't read: after 2 seconds a write fails.
#[derive(Drop)]
pub(crate) struct Faults {
    pub(crate) rt: HostRuntime,
    pub(crate) stderr: Stderr,
    /// If set, a write waits as long as it takes, as the commands do; else for 2 seconds.
    pub(crate) waits: bool,
}

impl Write for Faults {
    fn write(&mut self, buf: &[u8]) -> io::Result<usize> {
        // A file always takes bytes, and can't be waited for.
        if self.waits || is_ready(&self.rt, &self.stderr).unwrap_or(true) {
            self.stderr.write(buf)
        } else {
            Err(io::Error::from(ErrorKind::TimedOut))
        }
    }

    fn flush(&mut self) -> io::Result<()> {
        self.stderr.flush()
    }
}

// Waits until standard error takes bytes, at most 2 seconds. Returns whether it does. Fails if it can't be waited for.
fn is_ready(rt: &HostRuntime, stderr: &Stderr) -> io::Result<bool> {
    let mut poll = Poll::new(rt)?;
    let fd = stderr.as_raw_fd();
    poll.registry()
        .register(&mut SourceFd(&fd), Token(0), Interest::WRITABLE)?;
    let mut events = Events::with_capacity(rt.alloc(), 1)?;
    for _ in 0..MOST_LOOKS {
        poll.poll(&mut events, Some(Duration::from_millis(LOOK_MILLIS)))?;
        if !events.is_empty() {
            return Ok(true);
        }
    }
    Ok(false)
}
