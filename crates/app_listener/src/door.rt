// The thread of the port: it accepts connections, hands clients to the workers, and answers all other requests by itself.

use crate::hall::{Hall, Round};
use crate::options::Shared;
use crate::tokens::{PORT, connection_of};
use crate::workers::Workers;
use mio::event::Events;
use mio::unix::SourceFd;
use mio::{Interest, Poll};
use std::alloc::Global;
use std::io::{self, ErrorKind};
use std::net::{Net, TcpListener, TcpStream};
use std::os::fd::AsRawFd;
use std::sync::Wait;
use std::thread::sleep;
use std::time::{Clock, Duration, Instant};

// How many events are taken at once.
const MOST_EVENTS: usize = 1_024;

// How many connections are accepted before the others have their turn.
const MOST_ACCEPTED: u32 = 256;

// How often a free place is looked for while a handshake waits for one.
const SEAT_LOOK_MILLIS: u64 = 5;

// How long the door rests where no connection can be accepted, as no descriptor is left, say.
const REST_MILLIS: u64 = 50;

// The longest wait, where nothing is due.
const MOST_MILLIS: u64 = 60_000;

/// The port as one thread serves it: every connection that no worker serves, without blocking on any of them.
#[derive(Drop)]
pub struct Door {
    poll: Poll,
    events: Events<Global>,
    hall: Hall,
    begun: Instant,
    // The millisecond since then that was last read.
    now: u64,
    // What may be accepted.
    port: Port,
}

// What is known of the connections that wait to be accepted.
#[derive(Clone, Copy, Debug, PartialEq, Eq)]
enum Port {
    // None does.
    Still,
    // Some may.
    Busy,
    // Some may, and none could be accepted a moment ago.
    Stuck,
}

impl Door {
    /// Makes a door for this port, whose calls don't block from then on. Errors: those of the system, and out of memory.
    pub fn new<R: Net + Clock + AllocGlobal>(rt: &R, listener: &TcpListener) -> io::Result<Door> {
        listener.set_nonblocking(true)?;
        let poll = Poll::new(rt)?;
        let fd = listener.as_raw_fd();
        poll.registry()
            .register(&mut SourceFd(&fd), PORT, Interest::READABLE)?;
        Ok(Door {
            poll,
            events: Events::with_capacity(rt.alloc(), MOST_EVENTS)?,
            hall: Hall::new(rt.alloc())?,
            begun: Instant::now(rt)?,
            now: 0,
            port: Port::Busy,
        })
    }

    // How long may be waited for an event.
    fn wait(&self) -> Duration {
        let most = match self.port {
            Port::Busy => 0,
            Port::Stuck => REST_MILLIS,
            Port::Still => MOST_MILLIS,
        };
        let due = match self.hall.next_due() {
            Some(due) => due.saturating_sub(self.now),
            None => most,
        };
        let place = if self.hall.has_handshake() {
            SEAT_LOOK_MILLIS
        } else {
            most
        };
        Duration::from_millis(most.min(due).min(place))
    }

    // Reads the clock; if it fails, no time has passed.
    fn tick<R: Clock>(&mut self, rt: &R) {
        if let Ok(passed) = self.begun.elapsed(rt) {
            self.now = u64::try_from(passed.as_millis()).unwrap_or(u64::MAX);
        }
    }

    // Waits for events, and goes on with what they are about.
    fn turn<R>(&mut self, rt: &R, shared: &Shared, workers: &Workers)
    where
        R: Wait + Clock + AllocGlobal,
    {
        let wait = self.wait();
        if self.poll.poll(&mut self.events, Some(wait)).is_err() {
            sleep(rt, Duration::from_millis(REST_MILLIS));
        }
        self.tick(rt);
        let round = Round {
            rt,
            shared,
            workers,
            registry: self.poll.registry(),
            now: self.now,
        };
        for event in self.events.iter() {
            match connection_of(event.token()) {
                Some((number, stage)) => {
                    self.hall
                        .go_on(&round, number, stage, event.is_read_closed());
                }
                None => self.port = Port::Busy,
            }
        }
        self.port = accept(&round, &mut self.hall, self.port);
        self.hall.seat(&round);
        self.hall.end_due(&round);
    }
}

// Accepts connections that wait. If no descriptor is left for them, others make room.
fn accept<R>(round: &Round<'_, R>, hall: &mut Hall, port: Port) -> Port {
    if port == Port::Still {
        return port;
    }
    for _ in 0..MOST_ACCEPTED {
        match round.shared.listener.accept() {
            Ok((stream, _address)) => hall.welcome(round, stream),
            Err(error) => match error.kind() {
                ErrorKind::WouldBlock => return Port::Still,
                ErrorKind::Interrupted | ErrorKind::ConnectionAborted => {}
                _ if hall.make_room() => return Port::Busy,
                _ => return Port::Stuck,
            },
        }
    }
    Port::Busy
}

/// Serves the port for as long as the server runs.
pub fn stand<R>(rt: &R, shared: &Shared, workers: &Workers, door: &mut Door)
where
    R: Wait + Clock + AllocGlobal,
{
    for _ in rt.forever() {
        door.turn(rt, shared, workers);
    }
    unreachable!()
}
