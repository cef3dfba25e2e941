//! A connection that is served step by step, over streams that give and take few bytes at a time.
use crate::rooms::Room;
use crate::sockets::lines_to;
use canvas_turns::{Connection, Handler, LineEnd, Step, Waits, Woken};
use memory_sockets::{heard, sent};
use std::alloc::Global;
use std::io::{self, ErrorKind, Read, Write};
use std::test::Fail;
use tungstenite::{Role, WebSocketConfig};

// What a client sends: a Join, two Asks, and bytes that can't be read.
const LINES: &str = "[\"join\",2]\n[\"ask\",1,0]\n[\"asks\"]\n[\"ask\",1,1]";

// How often the peer is waited for.
const WAITS: u32 = 1000;

// How many steps are taken, at most.
const MOST_STEPS: u32 = 10_000;

// Bytes to read, seven at a time. At every other call it would wait.
#[derive(Drop)]
struct Gives<'a> {
    bytes: &'a [u8],
    gives: bool,
}

impl<'a> Read for Gives<'a> {
    fn read(&mut self, buf: &mut [u8]) -> io::Result<usize> {
        self.gives = !self.gives;
        if !self.gives || self.bytes.is_empty() {
            return Err(io::Error::from(ErrorKind::WouldBlock));
        }
        let most = buf.len().min(7);
        self.bytes.read(&mut buf[..most])
    }
}

// Those that were written, five at a time. At every other call it would wait.
#[derive(Drop)]
struct Takes<'a> {
    bytes: &'a mut Vec<u8>,
    takes: bool,
}

impl<'a> Read for Takes<'a> {
    fn read(&mut self, _buf: &mut [u8]) -> io::Result<usize> {
        Err(io::Error::from(ErrorKind::WouldBlock))
    }
}

impl<'a> Write for Takes<'a> {
    fn write(&mut self, buf: &[u8]) -> io::Result<usize> {
        self.takes = !self.takes;
        if !self.takes {
            return Err(io::Error::from(ErrorKind::WouldBlock));
        }
        let most = buf.len().min(5);
        self.bytes.extend_from_slice(&buf[..most])?;
        Ok(most)
    }

    fn flush(&mut self) -> io::Result<()> {
        Ok(())
    }
}

// A peer that is waited for so often.
#[derive(Drop)]
struct Peer {
    left: u32,
}

impl Waits for Peer {
    fn wait(&mut self, _taken: u64, _waiting: usize) -> Woken {
        if self.left == 0 {
            return Woken::Silent;
        }
        self.left -= 1;
        Woken::Goes
    }

    fn listens(&mut self, _version: u64, _has_said: bool) -> bool {
        false
    }

    fn told(&mut self, _count: usize) {}
}

// What a new server sends step by step to a client that sends these bytes and is silent then, and how that ends.
fn turned(alloc: Global, bytes: &[u8]) -> Result<(Vec<u8>, LineEnd), Fail> {
    let mut room = Room::new(alloc)?;
    let mut told = Vec::new(alloc);
    let input = Gives {
        bytes,
        gives: false,
    };
    let output = Takes {
        bytes: &mut told,
        takes: false,
    };
    let config = WebSocketConfig::default();
    let connection = Connection::new(alloc, input, output, config);
    let end = served(alloc, &mut room, connection);
    Ok((heard(alloc, &told)?, end))
}

// Serves a connection step by step, and says how it ends. It is left after so many steps.
fn served<H: Handler, I: Read + Drop, O: Read + Write + Drop>(
    alloc: Global,
    handler: &mut H,
    connection: Connection<I, O>,
) -> LineEnd {
    let mut peer = Peer { left: WAITS };
    let mut open = connection;
    for _step in 0..MOST_STEPS {
        match open.step(alloc, handler, &mut peer) {
            Step::Goes(next) | Step::Rests(next) => open = next,
            Step::Ends(end) => return end,
        }
    }
    LineEnd::Left
}

// Checks whether step by step the same is sent as otherwise.
fn says_the_same(alloc: Global, lines: &str) -> Result<bool, Fail> {
    let bytes = sent(alloc, lines, Role::Client)?;
    let (told, end) = turned(alloc, &bytes)?;
    Ok(told == lines_to(alloc, &bytes)? && end == LineEnd::Silent)
}

#[test]
fn turns(rt: HostRuntime) -> Result<(), Fail> {
    assert!(rt; says_the_same(rt.alloc(), LINES)?);
    Ok(())
}
