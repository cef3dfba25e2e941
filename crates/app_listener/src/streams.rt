// Reads and writes of a connection that never block.
ghost use Rattle.std.specs.Prelude.{◌≤◌, length};

use crate::answers::Reply;
use bytes::Bytes;
use net_http::{HttpRequest, Site};
use net_listener::{MOST_HEAD_BYTES, request_in};
use std::io::{self, ErrorKind, Read, Write};
use std::net::TcpStream;

// The most shared bytes that an answer gives its connection before the others have their turn.
const MOST_SHARED: usize = 64 << 10;

// The most reads of a connection that has its answer.
const MOST_READS: u32 = 16;

/// What has come of a head.
#[derive(Drop)]
pub(crate) enum Heard {
    /// A part.
    Part,
    /// The request.
    Request(HttpRequest),
    /// All that will come, and it is no head.
    End,
}

/// Looks at what has come of a head. Nothing is taken from the stream. `is_closed`: the peer sends nothing more.
pub(crate) fn hear(site: &Site, stream: &TcpStream, is_closed: bool) -> Heard {
    let mut head = [0; MOST_HEAD_BYTES];
    match stream.peek(&mut head) {
        Ok(0) => Heard::End,
        Ok(count) => match request_in(site, &head[..count]) {
            Some(request) => Heard::Request(request),
            None if is_closed => Heard::End,
            None => Heard::Part,
        },
        Err(error) if waits(&error) => Heard::Part,
        Err(_) => Heard::End,
    }
}

/// An answer that leaves: its own bytes, of which some may have left, and then those that it shares.
#[derive(Drop)]
pub(crate) struct Answer {
    stream: TcpStream,
    own: Vec<u8>,
    sent: usize,
    shared: Bytes,
    ghost within: { sent ≤ length own.items },
}

impl Answer {
    ghost use Rattle.std.specs.Prelude.{◌≡◌, [], IfOk, IsTrue};
    ghost use Rattle.app_listener.specs.Answers.{reply_bytes};
    ghost use Rattle.app_listener.specs.Leaving.{Leaves, rest_of};

    /// Returns an answer of which nothing has left.
    pub(crate) fn new(stream: TcpStream, reply: Reply) -> Answer
        ensures { rest_of result ≡ reply_bytes reply }
    {
        let Reply { own, shared } = reply;
        Answer {
            stream,
            own,
            sent: 0,
            shared,
        }
    }

    /// Returns its connection.
    pub(crate) fn stream(&self) -> &TcpStream {
        &self.stream
    }

    /// Gives its connection the first bytes that it takes, of those of a file at most 64 KiB. Returns whether all has left. Fails if the peer is gone.
    pub(crate) fn give(&mut self) -> io::Result<bool>
        ensures leaves { Leaves self.old self.new }
        ensures all { IfOk result (λ done. IsTrue done → rest_of self.new ≡ []) }
    {
        match self.give_some() {
            Err(error) if !waits(&error) => Err(error),
            _ => Ok(self.sent == self.own.len() && self.shared.is_empty()),
        }
    }

    // Gives its connection the first bytes that it takes, of shared bytes at most 64 KiB.
    fn give_some(&mut self) -> io::Result<()>
        ensures { Leaves self.old self.new }
    {
        if self.sent < self.own.len() {
            self.give_own()
        } else {
            self.give_shared()
        }
    }

    // Gives it own bytes.
    #[tactic(auto, using(crate::proofs::Replies::own_leave))]
    fn give_own(&mut self) -> io::Result<()>
        ensures { Leaves self.old self.new }
    {
        let count = self.stream.write(&self.own[self.sent..])?;
        self.sent += count;
        Ok(())
    }

    // Gives it shared bytes, once all own ones have left.
    fn give_shared(&mut self) -> io::Result<()>
        requires { self.old.sent ≡ length self.old.own.items }
        ensures { Leaves self.old self.new }
    {
        let shared = self.shared.as_slice();
        let part = &shared[..shared.len().min(MOST_SHARED)];
        let count = self.stream.write(part)?;
        self.shared.advance(count);
        Ok(())
    }
}

/// Reads what a peer has sent that has its answer, and lets go of it: a socket that is closed with something unread takes its answer back.
/// Returns whether more may come.
pub(crate) fn read_out(stream: &TcpStream) -> bool {
    let mut bytes = [0; MOST_HEAD_BYTES];
    let mut stream = stream;
    for _ in 0..MOST_READS {
        match stream.read(&mut bytes) {
            Ok(0) => return false,
            Ok(_) => {}
            Err(error) => return waits(&error),
        }
    }
    false
}

// Checks whether the call may succeed later. A signal is no failure.
fn waits(error: &io::Error) -> bool {
    matches!(error.kind(), ErrorKind::WouldBlock | ErrorKind::Interrupted)
}
