// A stream on which no write waits.
ghost use Rattle.std.specs.Prelude.{◌≡◌, ◌++◌, [], length, MatchResult, OnErr, OnOk};
ghost use Rattle.std.specs.Io.KnownBytes.{Appends, Keeps, ReadConsumes, WriteAppends};
ghost use Rattle.std.specs.Io.{ReadsAtMost, WritesAtMost};
ghost use Rattle.net_outbox.specs.Giving.{Gives};

use crate::unsent::Unsent;
use bytes::Bytes;
use std::alloc::{AllocError, Global};
use std::io::{self, ErrorKind, Read, Write};

/// A stream of which some bytes may wait to leave.
pub trait Backlog {
    ghost use Rattle.std.specs.Prelude.{ℕ};

    /// How many bytes wait.
    ghost waits: { Self → ℕ };

    /// How many bytes wait.
    fn waiting(&self) -> usize
        ensures { result ≡ waits self.now };
}

/// A stream that takes shared bytes without a copy of them.
pub trait SharedWrite: Write {
    ghost use Rattle.std.specs.Prelude.{◌≡◌, ◌++◌, OnErr, OnOk};
    ghost use Rattle.std.specs.Io.KnownBytes.{Appends};

    /// Writes these bytes, and then the shared ones: all of them, or none. Errors: out of memory, and nothing has changed then.
    fn write_shared(&mut self, own: &[u8], shared: &Bytes) -> Result<(), AllocError>
        ensures ok { OnOk result (Appends (Self.contents self.old) (Self.contents self.new) (own.now ++ shared.now)) }
        ensures err { OnErr result (self.new ≡ self.old) };
}

/// A stream on which no write blocks: a write adds to the unsent bytes, and a flush gives the stream as many of them as it takes. Shared bytes
/// aren't copied.
///
/// What the stream holds and then what waits is what was written, in its order, whatever the stream takes and however it fails.
#[derive(Drop)]
pub struct Outbox<S> {
    stream: S,
    unsent: Unsent,
    // How many have left, as far as it counts.
    taken: u64,
}

impl<S> Outbox<S> {
    ghost use Rattle.net_outbox.specs.Outboxes.{waiting_bytes};

    /// An outbox over this stream, in which nothing waits.
    pub fn new(alloc: Global, stream: S) -> Outbox<S>
        ensures stream { result.stream ≡ stream }
        ensures empty { waiting_bytes result ≡ [] }
        ensures taken { result.taken ≡ 0 }
    {
        Outbox {
            stream,
            unsent: Unsent::new(alloc),
            taken: 0,
        }
    }

    /// The stream.
    pub fn get_ref(&self) -> &S
        ensures { result.now ≡ self.now.stream }
    {
        &self.stream
    }

    /// How many bytes have left; it counts no further than to the last number of 64 bits.
    pub fn taken(&self) -> u64
        ensures { result ≡ self.now.taken }
    {
        self.taken
    }
}

// Gives a stream the unsent bytes, as far as it takes them. Returns how many it took.
fn give<S: Write>(stream: &mut S, unsent: &mut Unsent) -> (usize, io::Result<()>)
    ensures { Gives (S.contents stream.old) (S.contents stream.new) result.0 unsent.old unsent.new }
{
    let whole = unsent.len();
    let mut left = whole;
    let mut count = 0;
    while left > 0 {
        match unsent.give_some(stream) {
            Ok(0) => return (count, Err(io::Error::from(ErrorKind::WriteZero))),
            Ok(more) => count += more,
            Err(error) => return (count, Err(error)),
        }
        unsent.tidy();
        left = unsent.len();
    }
    (count, Ok(()))
}

impl<S: Write> Outbox<S> {
    ghost use Rattle.net_outbox.specs.Outboxes.{Leaves};

    // Gives the stream the bytes that it takes now.
    fn drain(&mut self) -> io::Result<()>
        ensures { Leaves S.contents self.old self.new }
    {
        let (count, left) = give(&mut self.stream, &mut self.unsent);
        self.taken = self.taken.saturating_add(count as u64);
        left
    }
}

impl<S> Backlog for Outbox<S> {
    ghost use Rattle.net_outbox.specs.Outboxes.{waiting_bytes};

    ghost waits = { λ o. length (waiting_bytes o) };

    fn waiting(&self) -> usize {
        self.unsent.len()
    }
}

impl<S: Read> Read for Outbox<S> {
    ghost use Rattle.net_outbox.specs.Outboxes.{waiting_bytes};

    ghost remaining = { λ o. S.remaining o.stream };

    fn read(&mut self, buf: &mut [u8]) -> io::Result<usize>
        ensures bound { ReadsAtMost result buf.new }
        ensures bytes { ReadConsumes (S.remaining self.old.stream) (S.remaining self.new.stream) result buf.new }
        ensures waits { waiting_bytes self.new ≡ waiting_bytes self.old }
    {
        self.stream.read(buf)
    }
}

impl<S: Write> Write for Outbox<S> {
    ghost use Rattle.net_outbox.specs.Outboxes.{Leaves, contents_of, waiting_bytes};

    ghost contents = { contents_of S.contents };

    // It takes all bytes. Errors: out of memory.
    fn write(&mut self, buf: &[u8]) -> io::Result<usize>
        ensures bound { WritesAtMost result buf.now }
        ensures bytes { WriteAppends (contents_of S.contents self.old) (contents_of S.contents self.new) result buf.now }
        ensures waits { MatchResult result (λ _. waiting_bytes self.new ≡ waiting_bytes self.old ++ buf.now) (λ _. waiting_bytes self.new ≡ waiting_bytes self.old) }
        ensures stream { self.new.stream ≡ self.old.stream }
    {
        self.unsent.push(buf)?;
        Ok(buf.len())
    }

    // If the stream takes no more for now, that is no error. Errors: those of the stream.
    #[tactic(auto, using(crate::proofs::Left::keeps))]
    fn flush(&mut self) -> io::Result<()>
        ensures bytes { Keeps (contents_of S.contents self.old) (contents_of S.contents self.new) }
        ensures leaves { Leaves S.contents self.old self.new }
    {
        match self.drain() {
            Err(error) if error.kind() == ErrorKind::WouldBlock => Ok(()),
            left => left,
        }
    }
}

impl<S: Write> SharedWrite for Outbox<S> {
    ghost use Rattle.net_outbox.specs.Outboxes.{contents_of, waiting_bytes};

    fn write_shared(&mut self, own: &[u8], shared: &Bytes) -> Result<(), AllocError>
        ensures ok { OnOk result (Appends (contents_of S.contents self.old) (contents_of S.contents self.new) (own.now ++ shared.now)) }
        ensures waits { OnOk result (waiting_bytes self.new ≡ waiting_bytes self.old ++ (own.now ++ shared.now)) }
        ensures stream { self.new.stream ≡ self.old.stream }
        ensures err { OnErr result (self.new ≡ self.old) }
    {
        if shared.is_empty() {
            self.unsent.push(own)
        } else {
            self.unsent.share(own, shared)
        }
    }
}
