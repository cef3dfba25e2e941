// A buffer of bytes that were read from a stream ahead.
ghost use Rattle.std.specs.Prelude.{◌≡◌, ◌↔◌, ◌≤◌, ◌++◌, ℕ, List, [], IfOk, IsTrue, OnErr, OnOk, Some, drop, length};
ghost use Rattle.std.specs.Io.KnownBytes.{Consumes, IsAtEnd, Keeps, ReadConsumes, prepend_known};
ghost use Rattle.std.specs.Io.{ReadsAtMost};
ghost use Rattle.app_server.specs.Fetched.{ReadsFetched};

use std::alloc::Global;
use std::io::{self, Read};
use std::marker::Model;

/// How many bytes are fetched at once.
pub(crate) const FETCH_BYTES: usize = 16 * 1024;

/// Bytes that were fetched from a stream and weren't given yet. Contracts see them in their order.
#[derive(Drop)]
pub(crate) struct Fetched {
    alloc: Global,
    bytes: Vec<u8>,
    given: usize,
}

impl Model for Fetched {
    ghost Value = { List ℕ };

    ghost view = { λ f. drop f.given f.bytes.items };

    ghost invariant = { λ f. f.given ≤ length f.bytes.items };
}

impl Fetched {
    /// Returns a buffer without bytes.
    pub(crate) fn new(alloc: Global) -> Fetched
        ensures { result ≡ [] }
    {
        Fetched {
            alloc,
            bytes: Vec::new(alloc),
            given: 0,
        }
    }

    /// Checks whether all were given.
    pub(crate) fn is_empty(&self) -> bool
        ensures { IsTrue result ↔ (self.now ≡ []) }
    {
        self.left().is_empty()
    }

    // Returns the bytes that weren't given.
    fn left(&self) -> &[u8]
        ensures { result.now ≡ self.now }
    {
        &self.bytes[self.given..]
    }

    /// Reads from the stream, at most 16 KiB, if all that was read before was given. Errors: out of memory; those of the stream.
    pub(crate) fn fetch<S: Read>(&mut self, stream: &mut S) -> io::Result<()>
        ensures adds { (more : List ℕ) × (self.new ≡ self.old ++ more) × Consumes (S.remaining stream.old) (S.remaining stream.new) more }
        ensures end { OnOk result (self.new ≡ [] → IsAtEnd (S.remaining stream.new)) }
    {
        if !self.is_empty() {
            return Ok(());
        }
        let alloc = self.alloc;
        *self = Fetched::new(alloc);
        *self = arrived(alloc, stream)?;
        Ok(())
    }

    // Gives the first bytes, as far as there is room for them.
    fn give(&mut self, buf: &mut [u8]) -> io::Result<usize>
        ensures bound { ReadsAtMost result buf.new }
        ensures bytes { ReadConsumes (Some self.old) (Some self.new) result buf.new }
    {
        let mut left = self.left();
        let count = left.read(buf)?;
        self.given += count;
        Ok(count)
    }

    /// Gives the next bytes: of those that were fetched, or if none are left, of those that the stream has now. Returns how many. Errors: out of
    /// memory; those of the stream.
    pub(crate) fn read<S: Read>(&mut self, stream: &mut S, buf: &mut [u8]) -> io::Result<usize>
        ensures bound { ReadsAtMost result buf.new }
        ensures bytes { ReadConsumes (prepend_known self.old (S.remaining stream.old)) (prepend_known self.new (S.remaining stream.new)) result buf.new }
        ensures fetched { ReadsFetched self.old (S.remaining stream.old) self.new (S.remaining stream.new) result buf.new }
    {
        self.fetch(stream)?;
        self.give(buf)
    }
}

// Reads from the stream, at most 16 KiB. Errors: out of memory; those of the stream.
fn arrived<S: Read>(alloc: Global, stream: &mut S) -> io::Result<Fetched>
    ensures ok { IfOk result (λ fetched. Consumes (S.remaining stream.old) (S.remaining stream.new) fetched × (fetched ≡ [] → IsAtEnd (S.remaining stream.new))) }
    ensures err { OnErr result (Keeps (S.remaining stream.old) (S.remaining stream.new)) }
{
    let mut bytes = Vec::new(alloc);
    bytes.resize(FETCH_BYTES, 0)?;
    let count = stream.read(&mut bytes)?;
    bytes.truncate(count);
    Ok(Fetched {
        alloc,
        bytes,
        given: 0,
    })
}
