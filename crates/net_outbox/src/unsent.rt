// The unsent bytes of a connection.
ghost use Rattle.std.specs.Prelude.{◌≡◌, ◌≤◌, ◌++◌, [], IfErr, IfOk, OnErr, OnOk, drop, length};
ghost use Rattle.net_outbox.specs.Giving.{Gives, GivesNone};

use bytes::Bytes;
use std::alloc::{AllocError, Global};
use std::io::{self, Write};
use std::marker::Model;
use std::mem::replace;

// The capacity that is kept while nothing is unsent.
const MOST_KEPT: usize = 16 * 1024;

/// The unsent bytes of a connection, some of them shared. Contracts view them as one list, in their order.
#[derive(Drop)]
pub(crate) struct Unsent {
    alloc: Global,
    // How many are unsent: in order, the own ones from `sent` on,
    len: usize,
    bytes: Vec<u8>,
    sent: usize,
    // the shared ones, and the own ones that were written after those.
    shared: Bytes,
    behind: Vec<u8>,
}

impl Model for Unsent {
    ghost use Rattle.std.specs.Prelude.{ℕ, List};
    ghost use Rattle.std.specs.Coded.{coded_list, coded_ℕ};

    ghost Value = { List ℕ };

    ghost coded = { coded_list coded_ℕ };

    ghost use Rattle.net_outbox.specs.Unsent.{IsUnsent, unsent_bytes};

    ghost view = { unsent_bytes };

    ghost invariant = { IsUnsent };
}

impl Unsent {
    /// Returns an empty one. Allocates nothing.
    pub(crate) fn new(alloc: Global) -> Unsent
        ensures { result ≡ [] }
    {
        Unsent {
            alloc,
            len: 0,
            bytes: Vec::new(alloc),
            sent: 0,
            shared: Bytes::new(),
            behind: Vec::new(alloc),
        }
    }

    /// Returns how many there are.
    pub(crate) fn len(&self) -> usize
        ensures { result ≡ length self.now }
    {
        self.len
    }

    /// Adds these bytes. If memory runs out, nothing has changed.
    pub(crate) fn push(&mut self, more: &[u8]) -> Result<(), AllocError>
        ensures ok { OnOk result (self.new ≡ self.old ++ more.now) }
        ensures err { OnErr result (self.new ≡ self.old) }
    {
        let Some(len) = self.len.checked_add(more.len()) else {
            return Err(AllocError);
        };
        if self.shared.is_empty() {
            self.bytes.extend_from_slice(more)?;
            self.len = len;
            return Ok(());
        }
        self.behind.extend_from_slice(more)?;
        self.len = len;
        Ok(())
    }

    /// Adds these bytes, and then the shared ones, which aren't copied. The rest of bytes that were shared before is copied. If memory runs out,
    /// nothing has changed.
    pub(crate) fn share(&mut self, own: &[u8], shared: &Bytes) -> Result<(), AllocError>
        ensures ok { OnOk result (self.new ≡ self.old ++ (own.now ++ shared.now)) }
        ensures err { OnErr result (self.new ≡ self.old) }
    {
        let Some(first) = self.len.checked_add(own.len()) else {
            return Err(AllocError);
        };
        let Some(len) = first.checked_add(shared.len()) else {
            return Err(AllocError);
        };
        let shared = shared.clone()?;
        let mut bytes = Vec::with_capacity(self.alloc, first)?;
        bytes.extend_from_slice(&self.bytes[self.sent..])?;
        bytes.extend_from_slice(self.shared.as_slice())?;
        bytes.extend_from_slice(&self.behind)?;
        bytes.extend_from_slice(own)?;
        self.bytes = bytes;
        self.sent = 0;
        self.shared = shared;
        self.behind = Vec::new(self.alloc);
        self.len = len;
        Ok(())
    }

    /// Gives a stream the first part of them, as far as it takes it. Returns how many it took.
    pub(crate) fn give_some<S: Write>(&mut self, stream: &mut S) -> io::Result<usize>
        ensures gives { IfOk result (λ count. Gives (S.contents stream.old) (S.contents stream.new) count self.old self.new) }
        ensures stays { IfErr result (λ _. GivesNone (S.contents stream.old) (S.contents stream.new) self.old self.new) }
    {
        if self.sent < self.bytes.len() {
            let count = stream.write(&self.bytes[self.sent..])?;
            self.sent += count;
            self.len -= count;
            return Ok(count);
        }
        let count = stream.write(self.shared.as_slice())?;
        self.shared.advance(count);
        self.len -= count;
        if !self.shared.is_empty() {
            return Ok(count);
        }
        // Those that follow are the first now. The text whose bytes were shared isn't kept for longer.
        let nothing = Bytes::new();
        self.shared = nothing;
        let none = Vec::new(self.alloc);
        self.bytes = replace(&mut self.behind, none);
        self.sent = 0;
        Ok(count)
    }

    /// Drops sent bytes, once they are half of what is stored or more, and capacity that isn't used.
    pub(crate) fn tidy(&mut self)
        ensures { self.new ≡ self.old }
    {
        let sent = self.sent;
        self.sent = let_go(self.alloc, &mut self.bytes, sent);
    }
}

// Drops the first `sent` bytes, once they are half of these or more, and capacity that isn't used. Returns how many sent bytes are still
// there.
fn let_go(alloc: Global, bytes: &mut Vec<u8>, sent: usize) -> usize
    requires { sent ≤ length bytes.old.items }
    ensures within { result ≤ length bytes.new.items }
    ensures rest { drop result bytes.new.items ≡ drop sent bytes.old.items }
{
    if sent >= bytes.len() {
        if bytes.capacity() > MOST_KEPT {
            *bytes = Vec::new(alloc);
        } else {
            bytes.clear();
        }
        return 0;
    }
    if sent < bytes.len() - sent {
        return sent;
    }
    bytes.drain(..sent);
    0
}
