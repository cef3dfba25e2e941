// How many bytes may wait to leave for all connections together.
ghost use Rattle.std.specs.Prelude.{◌<◌};

use crate::parsing::Parsing;
use canvas_judge::Message;
use net_outbox::{MUCH_WAITS, Text};
use room_handler::Told;
use std::sync::atomic::{AtomicU64, Ordering};

// The bytes that may wait for all connections together, besides those that each may have: 64 MiB.
const MOST_BYTES: u64 = 64 * 1024 * 1024;

// The bytes that a slow peer must take in 8 seconds: 4 kB a second, and 256 kB a second while a connection needs room.
const LEAST_TAKEN: u64 = 32_000;

const LEAST_TAKEN_WHEN_SHORT: u64 = 2_048_000;

/// The bytes that wait to be sent for all connections together, besides the 512 KiB that each connection may have.
///
/// An answer of more than 256 KiB is counted until it is sent. So is the text of an earlier copy of the document, while a client is sent it.
/// While a connection needs room that isn't there, slow peers are ended sooner.
#[derive(Drop)]
pub(crate) struct Budget {
    used: AtomicU64,
    // How many connections need room.
    wanted: AtomicU64,
    /// The lock of the long messages that are parsed.
    pub(crate) parsing: Parsing,
}

impl Budget {
    /// Returns an unused budget.
    pub(crate) fn new() -> Budget {
        Budget {
            used: AtomicU64::new(0),
            wanted: AtomicU64::new(0),
            parsing: Parsing::new(),
        }
    }

    /// Checks whether there is room for these bytes. There always is if nothing else is counted.
    pub(crate) fn has_room(&self, bytes: u64) -> bool {
        fits(self.used.load(Ordering::SeqCst), bytes)
    }

    /// Takes these bytes, if there is room. Returns whether there was.
    pub(crate) fn take(&self, bytes: u64) -> bool {
        let has_room = fits(self.used.fetch_add(bytes, Ordering::SeqCst), bytes);
        if !has_room {
            self.give(bytes);
        }
        has_room
    }

    /// Takes these bytes, also if there is no room.
    pub(crate) fn take_anyway(&self, bytes: u64) {
        self.used.fetch_add(bytes, Ordering::SeqCst);
    }

    /// Gives these bytes back.
    pub(crate) fn give(&self, bytes: u64) {
        self.used.fetch_sub(bytes, Ordering::SeqCst);
    }

    /// Counts one more connection that needs room.
    pub(crate) fn want(&self) {
        self.wanted.fetch_add(1, Ordering::SeqCst);
    }

    /// Counts one connection less that needs room.
    pub(crate) fn want_no_more(&self) {
        self.wanted.fetch_sub(1, Ordering::SeqCst);
    }

    /// Returns how many bytes a slow peer must take in 8 seconds.
    pub(crate) fn least_taken(&self) -> u64 {
        if self.wanted.load(Ordering::SeqCst) > 0 {
            LEAST_TAKEN_WHEN_SHORT
        } else {
            LEAST_TAKEN
        }
    }
}

// Checks whether these bytes fit besides those that are counted.
fn fits(used: u64, bytes: u64) -> bool {
    used == 0 || used.saturating_add(bytes) <= MOST_BYTES
}

/// Returns how many bytes an answer of these messages takes of the budget: those of its text, if they are more than 256 KiB. A copy of the
/// document counts as so many.
pub(crate) fn bytes_of_answer(told: &[Told], copy: u64) -> u64 {
    let mut bytes: usize = 0;
    for message in told {
        bytes = bytes.saturating_add(bytes_of(message, copy));
    }
    counted(bytes, MUCH_WAITS)
}

// Returns how many bytes the text of a message has: those of its entry, or so many, if it is a copy.
fn bytes_of(message: &Told, copy: u64) -> usize {
    match message {
        Told::Entry { entry, .. } => entry.text().len(),
        Told::Other(Message::Copy(_)) => copy as usize,
        Told::Other(_) => 0,
    }
}

/// Returns how many of these messages a push writes: as many as begin within the first 256 KiB of their texts, and one at least.
pub(crate) fn pushed(told: &[Told]) -> usize
    ensures { 0 < result }
{
    let mut bytes: usize = 0;
    for (count, message) in told.iter().enumerate() {
        if bytes >= MUCH_WAITS {
            return count.max(1);
        }
        bytes = bytes.saturating_add(bytes_of(message, 0));
    }
    told.len().max(1)
}

/// Returns how many bytes a push of these texts takes of the budget: the own bytes of those that go out until 256 KiB wait, if they are more
/// than 512 KiB.
pub(crate) fn bytes_of_push(texts: &[Text]) -> u64 {
    let mut bytes: usize = 0;
    for text in texts {
        if bytes >= MUCH_WAITS {
            break;
        }
        bytes = bytes.saturating_add(text.own().len());
    }
    counted(bytes, 2 * MUCH_WAITS)
}

// Returns these bytes, if they are more than those that are free, else 0.
fn counted(bytes: usize, free: usize) -> u64 {
    if bytes > free { bytes as u64 } else { 0 }
}
