//! The messages of a peer that were read from a connection's stream, before its WebSocket hands them out one after the other.
//!
//! Whoever replies to a message can so see which others have come with it, and prepare for them. It is a hint: what it holds no contract
//! says, and no reply may depend on it.
#![tactic(auto)]

mod messages;

use messages::Messages;
use std::alloc::Global;
use std::cell::{Cell, RefCell};

/// The binary messages that have come on a connection, from the oldest one that wasn't handed out yet. It keeps no more of them than the last
/// read of the stream gave, and none of more than 16 KiB.
#[derive(Drop)]
pub struct Inbox {
    alloc: Global,
    messages: RefCell<Messages>,
    // How many messages that were taken together are still to be handed out.
    taken: Cell<usize>,
}

impl Inbox {
    /// Creates an inbox in which nothing has come.
    pub fn new(alloc: Global) -> Inbox {
        Inbox {
            alloc,
            messages: RefCell::new(Messages::new(alloc)),
            taken: Cell::new(0),
        }
    }

    /// Records bytes that were read from the stream. Whoever hands its messages out has handed out all that came before them.
    pub fn pass(&self, bytes: &[u8]) {
        self.taken.set(0);
        if let Ok(mut messages) = self.messages.try_borrow_mut() {
            messages.pass(bytes);
        }
    }

    /// Takes the messages that have come together with this one, which is handed out now: itself and those after it, at most 64, as far as all
    /// begin with `start`. Called for each message that is handed out, in their order. Returns none for one that was taken with others before.
    pub fn take_run(&self, message: &[u8], start: &[u8]) -> Vec<Vec<u8>> {
        let left = self.taken.get();
        if left > 0 {
            self.taken.set(left - 1);
            return Vec::new(self.alloc);
        }
        let Ok(mut messages) = self.messages.try_borrow_mut() else {
            return Vec::new(self.alloc);
        };
        let run = messages.take_run(message, start);
        self.taken.set(run.len().saturating_sub(1));
        run
    }

    /// Takes the messages that came last, before one of them is handed out: at most so many, as far as all begin with `start`.
    pub fn take_ahead(&self, start: &[u8], most: usize) -> Vec<Vec<u8>> {
        if self.taken.get() > 0 {
            return Vec::new(self.alloc);
        }
        let Ok(mut messages) = self.messages.try_borrow_mut() else {
            return Vec::new(self.alloc);
        };
        let run = messages.take_front(start, most);
        self.taken.set(run.len());
        run
    }

    /// Returns a copy of the message that is handed out next, if it begins with `start`. If memory runs out, none.
    pub fn peek(&self, start: &[u8]) -> Option<Vec<u8>> {
        if self.taken.get() > 0 {
            return None;
        }
        let Ok(messages) = self.messages.try_borrow() else {
            return None;
        };
        messages.peek(start)
    }
}
