//! Gates.
use canvas_threads::Gate;
use std::sync::atomic::{AtomicBool, AtomicU64, Ordering};
use std::thread::yield_now;

// What one of two nodes tells the other.
#[derive(Drop)]
struct Side {
    // It has come to send its first edit.
    came: AtomicBool,
    // It went on since the other came.
    met: AtomicBool,
}

impl Side {
    fn new() -> Side {
        Side {
            came: AtomicBool::new(false),
            met: AtomicBool::new(false),
        }
    }

    // Waits until the other has come, for a million turns that yield at most.
    fn meet(&self, other: &Side) {
        self.came.store(true, Ordering::SeqCst);
        for _ in 0..1_000_000 {
            if other.came.load(Ordering::SeqCst) {
                self.met.store(true, Ordering::SeqCst);
                return;
            }
            yield_now();
        }
    }
}

/// A gate at which nodes 1 and 2 wait for each other before the first edit that each sends.
#[derive(Drop)]
pub struct Meeting {
    one: Side,
    two: Side,
}

impl Meeting {
    pub fn new() -> Meeting {
        Meeting {
            one: Side::new(),
            two: Side::new(),
        }
    }

    /// Checks whether both went on since the other came.
    pub fn has_met(&self) -> bool {
        self.one.met.load(Ordering::SeqCst) && self.two.met.load(Ordering::SeqCst)
    }
}

impl Gate for Meeting {
    fn before(&self, node: u64, call: u64) {
        match (node, call) {
            (1, 1) => self.one.meet(&self.two),
            (2, 1) => self.two.meet(&self.one),
            _ => {}
        }
    }

    fn after(&self, _node: u64, _call: u64) {}
}

/// A gate that counts its calls, and adds up the numbers of nodes and of calls that it is told.
#[derive(Drop)]
pub struct Counting {
    before: AtomicU64,
    after: AtomicU64,
    numbers: AtomicU64,
}

impl Counting {
    pub fn new() -> Counting {
        Counting {
            before: AtomicU64::new(0),
            after: AtomicU64::new(0),
            numbers: AtomicU64::new(0),
        }
    }

    /// How often it was called before an exchange, how often after one, and the sum of the calls' numbers before.
    pub fn counts(&self) -> (u64, u64, u64) {
        (
            self.before.load(Ordering::SeqCst),
            self.after.load(Ordering::SeqCst),
            self.numbers.load(Ordering::SeqCst),
        )
    }
}

impl Gate for Counting {
    fn before(&self, _node: u64, call: u64) {
        self.before.fetch_add(1, Ordering::SeqCst);
        self.numbers.fetch_add(call, Ordering::SeqCst);
    }

    fn after(&self, _node: u64, _call: u64) {
        self.after.fetch_add(1, Ordering::SeqCst);
    }
}
