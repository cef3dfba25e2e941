//! Who waits for something to be published, and how they are called: whoever publishes calls two, and whoever is called calls two others.
#![tactic(auto)]

ghost use Rattle.std.specs.Prelude.{◌≡◌, ◌+◌, [], OnErr, OnOk, length};

use std::alloc::{AllocError, Global};
use std::sync::atomic::{AtomicU64, Ordering};

/// What ends a wait of one thread.
pub trait Call: Drop {
    /// Ends the wait that is under way, or else the next. Never blocks.
    fn call(&self);
}

// Where a listener doesn't wait.
const NOWHERE: u64 = u64::MAX;

// One who may wait, and the version at which it does.
#[derive(Drop)]
struct Listener<C: Call> {
    call: C,
    at: AtomicU64,
}

/// The listeners of a room, each of whom waits at a version, or doesn't. Nothing is promised of who is called, or when.
#[derive(Drop)]
pub struct Bell<C: Call> {
    listeners: Vec<Listener<C>>,
    // The highest version that was rung for.
    rung: AtomicU64,
}

impl<C: Call> Bell<C> {
    /// A bell without listeners.
    pub fn new(alloc: Global) -> Bell<C>
        ensures { result.listeners.items ≡ [] }
    {
        Bell {
            listeners: Vec::new(alloc),
            rung: AtomicU64::new(0),
        }
    }

    /// One listener more, which doesn't wait; the first has the number 0. If memory runs out, nothing changes.
    pub fn add(&mut self, call: C) -> Result<(), AllocError>
        ensures ok { OnOk result (length self.new.listeners.items ≡ length self.old.listeners.items + 1) }
        ensures err { OnErr result (length self.new.listeners.items ≡ length self.old.listeners.items) }
    {
        let listener = Listener {
            call,
            at: AtomicU64::new(NOWHERE),
        };
        self.listeners.push(listener)?;
        Ok(())
    }

    /// Returns the highest version that was rung for. What was published up to it is there for all who look from now on.
    pub fn rung(&self) -> u64 {
        self.rung.load(Ordering::SeqCst)
    }

    /// This listener waits for a version above this one, until it is called or leaves. Whoever is about to wait looks once more at what is
    /// published behind this call: for what was published before it, nobody may ring any more.
    pub fn wait_at(&self, listener: usize, version: u64) {
        if let Some(listener) = self.listeners.get(listener) {
            listener.at.store(version, Ordering::SeqCst);
        }
    }

    /// This listener doesn't wait any more. If it was called, it calls two others: so whoever publishes calls two, however many wait.
    pub fn leave(&self, listener: usize) {
        if let Some(listener) = self.listeners.get(listener) {
            if listener.at.swap(NOWHERE, Ordering::SeqCst) == NOWHERE {
                self.call(self.rung.load(Ordering::SeqCst));
            }
        }
    }

    /// So many entries are published: calls two of those who wait below that, who call others.
    pub fn ring(&self, version: u64) {
        self.rung.fetch_max(version, Ordering::SeqCst);
        self.call(version);
    }

    // Calls two of those who wait below this version.
    fn call(&self, version: u64) {
        if self.call_one(version) {
            self.call_one(version);
        }
    }

    // Calls one of those who wait below this version, if one does. Returns whether it has. Each is called once.
    fn call_one(&self, version: u64) -> bool {
        for listener in self.listeners.iter() {
            let at = listener.at.load(Ordering::SeqCst);
            if at < version && listener.is_called(at) {
                listener.call.call();
                return true;
            }
        }
        false
    }
}

impl<C: Call> Listener<C> {
    // Has it wait no more, if it still waits at this version. Returns whether it did.
    fn is_called(&self, at: u64) -> bool {
        self.at
            .compare_exchange(at, NOWHERE, Ordering::SeqCst, Ordering::SeqCst)
            .is_ok()
    }
}
