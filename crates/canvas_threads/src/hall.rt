// The hall: nodes wait there for what others publish.

use canvas_bell::{Bell, Call};
use std::alloc::{AllocError, Global};
use std::sync::atomic::{AtomicU64, Ordering};
use std::sync::{Arc, Wait};
use std::thread::Parker;

// What ends the wait of one node.
#[derive(Drop)]
struct Caller {
    parker: Arc<Parker, Global>,
}

impl Call for Caller {
    fn call(&self) {
        self.parker.unpark();
    }
}

/// The hall of a run. A node that has made its edits may wait there until another publishes something. That a node is woken isn't
/// promised.
#[derive(Drop)]
pub(crate) struct Hall {
    bell: Bell<Caller>,
    // Of each node, in the order of the bell's listeners.
    parkers: Vec<Arc<Parker, Global>>,
    // How many nodes make edits now.
    at_work: AtomicU64,
}

impl Hall {
    /// Makes a hall for this many nodes. No node makes edits yet. Errors: out of memory.
    pub(crate) fn new(alloc: Global, nodes: usize) -> Result<Hall, AllocError> {
        let mut bell = Bell::new(alloc);
        let mut parkers = Vec::with_capacity(alloc, nodes)?;
        for _ in 0..nodes {
            let parker = Arc::new(alloc, Parker::new())?;
            let caller = Caller {
                parker: Arc::try_clone(&parker)?,
            };
            bell.add(caller)?;
            parkers.push(parker)?;
        }
        Ok(Hall {
            bell,
            parkers,
            at_work: AtomicU64::new(0),
        })
    }

    /// A node makes edits until the result is dropped.
    pub(crate) fn work(&self) -> AtWork<'_> {
        self.at_work.fetch_add(1, Ordering::SeqCst);
        AtWork { hall: self }
    }

    /// Checks whether a node makes edits now.
    pub(crate) fn is_at_work(&self) -> bool {
        self.at_work.load(Ordering::SeqCst) > 0
    }

    /// Calls nodes that wait below this version, which is published.
    pub(crate) fn ring(&self, version: u64) {
        self.bell.ring(version);
    }

    /// A node may wait for an entry after this version, until the result is dropped. Nodes count from 1. The node then looks once more
    /// at what is published, and only then waits.
    pub(crate) fn listen(&self, node: u64, version: u64) -> Listening<'_> {
        let listener = node.saturating_sub(1) as usize;
        self.bell.wait_at(listener, version);
        Listening {
            hall: self,
            listener,
        }
    }

    // Ends the wait of each node.
    fn call_all(&self) {
        for parker in self.parkers.iter() {
            parker.unpark();
        }
    }
}

/// A node that makes edits. Dropped by the last of them, it ends the wait of each node.
pub(crate) struct AtWork<'a> {
    hall: &'a Hall,
}

impl Drop for AtWork<'_> {
    fn drop(self) {
        let AtWork { hall } = self;
        if hall.at_work.fetch_sub(1, Ordering::SeqCst) == 1 {
            hall.call_all();
        }
    }
}

/// A node that may wait.
pub(crate) struct Listening<'a> {
    hall: &'a Hall,
    listener: usize,
}

impl Listening<'_> {
    /// Blocks until the node is called, unless it was called before.
    pub(crate) fn wait<W: Wait>(&self, rt: &W) {
        if let Some(parker) = self.hall.parkers.get(self.listener) {
            parker.park(rt);
        }
    }
}

impl Drop for Listening<'_> {
    fn drop(self) {
        let Listening { hall, listener } = self;
        hall.bell.leave(listener);
    }
}
