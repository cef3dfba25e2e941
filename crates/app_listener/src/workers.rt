// The workers that serve clients, as the door sees them.

use crossbeam_channel::Sender;
use mio::Waker;
use std::alloc::Global;
use std::net::TcpStream;
use std::sync::atomic::{AtomicUsize, Ordering};
use std::sync::{Arc, Wait};

/// How many connections a worker serves.
#[derive(Drop)]
pub struct Load {
    count: AtomicUsize,
}

impl Load {
    /// Returns that of a worker that serves none.
    pub fn new() -> Load {
        Load {
            count: AtomicUsize::new(0),
        }
    }

    /// Counts a connection less.
    pub fn end(&self) {
        self.count.fetch_sub(1, Ordering::SeqCst);
    }
}

/// A worker, and the way by which it is given connections.
#[derive(Drop)]
pub struct Worker {
    /// Where it takes them.
    pub connections: Sender<TcpStream, Global>,
    /// What ends its wait.
    pub waker: Arc<Waker, Global>,
    /// How many it serves, and was given.
    pub load: Arc<Load, Global>,
}

/// The workers of a server, and how many connections all serve at once, at most.
#[derive(Drop)]
pub struct Workers {
    list: Vec<Worker>,
    most: usize,
}

impl Workers {
    /// Returns these workers, who serve so many connections together.
    pub fn new(list: Vec<Worker>, most: usize) -> Workers {
        Workers { list, most }
    }

    // Returns how many connections all serve, and the place of the worker that serves the fewest.
    fn least(&self) -> (usize, usize) {
        let mut all = 0;
        let mut place = 0;
        let mut fewest = usize::MAX;
        for (at, worker) in self.list.iter().enumerate() {
            let count = worker.load.count.load(Ordering::SeqCst);
            all = count.saturating_add(all);
            if count < fewest {
                fewest = count;
                place = at;
            }
        }
        (all, place)
    }

    /// Gives a connection to the worker that serves the fewest. Returns it if as many are served as may be.
    pub(crate) fn give<R: Wait>(&self, rt: &R, stream: TcpStream) -> Option<TcpStream> {
        let (all, place) = self.least();
        if all >= self.most {
            return Some(stream);
        }
        let Some(worker) = self.list.get(place) else {
            return Some(stream);
        };
        worker.load.count.fetch_add(1, Ordering::SeqCst);
        if let Err(unsent) = worker.connections.try_send(rt, stream) {
            worker.load.end();
            return Some(unsent.into_inner());
        }
        let _ = worker.waker.wake();
        None
    }
}
