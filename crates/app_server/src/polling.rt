// Where a worker waits for its connections, and for what is published.

use canvas_bell::Call;
use mio::event::Events;
use mio::unix::SourceFd;
use mio::{Interest, Poll, Token, Waker};
use std::alloc::Global;
use std::io;
use std::net::{Net, TcpStream};
use std::os::fd::AsRawFd;
use std::sync::Arc;
use std::time::Duration;

// Reported where it is called.
const CALLED: Token = Token(0);

// How many events are taken at once.
const MOST_EVENTS: usize = 1_024;

/// What ends a wait at a post.
#[derive(Drop)]
pub(crate) struct Caller {
    waker: Arc<Waker, Global>,
}

impl Caller {
    /// Returns what ends a wait by this waker.
    pub(crate) fn new(waker: Arc<Waker, Global>) -> Caller {
        Caller { waker }
    }
}

impl Call for Caller {
    fn call(&self) {
        let _ = self.waker.wake();
    }
}

/// Where a worker waits for its connections, and for what is published.
#[derive(Drop)]
pub(crate) struct Post {
    poll: Poll,
    events: Events<Global>,
    // Which listener of the bell it is.
    number: usize,
}

impl Post {
    /// A post at which nothing is waited for yet, for the listener of this number, and what ends a wait there.
    pub(crate) fn new<R: Net + AllocGlobal>(
        rt: &R,
        number: usize,
    ) -> io::Result<(Post, Arc<Waker, Global>)> {
        let poll = Poll::new(rt)?;
        let waker = Waker::new(poll.registry(), CALLED)?;
        let waker = Arc::new(rt.alloc(), waker)?;
        let events = Events::with_capacity(rt.alloc(), MOST_EVENTS)?;
        let post = Post {
            poll,
            events,
            number,
        };
        Ok((post, waker))
    }

    /// Which listener of the bell it is.
    pub(crate) fn number(&self) -> usize {
        self.number
    }

    /// From now on this socket is waited for, under this number.
    pub(crate) fn begin(&self, stream: &TcpStream, number: usize) -> io::Result<()> {
        let fd = stream.as_raw_fd();
        let both = Interest::READABLE | Interest::WRITABLE;
        let token = Token(number.wrapping_add(1));
        self.poll
            .registry()
            .register(&mut SourceFd(&fd), token, both)
    }

    /// This socket isn't waited for any more.
    pub(crate) fn end(&self, stream: &TcpStream) {
        let fd = stream.as_raw_fd();
        let _ = self.poll.registry().deregister(&mut SourceFd(&fd));
    }

    /// Waits until something is reported, so long at most.
    pub(crate) fn wait(&mut self, most: Duration) -> io::Result<()> {
        self.poll.poll(&mut self.events, Some(most))
    }

    /// Returns what was reported by the last wait.
    pub(crate) fn events(&self) -> &Events<Global> {
        &self.events
    }
}

/// Returns the number of the socket that this token stands for; `None` if it stands for a call.
pub(crate) fn socket_of(token: Token) -> Option<usize> {
    token.0.checked_sub(1)
}
