// The socket of a connection, as its two streams.
ghost use Rattle.std.specs.Prelude.{◌≡◌, IfOk, None};
ghost use Rattle.std.specs.Io.{ReadsAtMost};
ghost use Rattle.app_server.specs.Fetched.{ReadsFetched};

use crate::fetched::{FETCH_BYTES, Fetched};
use net_inbox::Inbox;
use std::alloc::Global;
use std::cell::{Cell, RefCell};
use std::io::{self, ErrorKind, Read, Write};
use std::net::TcpStream;
use std::rc::Rc;

// How many bytes are read in one step of a connection, and how many are written, so that others have their turn.
const STEP_BYTES: usize = 256 * 1024;

/// A socket on which no call blocks, and what was read of it.
#[derive(Drop)]
pub(crate) struct Socket {
    stream: TcpStream,
    // False once a read would have waited, until something is reported of it.
    is_readable: Cell<bool>,
    // True once all that was read was asked for and more: all messages in it were handed out.
    is_dry: Cell<bool>,
    fetched: RefCell<Fetched>,
    // How many bytes were read since that was asked for.
    read: Cell<usize>,
    // How many bytes may still be read in this step, how many may be written, and whether it would have been more. If both had one share, nothing
    // would be written to a peer that sends without a pause.
    reads: Cell<usize>,
    writes: Cell<usize>,
    is_cut: Cell<bool>,
    // Why the last read failed, if it did.
    error: Cell<Option<ErrorKind>>,
    inbox: Inbox,
}

impl Socket {
    /// Returns a socket that may be read, after its handshake.
    pub(crate) fn new(alloc: Global, stream: TcpStream) -> Socket {
        Socket {
            stream,
            is_readable: Cell::new(true),
            is_dry: Cell::new(true),
            fetched: RefCell::new(Fetched::new(alloc)),
            read: Cell::new(0),
            reads: Cell::new(STEP_BYTES),
            writes: Cell::new(STEP_BYTES),
            is_cut: Cell::new(false),
            error: Cell::new(None),
            inbox: Inbox::new(alloc),
        }
    }

    /// Returns its stream.
    pub(crate) fn stream(&self) -> &TcpStream {
        &self.stream
    }

    /// Returns the messages that were read.
    pub(crate) fn inbox(&self) -> &Inbox {
        &self.inbox
    }

    /// Records that it may be read.
    pub(crate) fn rouse(&self) {
        self.is_readable.set(true);
    }

    /// Returns how many bytes were read since this was asked the last time.
    pub(crate) fn take_read(&self) -> usize {
        self.read.replace(0)
    }

    /// A step of its connection begins.
    pub(crate) fn begin_step(&self) {
        self.reads.set(STEP_BYTES);
        self.writes.set(STEP_BYTES);
        self.is_cut.set(false);
    }

    /// Checks whether the last step read or wrote as many bytes as it might.
    pub(crate) fn is_cut(&self) -> bool {
        self.is_cut.get()
    }

    // Takes bytes of one of this step's shares. Returns whether any were left.
    fn take(&self, share: &Cell<usize>, bytes: usize) -> bool {
        let left = share.get();
        share.set(left.saturating_sub(bytes));
        if left == 0 {
            self.is_cut.set(true);
        }
        left > 0
    }

    /// Checks whether all messages in what was read were handed out.
    pub(crate) fn is_dry(&self) -> bool {
        self.is_dry.get()
    }

    /// Reads what has come, at most 16 KiB, if all that was read before is given. A socket that may not be read isn't read.
    pub(crate) fn fetch(&self) {
        if !self.is_readable.get() {
            return;
        }
        if let Ok(mut fetched) = self.fetched.try_borrow_mut() {
            // The next read meets an error again.
            let _ = fetched.fetch(&mut Arriving { socket: self });
        }
    }

    // Gives the next bytes, as far as there is room for them, and at the end none. Errors: that of the last read; `WouldBlock` if none are left.
    fn give(&self, buf: &mut [u8]) -> io::Result<usize>
        ensures { ReadsAtMost result buf.new }
    {
        let Ok(mut fetched) = self.fetched.try_borrow_mut() else {
            return Err(io::Error::from(ErrorKind::WouldBlock));
        };
        let result = self.give_fetched(&mut fetched, buf);
        self.is_dry.set(!matches!(&result, Ok(count) if *count > 0));
        result
    }

    // Gives the next bytes: of those that were fetched, or if none are left, of those that have come since.
    fn give_fetched(&self, fetched: &mut Fetched, buf: &mut [u8]) -> io::Result<usize>
        ensures bound { ReadsAtMost result buf.new }
        ensures bytes { ReadsFetched fetched.old None fetched.new None result buf.new }
    {
        if fetched.is_empty() && !self.is_readable.get() {
            return self.last();
        }
        fetched.read(&mut Arriving { socket: self }, buf)
    }

    // Returns what a read returns that gives no byte: 0 at the end. Errors: that of the last read; `WouldBlock` if it didn't fail.
    fn last(&self) -> io::Result<usize>
        ensures { IfOk result (λ count. count ≡ 0) }
    {
        match self.error.get() {
            Some(ErrorKind::UnexpectedEof) => Ok(0),
            Some(kind) => Err(io::Error::from(kind)),
            None => Err(io::Error::from(ErrorKind::WouldBlock)),
        }
    }

    // Reads bytes that have come. Errors: those of the socket; `WouldBlock` if this step has read its share.
    fn receive(&self, buf: &mut [u8]) -> io::Result<usize>
        ensures { ReadsAtMost result buf.new }
    {
        if !self.take(&self.reads, FETCH_BYTES) {
            return Err(io::Error::from(ErrorKind::WouldBlock));
        }
        let mut stream = &self.stream;
        match stream.read(buf) {
            Ok(0) => {
                self.stop_reading(ErrorKind::UnexpectedEof);
                Ok(0)
            }
            Ok(count) => {
                self.inbox.pass(&buf[..count]);
                self.read.set(self.read.get().saturating_add(count));
                Ok(count)
            }
            Err(error) => {
                self.stop_reading(error.kind());
                Err(error)
            }
        }
    }

    // It isn't read again until something is reported of it. The reason is kept, unless that is that no more has come.
    fn stop_reading(&self, kind: ErrorKind) {
        self.is_readable.set(false);
        if kind != ErrorKind::WouldBlock {
            self.error.set(Some(kind));
        }
    }
}

// What arrives at a socket that may be read.
#[derive(Drop)]
struct Arriving<'a> {
    socket: &'a Socket,
}

impl Read for Arriving<'_> {
    fn read(&mut self, buf: &mut [u8]) -> io::Result<usize> {
        self.socket.receive(buf)
    }
}

/// What a connection reads.
#[derive(Drop)]
pub(crate) struct Incoming {
    pub(crate) socket: Rc<Socket, Global>,
}

impl Read for Incoming {
    fn read(&mut self, buf: &mut [u8]) -> io::Result<usize> {
        self.socket.give(buf)
    }
}

/// Where a connection writes.
#[derive(Drop)]
pub(crate) struct Outgoing {
    pub(crate) socket: Rc<Socket, Global>,
}

impl Read for Outgoing {
    fn read(&mut self, _buf: &mut [u8]) -> io::Result<usize> {
        Err(io::Error::from(ErrorKind::WouldBlock))
    }
}

impl Write for Outgoing {
    fn write(&mut self, buf: &[u8]) -> io::Result<usize> {
        let most = buf.len().min(STEP_BYTES);
        if !self.socket.take(&self.socket.writes, most) {
            return Err(io::Error::from(ErrorKind::WouldBlock));
        }
        let mut stream = &self.socket.stream;
        stream.write(&buf[..most])
    }

    fn flush(&mut self) -> io::Result<()> {
        Ok(())
    }
}
