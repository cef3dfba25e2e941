// The binary messages in the bytes of a stream.
ghost use Rattle.std.specs.Prelude.{◌≤◌, length};

use std::alloc::{AllocError, Global};
use std::collections::VecDeque;
use websocket::protocol::frame::FrameHeader;
use websocket::protocol::frame::coding::{Data, OpCode};

// A longer message isn't kept.
const MOST_TEXT: u64 = 16 * 1024;

// How many messages are taken together.
const MOST_RUN: usize = 64;

// What becomes of the payload of a frame.
#[derive(Drop)]
enum Payload {
    // It is passed over.
    Passed,
    // It ends a message that isn't kept.
    Dropped,
    // It is a message. This part of it has come.
    Kept(Vec<u8>),
}

/// Follows the frames in the bytes that a peer sends (RFC 6455, section 5.2), from the end of the handshake on, and keeps the messages that
/// the last bytes made whole.
#[derive(Drop)]
pub(crate) struct Messages {
    alloc: Global,
    // The bytes of a frame's header, so far.
    head: [u8; FrameHeader::MAX_SIZE],
    filled: usize,
    // How many bytes of the frame's payload are still to come, and what becomes of it.
    left: u64,
    payload: Payload,
    // The key by which it is masked.
    key: [u8; 4],
    // The messages, the oldest first. An empty one stands for a message that isn't kept.
    whole: VecDeque<Vec<u8>>,
    // Whether bytes came that are no header.
    is_lost: bool,
}

impl Messages {
    /// Of no bytes yet.
    pub(crate) fn new(alloc: Global) -> Messages {
        Messages {
            alloc,
            head: [0; FrameHeader::MAX_SIZE],
            filled: 0,
            left: 0,
            payload: Payload::Passed,
            key: [0; 4],
            whole: VecDeque::new(alloc),
            is_lost: false,
        }
    }

    /// Follows bytes that were read. All messages before them were handed out: whoever reads reads on only then.
    pub(crate) fn pass(&mut self, bytes: &[u8]) {
        self.whole.clear();
        let mut at = 0;
        for _step in 0..bytes.len() {
            if at >= bytes.len() {
                return;
            }
            at += self.pass_some(&bytes[at..]);
        }
    }

    // Follows some of these bytes, and returns their count.
    fn pass_some(&mut self, bytes: &[u8]) -> usize
        ensures { result ≤ length bytes.now }
    {
        let Some(byte) = bytes.first() else {
            return 0;
        };
        if self.left == 0 {
            self.begin(*byte);
            return 1;
        }
        let count = usize::try_from(self.left)
            .unwrap_or(usize::MAX)
            .min(bytes.len());
        self.left = self.left.saturating_sub(count as u64);
        self.add(&bytes[..count]);
        if self.left == 0 {
            self.end();
        }
        count
    }

    // Follows a byte of a header. Once bytes were no header, no byte is one.
    fn begin(&mut self, byte: u8) {
        if self.is_lost || self.filled >= FrameHeader::MAX_SIZE {
            self.is_lost = true;
            return;
        }
        self.head[self.filled] = byte;
        self.filled += 1;
        match FrameHeader::parse(&self.head[..self.filled]) {
            Ok(Some((header, length))) => self.enter(&header, length),
            Ok(None) => {}
            Err(_) => self.is_lost = true,
        }
    }

    // Enters a frame with this header and length.
    fn enter(&mut self, header: &FrameHeader, length: u64) {
        self.filled = 0;
        self.left = length;
        self.payload = payload_of(self.alloc, header, length);
        self.key = header.mask.unwrap_or([0; 4]);
        if length == 0 {
            self.end();
        }
    }

    // Adds bytes of a payload.
    fn add(&mut self, bytes: &[u8]) {
        let has_added = match &mut self.payload {
            Payload::Kept(text) => unmask(text, self.key, bytes).is_ok(),
            Payload::Passed | Payload::Dropped => true,
        };
        if !has_added {
            self.payload = Payload::Dropped;
        }
    }

    // A payload is whole. If memory runs out, its message isn't kept, and no later one is.
    fn end(&mut self) {
        let message = match std::mem::replace(&mut self.payload, Payload::Passed) {
            Payload::Passed => return,
            Payload::Dropped => Vec::new(self.alloc),
            Payload::Kept(text) => text,
        };
        if self.whole.push_back(message).is_err() {
            self.whole.clear();
            self.is_lost = true;
        }
    }

    /// Takes this message, if it is the oldest, and those after it, at most 64 together, as far as all begin with `start`. If it isn't the
    /// oldest, all are dropped.
    pub(crate) fn take_run(&mut self, message: &[u8], start: &[u8]) -> Vec<Vec<u8>> {
        if !self.is_first(message) {
            self.whole.clear();
        }
        let run = self.take_front(start, MOST_RUN);
        if run.is_empty() {
            let _ = self.whole.pop_front();
        }
        run
    }

    /// Takes the oldest messages, at most so many, as far as all begin with `start`.
    pub(crate) fn take_front(&mut self, start: &[u8], most: usize) -> Vec<Vec<u8>> {
        let mut run = Vec::new(self.alloc);
        for _count in 0..most {
            if !self.is_next(start) {
                break;
            }
            let Some(text) = self.whole.pop_front() else {
                break;
            };
            if run.push(text).is_err() {
                break;
            }
        }
        run
    }

    /// Returns a copy of the oldest message, if it begins with `start`. If memory runs out, none.
    pub(crate) fn peek(&self, start: &[u8]) -> Option<Vec<u8>> {
        if !self.is_next(start) {
            return None;
        }
        let text = self.whole.front()?;
        Vec::from_slice(self.alloc, text).ok()
    }

    // Checks whether this is the oldest message.
    fn is_first(&self, message: &[u8]) -> bool {
        match self.whole.front() {
            Some(text) => text.is_empty() || text.as_slice() == message,
            None => false,
        }
    }

    // Checks whether the oldest message begins so.
    fn is_next(&self, start: &[u8]) -> bool {
        match self.whole.front() {
            Some(text) => text.as_slice().starts_with(start),
            None => false,
        }
    }
}

// Returns what becomes of the payload of a frame with this header and length.
fn payload_of(alloc: Global, header: &FrameHeader, length: u64) -> Payload {
    match header.opcode {
        OpCode::Data(Data::Binary) if header.is_final && length <= MOST_TEXT => {
            Payload::Kept(Vec::new(alloc))
        }
        OpCode::Data(Data::Binary | Data::Continue) if header.is_final => Payload::Dropped,
        OpCode::Data(_) | OpCode::Control(_) => Payload::Passed,
    }
}

// Adds bytes to a text that are masked by this key. Errors: out of memory.
fn unmask(text: &mut Vec<u8>, key: [u8; 4], bytes: &[u8]) -> Result<(), AllocError> {
    text.reserve(bytes.len())?;
    for byte in bytes {
        let at = text.len() % 4;
        text.push(byte ^ key[at])?;
    }
    Ok(())
}
