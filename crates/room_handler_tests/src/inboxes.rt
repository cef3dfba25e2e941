//! An inbox: which messages it has come together, for streams that give few bytes at a time.
use net_inbox::Inbox;
use std::alloc::Global;
use std::io::{self, ErrorKind, Read};
use std::test::Fail;
use tungstenite::{Duplex, MaskKeys, Message, NoMask, Role, WebSocket};

// What a client sends, a line for each message.
const LINES: &str = "join\nedit 1\nedit 2\nedit 3\nask\nedit 4\nedit 5";

const EDIT: &[u8] = b"edit";

// How many messages each message has come together with, if all have come at once; none, if it was taken with others before.
const AT_ONCE: &[usize] = &[0, 3, 0, 0, 0, 2, 0];

// The same where each has come alone.
const ALONE: &[usize] = &[0, 1, 1, 1, 0, 1, 1];

// The same where the third message is too long to be kept.
const WITH_A_LONG_ONE: &[usize] = &[0, 1, 0, 1, 0, 2, 0];

// Keys whose bytes all differ.
#[derive(Clone, Copy, Debug)]
struct Keys;

impl MaskKeys for Keys {
    fn next_key(&mut self) -> [u8; 4] {
        [1, 35, 69, 203]
    }
}

// Bytes to read, at most `most` at a time, which an inbox records. At their end a read would wait.
#[derive(Drop)]
struct Pieces<'a> {
    bytes: &'a [u8],
    most: usize,
    inbox: &'a Inbox,
}

impl Read for Pieces<'_> {
    fn read(&mut self, buf: &mut [u8]) -> io::Result<usize> {
        if self.bytes.is_empty() {
            return Err(io::Error::from(ErrorKind::WouldBlock));
        }
        let most = buf.len().min(self.most);
        let count = self.bytes.read(&mut buf[..most])?;
        self.inbox.pass(&buf[..count]);
        Ok(count)
    }
}

// The bytes by which a client sends each of these lines; the third one is this long.
fn sent(alloc: Global, long: usize) -> Result<Vec<u8>, Fail> {
    let stream = Duplex {
        reader: b"".as_slice(),
        writer: Vec::new(alloc),
    };
    let mut client = WebSocket::from_raw_socket(alloc, stream, Keys, Role::Client, None);
    for (number, line) in LINES.lines().enumerate() {
        let mut text = Vec::from_slice(alloc, line.as_bytes())?;
        if number == 2 && long > text.len() {
            text.resize(long, b'x')?;
        }
        client.send(Message::binary(alloc, &text)?)?;
        client.send(Message::Ping(bytes::Bytes::copy_from_slice(alloc, b"p")?))?;
    }
    Ok(client.into_inner().writer)
}

// How many messages each message has come together with, if `most` bytes come at a time.
fn runs(alloc: Global, bytes: &[u8], most: usize) -> Result<Vec<usize>, Fail> {
    let inbox = Inbox::new(alloc);
    let stream = Duplex {
        reader: Pieces {
            bytes,
            most,
            inbox: &inbox,
        },
        writer: io::sink(),
    };
    let mut server = WebSocket::from_raw_socket(alloc, stream, NoMask, Role::Server, None);
    let mut runs = Vec::new(alloc);
    for _message in 0..bytes.len() {
        let Ok(message) = server.read() else {
            return Ok(runs);
        };
        if let Message::Binary(message) = message {
            let run = inbox.take_run(message.as_slice(), EDIT);
            runs.push(run.len())?;
        }
    }
    Ok(runs)
}

// Checks whether the messages come together so, if `most` bytes come at a time.
fn come(alloc: Global, long: usize, most: usize, wanted: &[usize]) -> Result<bool, Fail> {
    let bytes = sent(alloc, long)?;
    Ok(runs(alloc, &bytes, most)?.as_slice() == wanted)
}

#[test]
fn inboxes(rt: HostRuntime) -> Result<(), Fail> {
    assert!(rt; come(rt.alloc(), 0, 4096, AT_ONCE)?);
    assert!(rt; come(rt.alloc(), 0, 1, ALONE)?);
    assert!(rt; come(rt.alloc(), 16 * 1024, 64 * 1024, AT_ONCE)?);
    assert!(rt; come(rt.alloc(), 16 * 1024 + 1, 64 * 1024, WITH_A_LONG_ONE)?);
    Ok(())
}

// Checks whether each piece of this size leads to runs that have each edit in one run alone, in its place.
fn has_each_once(alloc: Global, most: usize) -> Result<bool, Fail> {
    let bytes = sent(alloc, 0)?;
    let mut left = 0;
    let mut is_right = true;
    for (count, line) in runs(alloc, &bytes, most)?.iter().zip(LINES.lines()) {
        let is_edit = line.as_bytes().starts_with(EDIT);
        is_right = is_right
            && (*count == 0 || left == 0)
            && (is_edit || *count == 0)
            && (!is_edit || left > 0 || *count > 0);
        left = if *count > 0 {
            *count - 1
        } else {
            left.saturating_sub(1)
        };
    }
    Ok(is_right && left == 0)
}

#[test]
fn pieces_of_each_size(rt: HostRuntime) -> Result<(), Fail> {
    for most in 1..200 {
        assert!(rt; has_each_once(rt.alloc(), most)?, "{most}");
    }
    Ok(())
}

// Checks whether the edits that come first are taken ahead, at most so many, and none of them again once it is handed out.
fn are_taken_ahead(alloc: Global, most: usize, wanted: usize) -> Result<bool, Fail> {
    let inbox = Inbox::new(alloc);
    let bytes = sent(alloc, 0)?;
    inbox.pass(&bytes);
    let none = inbox.take_ahead(EDIT, most);
    let join = inbox.take_run(b"join", EDIT);
    let run = inbox.take_ahead(EDIT, most);
    let again = inbox.take_ahead(EDIT, most);
    let first = inbox.take_run(b"edit 1", EDIT);
    Ok(
        none.is_empty()
            && join.is_empty()
            && run.len() == wanted
            && again.is_empty()
            && first.is_empty(),
    )
}

#[test]
fn taken_ahead(rt: HostRuntime) -> Result<(), Fail> {
    assert!(rt; are_taken_ahead(rt.alloc(), 64, 3)?);
    assert!(rt; are_taken_ahead(rt.alloc(), 2, 2)?);
    assert!(rt; are_taken_ahead(rt.alloc(), 1, 1)?);
    Ok(())
}
