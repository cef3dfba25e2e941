//! Frames of each kind that a server reads, and how often it writes.
use crate::rooms::Room;
use crate::sockets::answers;
use canvas_sockets::serve_one;
use memory_sockets::{MemorySocket, sent, socket};
use std::alloc::Global;
use std::io;
use std::io::{Read, Write};
use std::test::Fail;
use tungstenite::{Message as Frame, NoMask, Role, WebSocket};

// A Join.
const JOIN: &str = "[\"join\",2]";

// Sends a text message, a ping and a Join, and closes.
fn send_each(alloc: Global, client: &mut MemorySocket<'_>) -> Result<(), Fail> {
    let text = Frame::text(alloc, JOIN)?;
    client.send(text)?;
    let ping = bytes::Bytes::copy_from_slice(alloc, b"p")?;
    client.send(Frame::Ping(ping))?;
    let join = Frame::binary(alloc, JOIN.as_bytes())?;
    client.send(join)?;
    Ok(client.close(None)?)
}

// The bytes of these.
fn sent_each(alloc: Global) -> Result<Vec<u8>, Fail> {
    let mut client = socket(alloc, &[], Role::Client);
    send_each(alloc, &mut client)?;
    Ok(client.into_inner().writer)
}

// Adds a Join.
fn add_join(alloc: Global, bytes: &mut Vec<u8>) -> Result<(), Fail> {
    let join = sent(alloc, JOIN, Role::Client)?;
    Ok(bytes.extend_from_slice(&join)?)
}

// The bytes of a text message, a ping and a Join, and of another Join behind a closing frame.
fn each_kind(alloc: Global) -> Result<Vec<u8>, Fail> {
    let mut bytes = sent_each(alloc)?;
    add_join(alloc, &mut bytes)?;
    Ok(bytes)
}

// Checks whether a new server answers these so.
fn are_answered(alloc: Global, answered: &str) -> Result<bool, Fail> {
    let bytes = each_kind(alloc)?;
    answers(alloc, &bytes, answered)
}

// Checks whether serving these bytes ends without an error.
fn ends(alloc: Global, bytes: &[u8]) -> Result<bool, Fail> {
    let mut room = Room::new(alloc)?;
    let mut server = socket(alloc, bytes, Role::Server);
    Ok(serve_one(alloc, &mut room, &mut server).is_ok())
}

// The same for those of each kind.
fn ends_each(alloc: Global) -> Result<bool, Fail> {
    let bytes = each_kind(alloc)?;
    ends(alloc, &bytes)
}

// The same for a Join alone, behind which the stream ends.
fn ends_join(alloc: Global) -> Result<bool, Fail> {
    let bytes = sent(alloc, JOIN, Role::Client)?;
    ends(alloc, &bytes)
}

#[test]
fn kinds(rt: HostRuntime) -> Result<(), Fail> {
    assert!(rt; are_answered(rt.alloc(), "[\"no\",9]\n[\"welcome\",1]\n")?);
    assert!(rt; ends_each(rt.alloc())?);
    assert!(rt; !ends_join(rt.alloc())?);
    Ok(())
}

// Bytes to read, and how often something was written.
#[derive(Drop)]
struct Counting<'a> {
    reader: &'a [u8],
    writes: u32,
}

impl<'a> Read for Counting<'a> {
    fn read(&mut self, buf: &mut [u8]) -> io::Result<usize> {
        self.reader.read(buf)
    }
}

impl<'a> Write for Counting<'a> {
    fn write(&mut self, buf: &[u8]) -> io::Result<usize> {
        self.writes = self.writes.saturating_add(1);
        Ok(buf.len())
    }

    fn flush(&mut self) -> io::Result<()> {
        Ok(())
    }
}

// How often a server writes while it answers these bytes.
fn writes(alloc: Global, bytes: &[u8]) -> Result<u32, Fail> {
    let mut room = Room::new(alloc)?;
    let stream = Counting {
        reader: bytes,
        writes: 0,
    };
    let mut server = WebSocket::from_raw_socket(alloc, stream, NoMask, Role::Server, None);
    let _ = serve_one(alloc, &mut room, &mut server);
    Ok(server.into_inner().writes)
}

// The same for these lines.
fn writes_for(alloc: Global, lines: &str) -> Result<u32, Fail> {
    let bytes = sent(alloc, lines, Role::Client)?;
    writes(alloc, &bytes)
}

#[test]
fn one_write_an_answer(rt: HostRuntime) -> Result<(), Fail> {
    let rows = [(JOIN, 1), ("[\"join\",2]\n[\"ask\",1,0]\n[\"ask\",1,1]", 3)];
    for (lines, wanted) in rows {
        assert_eq!(rt; writes_for(rt.alloc(), lines)?, wanted, "at {lines}");
    }
    Ok(())
}
