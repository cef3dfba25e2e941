//! The writing side of a server's WebSocket, over a stream on which no write blocks. Each message is one frame. Shared text isn't copied.
#![tactic(auto)]

ghost use Rattle.std.specs.Prelude.{◌≡◌, ◌++◌, [], false, IfErr, IfOk, None, OnErr, OnOk};
ghost use Rattle.websocket.specs.declared.protocol.config.Role.TheVariants as role;
ghost use Rattle.websocket.specs.Connection.{whole_header, write_step};
ghost use Rattle.websocket.specs.Content.{binary, content_opcode, is_close};
ghost use Rattle.websocket.specs.Frame.{encode_frame};
ghost use Rattle.websocket.specs.View.{Leaves};
ghost use Rattle.tungstenite.specs.Failure.{IsIo};
ghost use Rattle.tungstenite.specs.Socket.{Flushed, IsFresh, Writes, content_of};
ghost use Rattle.net_frames.specs.Writers.{conn_of};

use bytes::Bytes;
use net_outbox::SharedWrite;
use std::alloc::{AllocError, Global};
use std::marker::Model;
use tungstenite::{Error, Message, NoMask, Role};
use websocket::error::{Error as FrameError, ProtocolError};
use websocket::protocol::frame::FrameHeader;
use websocket::protocol::frame::coding::{Data, OpCode};
use websocket::protocol::{WebSocketConfig, WebSocketContext};

/// The writing side of a server's WebSocket after its handshake. It buffers nothing itself. Contracts view it as a socket of `tungstenite` that
/// reads nothing.
#[derive(Drop)]
pub struct FrameWriter<S> {
    alloc: Global,
    stream: S,
    // True once a closing frame was written: no frame may follow it.
    has_closed: bool,
}

impl<S> Model for FrameWriter<S> {
    ghost use Rattle.std.specs.Prelude.{[]};
    ghost use Rattle.tungstenite.specs.Socket.{Socket, socket_code};
    ghost use Rattle.net_frames.specs.Writers.{conn_of};

    ghost Value = { Socket S };

    ghost coded = { socket_code S.code };

    ghost view = { λ w. record { stream = w.stream; conn = conn_of w.has_closed; input = []; output = [] } };
}

impl<S> FrameWriter<S> {
    /// Returns the writing side over a stream whose handshake is done.
    pub fn new(alloc: Global, stream: S) -> FrameWriter<S>
        ensures { IsFresh result stream role.Server }
    {
        FrameWriter {
            alloc,
            stream,
            has_closed: false,
        }
    }

    /// Returns the stream.
    pub fn get_ref(&self) -> &S
        ensures { result.now ≡ self.now.stream }
    {
        &self.stream
    }

    /// Returns the stream.
    pub fn into_inner(self) -> S
        ensures { result ≡ self.stream }
    {
        let FrameWriter {
            alloc: _,
            stream,
            has_closed: _,
        } = self;
        stream
    }
}

impl<S: SharedWrite> FrameWriter<S> {
    /// Writes a message into the stream, as one frame.
    ///
    /// Errors: `OutOfMemory`; `Protocol` for a message after a closing frame, or a ping, pong or close of more than 125 bytes. Nothing has changed
    /// then.
    pub fn write(&mut self, message: Message) -> Result<(), Error>
        ensures wrote { OnOk result (Writes S.contents self.old self.new (write_step self.old.conn (content_of message))) }
        ensures stays { OnErr result (self.new ≡ self.old) }
        ensures no_io { IfErr result (λ e. IsIo e → ⊥) }
    {
        if self.has_closed {
            return Err(Error::Protocol(ProtocolError::SendAfterClosing));
        }
        let frame = encoded(self.alloc, &message)?;
        let nothing = Bytes::new();
        self.stream.write_shared(&frame, &nothing)?;
        self.has_closed = message.is_close();
        Ok(())
    }

    /// Writes a text into the stream, as one binary message: these bytes, and then the shared ones, which aren't copied. Errors: those of
    /// `write`, and nothing has changed then.
    pub fn write_text(&mut self, own: &[u8], shared: &Bytes) -> Result<(), Error>
        ensures wrote { OnOk result (Writes S.contents self.old self.new (write_step self.old.conn (binary (own.now ++ shared.now)))) }
        ensures stays { OnErr result (self.new ≡ self.old) }
        ensures no_io { IfErr result (λ e. IsIo e → ⊥) }
    {
        if self.has_closed {
            return Err(Error::Protocol(ProtocolError::SendAfterClosing));
        }
        let begun = begun_frame(self.alloc, own, shared)?;
        self.stream.write_shared(&begun, shared)?;
        Ok(())
    }

    /// Flushes the stream. Errors: those of the stream.
    pub fn flush(&mut self) -> Result<(), Error>
        ensures sent { Flushed S.contents self.old self.new }
        ensures empty { OnOk result (self.new.output ≡ []) }
        ensures only_io { IfErr result IsIo }
    {
        self.stream.flush()?;
        Ok(())
    }
}

// Returns the frame of a message. Errors: out of memory, and a message that must not be sent.
fn encoded(alloc: Global, message: &Message) -> Result<Vec<u8>, FrameError>
    ensures { IfOk result (λ frame. Leaves (write_step (conn_of false) (content_of message.now)) (conn_of (is_close (content_of message.now))) [] frame.items) }
{
    let limits = WebSocketConfig {
        max_message_size: None,
        max_frame_size: None,
        accept_unmasked_frames: false,
    };
    let mut context = WebSocketContext::new(alloc, Role::Server, limits);
    let mut keys = NoMask;
    let mut frame = Vec::new(alloc);
    context.write(message.as_frame(), &mut frame, &mut keys)?;
    Ok(frame)
}

// Returns the frame of a binary message, up to the shared bytes: its header, and its own bytes. Errors: out of memory.
fn begun_frame(alloc: Global, own: &[u8], shared: &Bytes) -> Result<Vec<u8>, AllocError>
    ensures { IfOk result (λ begun. begun.items ++ shared.now
        ≡ encode_frame (whole_header (content_opcode (binary (own.now ++ shared.now))) None) (own.now ++ shared.now)) }
{
    let Some(len) = own.len().checked_add(shared.len()) else {
        return Err(AllocError);
    };
    let most = own.len().saturating_add(FrameHeader::MAX_SIZE);
    let mut begun = Vec::with_capacity(alloc, most)?;
    let header = FrameHeader::new(OpCode::Data(Data::Binary), None);
    header.format(len as u64, &mut begun)?;
    begun.extend_from_slice(own)?;
    Ok(begun)
}
