// A client's side of a connection.
ghost use Rattle.std.specs.Prelude.{◌↔◌, IfOk, IsTrue, map};
ghost use Rattle.canvas_judge.specs.Seen.{seen_message};
ghost use Rattle.canvas_nodes.specs.Answers.{AreDecoded, Extends, IsDecoded, IsDecodedAnswer, EndsAnswer};

use canvas_judge::Message;
use canvas_nodes::{Link, LinkError};
use canvas_wire::{WireError, decode, encode};
use std::alloc::Global;
use std::io::{Read, Write};
use tungstenite::{Error, MaskKeys, Message as Frame, WebSocket};

// How many messages an answer has at most: 64 entries, and the one that ends it.
const MOST_MESSAGES: u32 = 65;

/// A link over a WebSocket after its handshake. Each answer ends with its first Welcome, Idle or No, and has 65 messages at most.
///
/// After any error but Refused a rest of the answer may be left unread, so each later round answers Ended.
pub struct SocketLink<S: Drop, K: Drop> {
    alloc: Global,
    socket: WebSocket<S, K>,
    broken: bool,
}

impl<S: Drop, K: Drop> Drop for SocketLink<S, K> {
    fn drop(self) {
        let SocketLink {
            alloc: _,
            socket: _,
            broken: _,
        } = self;
    }
}

impl<S: Read + Write + Drop, K: MaskKeys + Drop> SocketLink<S, K> {
    /// A link over this socket.
    pub fn new(alloc: Global, socket: WebSocket<S, K>) -> Self {
        SocketLink {
            alloc,
            socket,
            broken: false,
        }
    }

    /// The socket.
    pub fn into_socket(self) -> WebSocket<S, K> {
        let SocketLink {
            alloc: _,
            socket,
            broken: _,
        } = self;
        socket
    }

    // Sends a message as one binary message.
    fn send(&mut self, message: &Message) -> Result<(), LinkError> {
        let text = encode(self.alloc, message)?;
        let frame = Frame::binary(self.alloc, &text)?;
        self.socket.send(frame).map_err(ended)
    }

    // Reads the next message that is no ping and no pong.
    fn receive(&mut self) -> Result<Message, LinkError>
        ensures { IfOk result (λ m. IsDecoded (seen_message m)) }
    {
        for _ in 0..u32::MAX {
            match self.socket.read() {
                Ok(Frame::Binary(bytes)) => return read(self.alloc, bytes.as_slice()),
                Ok(Frame::Text(_)) => return Err(LinkError::NotRead),
                Ok(Frame::Ping(_) | Frame::Pong(_)) => {}
                Ok(Frame::Close(_)) => return Err(LinkError::Ended),
                Err(error) => return Err(ended(error)),
            }
        }
        Err(LinkError::Ended)
    }

    // Reads the next message of an answer, and tells whether it is the last.
    fn hear(&mut self, answer: &mut Vec<Message>) -> Result<bool, LinkError>
        ensures extends { IfOk result (λ last. Extends last (map seen_message answer.old.items) (map seen_message answer.new.items)) }
        ensures decoded { IfOk result (λ _. AreDecoded (map seen_message answer.old.items) → AreDecoded (map seen_message answer.new.items)) }
    {
        let message = self.receive()?;
        if let Message::No(reason) = &message {
            return Err(LinkError::Refused(*reason));
        }
        let last = is_end(&message);
        answer.push(message)?;
        Ok(last)
    }

    // Sends a message, and reads its answer.
    fn ask(&mut self, message: &Message) -> Result<Vec<Message>, LinkError>
        ensures { IfOk result (λ answer. IsDecodedAnswer (map seen_message answer.items)) }
    {
        self.send(message)?;
        let mut answer = Vec::new(self.alloc);
        for _count in 0..MOST_MESSAGES {
            if self.hear(&mut answer)? {
                return Ok(answer);
            }
        }
        Err(LinkError::NotRead)
    }
}

impl<S: Read + Write + Drop, K: MaskKeys + Drop> Link for SocketLink<S, K> {
    ghost gives = { λ _ _ answer _. IsDecodedAnswer answer };

    ghost fails = { λ _ _ _ _. Unit {0} };

    fn round(&mut self, message: Message) -> Result<Vec<Message>, LinkError>
        ensures { IfOk result (λ answer. IsDecodedAnswer (map seen_message answer.items)) }
    {
        if self.broken {
            return Err(LinkError::Ended);
        }
        let answer = self.ask(&message);
        self.broken = !matches!(&answer, Ok(_) | Err(LinkError::Refused(_)));
        answer
    }
}

// Checks whether the message ends an answer.
fn is_end(message: &Message) -> bool
    ensures { IsTrue result ↔ EndsAnswer (seen_message message.now) }
{
    match message {
        Message::Welcome(_) | Message::Idle | Message::No(_) => true,
        _ => false,
    }
}

// The message of which the bytes are a text.
fn read(alloc: Global, bytes: &[u8]) -> Result<Message, LinkError>
    ensures { IfOk result (λ m. IsDecoded (seen_message m)) }
{
    match decode(alloc, alloc, bytes) {
        Ok(message) => Ok(message),
        Err(WireError::Memory) => Err(LinkError::Memory),
        Err(_) => Err(LinkError::NotRead),
    }
}

// How a socket that failed is told.
fn ended(error: Error) -> LinkError {
    match error {
        Error::OutOfMemory => LinkError::Memory,
        _ => LinkError::Ended,
    }
}
