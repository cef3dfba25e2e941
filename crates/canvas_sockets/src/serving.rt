// A server's side of a connection.
ghost use Rattle.std.specs.Prelude.{List, IfErr, IfOk, OnOk, map};
ghost use Rattle.tungstenite.specs.Connection.{write_step};
ghost use Rattle.tungstenite.specs.Content.{binary};
ghost use Rattle.tungstenite.specs.Socket.{Writes, content_of};
ghost use Rattle.canvas_model.specs.Messages as messages;
ghost use Rattle.canvas_nodes.specs.Answers.{Replies, refusal_alone};
ghost use Rattle.canvas_sockets.specs.Served.{Handles, RefusesText, SendsAnswer, SendsEachText, Serves, StopsAnswer, StopsHandling, StopsSending, StopsServing, StopsTurn, StopsWriting, Turns, WritesEach};

use canvas_judge::NoReason;
use canvas_nodes::{Answerer, answered, no_text};
use std::alloc::Global;
use std::io::{Read, Write};
use tungstenite::{Error, Message as Frame, NoMask, WebSocket};

/// Serves a connection until it ends: reads a message, answers it, and so on.
///
/// Bytes that are a text of no message that a client sends, and a message of text, are answered by a No for NotRead; if memory runs
/// out while a message is decoded or answered, the answer is a No for Memory. After a No it goes on. Each message of an answer is
/// one binary message, and a small answer leaves in one write. Pings and pongs are passed over.
///
/// Once the answer to a binary message has left, the answerer is told.
///
/// It ends with a closing frame, or the 4294967296th message, which isn't read. Otherwise it tells what ended it: a fault of the
/// socket, or that memory ran out for what the socket reads or for the frame of a text. Every message that was read has an answer,
/// and the answer its texts, since a No takes no memory. All answers but the last have left then, and of the last a beginning.
pub fn serve_one<A: Answerer, S: Read + Write + Drop>(
    alloc: Global,
    answerer: &mut A,
    socket: &mut WebSocket<S, NoMask>,
) -> Result<(), Error>
    ensures serves { OnOk result (Serves A.gives S.remaining S.contents 4294967295 answerer.old socket.old answerer.new socket.new) }
    ensures stops { IfErr result (λ e. StopsServing A.gives S.remaining S.contents 4294967295 e answerer.old socket.old answerer.new socket.new) }
{
    for _turn in 0..u32::MAX {
        if !serve_next(alloc, answerer, socket)? {
            return Ok(());
        }
    }
    Ok(())
}

// Reads a message, and answers it. Tells whether the connection goes on.
fn serve_next<A: Answerer, S: Read + Write + Drop>(
    alloc: Global,
    answerer: &mut A,
    socket: &mut WebSocket<S, NoMask>,
) -> Result<bool, Error>
    ensures turns { IfOk result (λ on. Turns A.gives S.remaining S.contents on answerer.old socket.old answerer.new socket.new) }
    ensures stops { IfErr result (λ e. StopsTurn A.gives S.remaining S.contents e answerer.old socket.old answerer.new socket.new) }
{
    let frame = socket.read()?;
    handle(alloc, answerer, socket, &frame)
}

// Answers a frame that was read. Tells whether the connection goes on.
fn handle<A: Answerer, S: Read + Write + Drop>(
    alloc: Global,
    answerer: &mut A,
    socket: &mut WebSocket<S, NoMask>,
    frame: &Frame,
) -> Result<bool, Error>
    ensures handles { IfOk result (λ on. Handles A.gives S.remaining S.contents (content_of frame.now) on answerer.old socket.old answerer.new socket.new) }
    ensures stops { IfErr result (λ e. StopsHandling A.gives S.remaining S.contents (content_of frame.now) e answerer.old socket.old answerer.new socket.new) }
{
    match frame {
        Frame::Binary(bytes) => {
            answer_bytes(alloc, answerer, socket, bytes.as_slice())?;
            answerer.sent();
            Ok(true)
        }
        Frame::Text(_) => {
            refuse(alloc, socket, NoReason::NotRead)?;
            Ok(true)
        }
        Frame::Ping(_) => Ok(true),
        Frame::Pong(_) => Ok(true),
        Frame::Close(_) => {
            socket.flush()?;
            Ok(false)
        }
    }
}

// Sends what is answered to these bytes.
fn answer_bytes<A: Answerer, S: Read + Write + Drop>(
    alloc: Global,
    answerer: &mut A,
    socket: &mut WebSocket<S, NoMask>,
    bytes: &[u8],
) -> Result<(), Error>
    ensures sends { OnOk result ((answer : List messages.Message) × Replies A.gives answerer.old bytes.now answer answerer.new × SendsAnswer S.contents socket.old answer socket.new) }
    ensures stops { IfErr result (λ e. (answer : List messages.Message) × Replies A.gives answerer.old bytes.now answer answerer.new × StopsAnswer S.contents socket.old answer e socket.new) }
{
    match answered(alloc, answerer, bytes) {
        Ok(texts) => send_each(alloc, socket, texts),
        Err(reason) => refuse(alloc, socket, reason),
    }
}

// Sends a No for this reason.
fn refuse<S: Read + Write + Drop>(
    alloc: Global,
    socket: &mut WebSocket<S, NoMask>,
    reason: NoReason,
) -> Result<(), Error>
    ensures sends { OnOk result (SendsAnswer S.contents socket.old (refusal_alone reason) socket.new) }
    ensures stops { IfErr result (λ e. StopsAnswer S.contents socket.old (refusal_alone reason) e socket.new) }
{
    write_text(alloc, socket, no_text(reason))?;
    socket.flush()
}

// Sends each of these texts as a binary message, all of them with one flush, before which the texts are let go.
fn send_each<S: Read + Write + Drop>(
    alloc: Global,
    socket: &mut WebSocket<S, NoMask>,
    texts: Vec<Vec<u8>>,
) -> Result<(), Error>
    ensures sends { OnOk result (SendsEachText S.contents socket.old (map (λ text. text.items) texts.items) socket.new) }
    ensures stops { IfErr result (λ e. StopsSending S.contents socket.old (map (λ text. text.items) texts.items) e socket.new) }
{
    write_each(alloc, socket, &texts)?;
    drop(texts);
    socket.flush()
}

// Puts each of these texts into the socket's output, as a binary message.
fn write_each<S: Read + Write + Drop>(
    alloc: Global,
    socket: &mut WebSocket<S, NoMask>,
    texts: &[Vec<u8>],
) -> Result<(), Error>
    ensures writes { OnOk result (WritesEach S.contents socket.old (map (λ text. text.items) texts.now) socket.new) }
    ensures stops { IfErr result (λ e. StopsWriting S.contents socket.old (map (λ text. text.items) texts.now) e socket.new) }
{
    for text in texts {
        write_text(alloc, socket, text)?;
    }
    Ok(())
}

// Puts a text into the socket's output, as a binary message.
fn write_text<S: Read + Write + Drop>(
    alloc: Global,
    socket: &mut WebSocket<S, NoMask>,
    text: &[u8],
) -> Result<(), Error>
    ensures writes { OnOk result (Writes S.contents socket.old socket.new (write_step socket.old.conn (binary text.now))) }
    ensures refuses { IfErr result (λ e. RefusesText S.contents socket.old text.now e socket.new) }
{
    let frame = Frame::binary(alloc, text)?;
    socket.write(frame)
}
