// One turn of a connection on which no write waits.
ghost use Rattle.std.specs.Prelude.{◌≡◌, ◌<◌, ◌≤◌, ◌⊎◌, ◌↔◌, ◌++◌, List, IfErr, IfOk, IsTrue, OnOk, length, map, take};
ghost use Rattle.tungstenite.specs.Connection.{write_step};
ghost use Rattle.tungstenite.specs.Content.{binary};
ghost use Rattle.tungstenite.specs.Socket.{Writes, content_of};
ghost use Rattle.net_outbox.specs.Texts.{text_bytes};
ghost use Rattle.canvas_model.specs.Messages as messages;
ghost use Rattle.canvas_nodes.specs.Answers.{refusal_alone};
ghost use Rattle.canvas_sockets.specs.Served.{RefusesText, StopsWriting, WritesEach};
ghost use Rattle.canvas_sockets.specs.Turned.{HasNotCome, IsTurn, Puts, PutsAnswer, PutsFrame, RefusesFrame, StopsInTurn, StopsPutting, StopsPuttingAnswer, StopsTaking, Takes};

use crate::{Line, Replier};
use bytes::Bytes;
use canvas_judge::NoReason;
use canvas_nodes::no_text;
use net_frames::FrameWriter;
use net_outbox::{Backlog, SharedWrite, Text};
use std::alloc::Global;
use std::io::{ErrorKind, Read, Write};
use tungstenite::{Error, Message as Frame};

/// Why a turn has ended.
#[derive(Clone, Copy, Debug, PartialEq, Eq)]
pub enum TurnEnd {
    /// As many messages were read as were to be read at most.
    Most,
    /// Too many bytes wait to leave.
    Full,
    /// No more has come.
    Dry,
    /// A closing frame was read.
    Closed,
}

/// Takes one turn of a connection: reads messages that have come, at most this many, and puts the reply to each into the output before the next
/// is read. It reads none while this many bytes wait in the writer's stream, or more.
///
/// A message of text is answered by a No for NotRead, a ping by a pong, and a closing frame by a closing frame, behind which nothing is read.
/// Nothing is flushed: over a stream that takes all that is written, as an `Outbox` does, no peer is waited for. Once the reply to a binary
/// message is in the output, `sent` of the replier is called.
///
/// Where a read of the stream would wait, no more has come, and the next turn goes on there. Any other error is returned: every message
/// that was read before has its reply in the output, and that of the last one maybe a part of its reply.
pub fn take_turn<A: Replier, I: Read + Write + Drop, O: SharedWrite + Backlog + Drop>(
    alloc: Global,
    replier: &mut A,
    line: &mut Line<I, O>,
    most: u32,
    room: usize,
) -> Result<TurnEnd, Error>
    ensures turns { IfOk result (λ end. IsTurn A.replies I.remaining O.contents O.waits room most end replier.old line.old replier.new line.new) }
    ensures stops { IfErr result (λ e. StopsInTurn A.replies I.remaining O.contents O.waits room most e replier.old line.old replier.new line.new) }
{
    for _count in 0..most {
        if line.writer.get_ref().waiting() >= room {
            return Ok(TurnEnd::Full);
        }
        match take_next(alloc, replier, line)? {
            Taken::Message => {}
            Taken::Nothing => return Ok(TurnEnd::Dry),
            Taken::Close => return Ok(TurnEnd::Closed),
        }
    }
    Ok(TurnEnd::Most)
}

/// Puts texts into the output, as binary messages, until this many bytes wait in the stream, or more. Returns how many it has put, which is one
/// at least if fewer wait before: so what is told unasked is cut by its bytes. If that fails, those before one of them are in the output.
pub fn write_some<S: SharedWrite + Backlog + Drop>(
    socket: &mut FrameWriter<S>,
    texts: &[Text],
    room: usize,
) -> Result<usize, Error>
    ensures some { IfOk result (λ n. n ≤ length texts.now) }
    ensures writes { IfOk result (λ n. WritesEach S.contents socket.old (map text_bytes (take n texts.now)) socket.new) }
    ensures first { IfOk result (λ n. S.waits socket.old.stream < room → 0 < length texts.now → 0 < n) }
    ensures all { IfOk result (λ n. (n ≡ length texts.now) ⊎ (room ≤ S.waits socket.new.stream)) }
    ensures stops { IfErr result (λ e. StopsWriting S.contents socket.old (map text_bytes texts.now) e socket.new) }
{
    let mut count = 0;
    for text in texts {
        if room <= socket.get_ref().waiting() {
            return Ok(count);
        }
        put_text(socket, text)?;
        count += 1;
    }
    Ok(count)
}

// What was read.
#[derive(Clone, Copy, Debug, PartialEq, Eq)]
enum Taken {
    Nothing,
    Message,
    Close,
}

// Reads a message if one has come, and puts the reply to it into the output.
fn take_next<A: Replier, I: Read + Write + Drop, O: SharedWrite + Drop>(
    alloc: Global,
    replier: &mut A,
    line: &mut Line<I, O>,
) -> Result<Taken, Error>
    ensures takes { IfOk result (λ taken. Takes A.replies I.remaining O.contents taken replier.old line.old replier.new line.new) }
    ensures stops { IfErr result (λ e. StopsTaking A.replies I.remaining O.contents e replier.old line.old replier.new line.new) }
{
    let frame = match line.reader.read() {
        Ok(frame) => frame,
        Err(error) => {
            if has_not_come(&error) {
                return Ok(Taken::Nothing);
            }
            return Err(error);
        }
    };
    if put_reply(alloc, replier, &mut line.writer, frame)? {
        Ok(Taken::Message)
    } else {
        Ok(Taken::Close)
    }
}

// Checks whether a read failed since it would have waited.
fn has_not_come(error: &Error) -> bool
    ensures { IsTrue result ↔ HasNotCome error.now }
{
    match error {
        Error::Io(cause) => matches!(cause.kind(), ErrorKind::WouldBlock),
        _ => false,
    }
}

// Puts the reply to a frame that was read into the output. Tells whether the connection goes on.
fn put_reply<A: Replier, O: SharedWrite + Drop>(
    alloc: Global,
    replier: &mut A,
    writer: &mut FrameWriter<O>,
    frame: Frame,
) -> Result<bool, Error>
    ensures puts { IfOk result (λ on. Puts A.replies O.contents (content_of frame) on replier.old writer.old replier.new writer.new) }
    ensures stops { IfErr result (λ e. StopsPutting A.replies O.contents (content_of frame) e replier.old writer.old replier.new writer.new) }
{
    match frame {
        Frame::Binary(bytes) => {
            put_answer(alloc, replier, writer, bytes.as_slice())?;
            replier.sent();
            Ok(true)
        }
        Frame::Text(_) => {
            put_no(writer, NoReason::NotRead)?;
            Ok(true)
        }
        Frame::Ping(bytes) => {
            put_frame(writer, Frame::Pong(bytes))?;
            Ok(true)
        }
        Frame::Pong(_) => Ok(true),
        Frame::Close(code) => {
            put_frame(writer, Frame::Close(code))?;
            Ok(false)
        }
    }
}

// Puts the reply to these bytes into the output.
fn put_answer<A: Replier, O: SharedWrite + Drop>(
    alloc: Global,
    replier: &mut A,
    writer: &mut FrameWriter<O>,
    bytes: &[u8],
) -> Result<(), Error>
    ensures puts { OnOk result ((answer : List messages.Message) × A.replies replier.old bytes.now answer replier.new × PutsAnswer O.contents writer.old answer writer.new) }
    ensures stops { IfErr result (λ e. (answer : List messages.Message) × A.replies replier.old bytes.now answer replier.new × StopsPuttingAnswer O.contents writer.old answer e writer.new) }
{
    match replier.reply(alloc, bytes) {
        Ok(texts) => put_each(writer, &texts),
        Err(reason) => put_no(writer, reason),
    }
}

// Puts a No for this reason into the output.
fn put_no<S: SharedWrite + Drop>(socket: &mut FrameWriter<S>, reason: NoReason) -> Result<(), Error>
    ensures puts { OnOk result (PutsAnswer S.contents socket.old (refusal_alone reason) socket.new) }
    ensures stops { IfErr result (λ e. StopsPuttingAnswer S.contents socket.old (refusal_alone reason) e socket.new) }
{
    let nothing = Bytes::new();
    put_bytes(socket, no_text(reason), &nothing)
}

// Writes each of these texts into the output, as a binary message.
fn put_each<S: SharedWrite + Drop>(socket: &mut FrameWriter<S>, texts: &[Text]) -> Result<(), Error>
    ensures writes { OnOk result (WritesEach S.contents socket.old (map text_bytes texts.now) socket.new) }
    ensures stops { IfErr result (λ e. StopsWriting S.contents socket.old (map text_bytes texts.now) e socket.new) }
{
    for text in texts {
        put_text(socket, text)?;
    }
    Ok(())
}

// Writes a text into the output, as a binary message.
fn put_text<S: SharedWrite + Drop>(socket: &mut FrameWriter<S>, text: &Text) -> Result<(), Error>
    ensures writes { OnOk result (Writes S.contents socket.old socket.new (write_step socket.old.conn (binary (text_bytes text.now)))) }
    ensures refuses { IfErr result (λ e. RefusesText S.contents socket.old (text_bytes text.now) e socket.new) }
{
    put_bytes(socket, text.own(), text.shared())
}

// Writes these bytes and then the shared ones into the output, as one binary message.
fn put_bytes<S: SharedWrite + Drop>(
    socket: &mut FrameWriter<S>,
    own: &[u8],
    shared: &Bytes,
) -> Result<(), Error>
    ensures writes { OnOk result (Writes S.contents socket.old socket.new (write_step socket.old.conn (binary (own.now ++ shared.now)))) }
    ensures refuses { IfErr result (λ e. RefusesText S.contents socket.old (own.now ++ shared.now) e socket.new) }
{
    socket.write_text(own, shared)
}

// Writes a frame into the output.
fn put_frame<S: SharedWrite + Drop>(socket: &mut FrameWriter<S>, frame: Frame) -> Result<(), Error>
    ensures puts { OnOk result (PutsFrame S.contents socket.old (content_of frame) socket.new) }
    ensures refuses { IfErr result (λ e. RefusesFrame S.contents socket.old (content_of frame) e socket.new) }
{
    socket.write(frame)
}
