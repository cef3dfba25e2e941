// A step of a connection.
ghost use Rattle.std.specs.Prelude.{◌≡◌, ◌↔◌, IfErr, IfOk, IsTrue, OnOk, false};
ghost use Rattle.canvas_sockets.specs.declared.turning.TurnEnd.TheVariants as turn;
ghost use Rattle.canvas_turns.specs.Lines.{end_of};
ghost use Rattle.canvas_turns.specs.Served.{IsAfterTurn, IsRest, IsStep};
ghost use Rattle.canvas_turns.specs.Told.{MayTell, MayWhisper, Pings, StopsTelling, StopsWhispering};

use crate::sides::Inlet;
use crate::{Handler, LineEnd, Waits, Woken};
use bytes::Bytes;
use canvas_sockets::{Line, TurnEnd, take_turn, write_some};
use net_idle::MUCH;
use net_outbox::{Backlog, MUCH_WAITS, Outbox};
use std::alloc::Global;
use std::io::{Read, Write};
use tungstenite::{CloseCode, CloseFrame, Error, Message as Frame, Utf8Bytes};

// How many messages are read before what was written leaves.
const MOST_READ: u32 = 64;

// What a connection does next.
#[derive(Clone, Copy, Debug, PartialEq, Eq)]
pub(crate) enum Next {
    // It takes a turn.
    Goes,
    // It takes a turn by new sockets.
    Renews,
    // It pings the peer, and takes a turn.
    Pings,
    // It rests.
    Rests,
    // It takes no turn any more, and ends so once all has left.
    Leaves(LineEnd),
    // It has ended so.
    Ends(LineEnd),
}

/// Takes a turn, lets leave what the peer takes now, and tells what is published. Says what the connection does next.
pub(crate) fn take_step<H: Handler, I: Read + Drop, O: Read + Write + Drop, W: Waits>(
    alloc: Global,
    handler: &mut H,
    line: &mut Line<Inlet<I>, Outbox<O>>,
    since: u64,
    waits: &mut W,
) -> Next
    ensures { IsStep H.replies H.tells H.goes_to H.whispers I.remaining O.contents result handler.old line.old handler.new line.new }
{
    let end = match take_turn(alloc, handler, line, MOST_READ, MUCH_WAITS) {
        Ok(end) => end,
        Err(error) => return Next::Leaves(failed(line, &error)),
    };
    let has_said = line.writer.get_ref().waiting() > 0;
    if let Err(error) = line.writer.flush() {
        return Next::Ends(end_of(&error));
    }
    if has_closed(end) {
        return Next::Leaves(LineEnd::Left);
    }
    match tell(alloc, handler, line, waits, has_said) {
        Ok(true) => return Next::Goes,
        Ok(false) => {}
        Err(error) => return Next::Ends(end_of(&error)),
    }
    match whisper(alloc, handler, line) {
        Ok(true) => Next::Goes,
        Ok(false) => after_turn(line, waits, end, since),
        Err(error) => Next::Ends(end_of(&error)),
    }
}

// Checks whether a closing frame has ended a turn.
fn has_closed(end: TurnEnd) -> bool
    ensures { IsTrue result ↔ end ≡ turn.Closed }
{
    matches!(end, TurnEnd::Closed)
}

// Tells a client that wants to be told unasked what is published, if nothing waits to leave and it is time. Returns whether it told something.
fn tell<H: Handler, I: Drop, O: Read + Write + Drop, W: Waits>(
    alloc: Global,
    handler: &mut H,
    line: &mut Line<Inlet<I>, Outbox<O>>,
    waits: &mut W,
    has_said: bool,
) -> Result<bool, Error>
    ensures tells { IfOk result (λ has. MayTell H.tells H.goes_to O.contents has handler.old line.old handler.new line.new) }
    ensures stops { IfErr result (λ e. StopsTelling H.tells H.goes_to O.contents e handler.old line.old handler.new line.new) }
{
    if line.writer.get_ref().waiting() > 0 {
        return Ok(false);
    }
    handler.rest();
    let Some(version) = handler.place() else {
        return Ok(false);
    };
    if !waits.listens(version, has_said) {
        return Ok(false);
    }
    let push = handler.push(alloc)?;
    let count = write_some(&mut line.writer, &push.texts, MUCH_WAITS)?;
    if count > 0 || push.is_held {
        waits.told(count);
    }
    if count == 0 {
        return Ok(false);
    }
    handler.go_to(push.versions[count - 1]);
    line.writer.flush()?;
    Ok(true)
}

// Whispers what is whispered now, if nothing waits to leave. Returns whether it whispered something.
fn whisper<H: Handler, I: Drop, O: Read + Write + Drop>(
    alloc: Global,
    handler: &mut H,
    line: &mut Line<Inlet<I>, Outbox<O>>,
) -> Result<bool, Error>
    ensures whispers { IfOk result (λ has. MayWhisper H.whispers O.contents line.old line.new) }
    ensures nothing { IfOk result (λ has. has ≡ false → line.new ≡ line.old) }
    ensures stops { IfErr result (λ e. StopsWhispering H.whispers O.contents e line.old line.new) }
    ensures stays { handler.new ≡ handler.old }
{
    if line.writer.get_ref().waiting() > 0 {
        return Ok(false);
    }
    let texts = handler.whisper(alloc)?;
    if texts.is_empty() {
        return Ok(false);
    }
    write_some(&mut line.writer, &texts, MUCH_WAITS)?;
    line.writer.flush()?;
    Ok(true)
}

// What is done after a turn that ended so, behind which nothing was told: it rests, if there is nothing to do now.
fn after_turn<I: Drop, O: Drop, W: Waits>(
    line: &Line<Inlet<I>, Outbox<O>>,
    waits: &mut W,
    end: TurnEnd,
    since: u64,
) -> Next
    ensures { IsAfterTurn result }
{
    match end {
        TurnEnd::Most | TurnEnd::Closed => Next::Goes,
        TurnEnd::Full if line.writer.get_ref().waiting() < MUCH_WAITS => Next::Goes,
        TurnEnd::Dry if is_renewed(line, since) => Next::Renews,
        TurnEnd::Full | TurnEnd::Dry => rest(line, waits),
    }
}

/// Pings the peer.
pub(crate) fn ping<I: Drop, O: Read + Write + Drop>(
    alloc: Global,
    line: &mut Line<Inlet<I>, Outbox<O>>,
) -> Result<(), Error>
    ensures pings { OnOk result (Pings O.contents line.old line.new) }
{
    let nothing = Bytes::copy_from_slice(alloc, b"")?;
    line.writer.write(Frame::Ping(nothing))
}

// Checks whether new sockets are to go on: the reader's stream has paused, or all has left, and much since so many bytes had.
fn is_renewed<I: Drop, O: Drop>(line: &Line<Inlet<I>, Outbox<O>>, since: u64) -> bool {
    let outbox = line.writer.get_ref();
    let left = outbox.taken().saturating_sub(since);
    line.reader.get_ref().reader.has_paused() || (outbox.waiting() == 0 && left >= MUCH as u64)
}

/// What a connection does that has nothing to do now.
pub(crate) fn rest<I: Drop, O: Drop, W: Waits>(
    line: &Line<Inlet<I>, Outbox<O>>,
    waits: &mut W,
) -> Next
    ensures { IsRest result }
{
    let outbox = line.writer.get_ref();
    match waits.wait(outbox.taken(), outbox.waiting()) {
        Woken::Goes => Next::Goes,
        Woken::Pings => Next::Pings,
        Woken::Rests => Next::Rests,
        Woken::Silent => Next::Ends(LineEnd::Silent),
        Woken::Slow => Next::Ends(LineEnd::Slow),
    }
}

// How a connection ends that failed. A client whose message is too large is told.
fn failed<I: Drop, O: Read + Write + Drop>(
    line: &mut Line<Inlet<I>, Outbox<O>>,
    error: &Error,
) -> LineEnd
    ensures { result ≡ end_of error.now }
{
    if let Error::Capacity(_) = error {
        let _ = line.writer.write(Frame::Close(Some(too_big())));
    }
    end_of(error)
}

/// How a connection ended by this error.
pub(crate) fn end_of(error: &Error) -> LineEnd
    ensures { result ≡ end_of error.now }
{
    match error {
        Error::Capacity(_) => LineEnd::TooLarge,
        Error::Io(_) => LineEnd::Failed,
        Error::OutOfMemory => LineEnd::Memory,
        _ => LineEnd::Broken,
    }
}

// What a client is told whose message is too large (RFC 6455, section 7.4.1).
fn too_big() -> CloseFrame {
    CloseFrame {
        code: CloseCode::Size,
        reason: Utf8Bytes::from_static("the message is too large"),
    }
}
