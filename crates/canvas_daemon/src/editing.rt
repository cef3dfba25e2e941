// What `canvasd edit` does: a client that plays the lines of its input.
ghost use Rattle.std.specs.Prelude.{◌≡◌, ◌↔◌, ◌-◌, [], ◌∷◌, IfErr, IfOk, IsTrue, MatchOption, OnOk, length, slice_get, string_bytes};
ghost use Rattle.canvas_daemon.specs.Answered.{AnswersEdit, AnswersLine, IsUnreadable, MakesEdit, SpellsNoEdit, edit_answer_line};
ghost use Rattle.canvas_daemon.specs.Edited.{HasEnded, EndsByFault, IsLeftBy, IsLineCutBy, IsEditedToEnd, PlaysAll, TakesLines};
ghost use Rattle.canvas_daemon.specs.Faults.{IsMemoryOrDevice};

use crate::fault::DaemonFault;
use crate::node::LinkedClient;
use canvas_client::{EditError, EditRequest};
use canvas_edit_lines::{edit_line, read_edit, refused_line};
use canvas_lines::lines::is_passed;
use canvas_lines::{LineError, write_out};
use std::alloc::{AllocError, Global};
use std::io::{BufRead, ErrorKind, Write};
use std::net::{Ipv4Addr, Net, SocketAddr, TcpStream};
use std::random::RandomSource;

/// Joins the server at a port of the own machine, and plays the lines of the input: an edit is made in the client's document,
/// `exchange` sends what waits and asks for what is new, and `show` writes the client's block. Each answer is written before the next
/// line is read. At the end of the input it exchanges, and writes its version and its block.
///
/// An edit is answered `edit N`, or `refused NAME` where the client refuses it, and `exchange` by `version B waiting W`. Empty lines
/// and those that begin with `#` are passed over.
///
/// The errors: `BadLine`, for the first line that can't be read, and then the answers to the lines before it were written, and no more;
/// `Device`, where the socket, the input or the output failed, or the server answered a No; `Memory`, if memory runs out, and
/// then the answers to some of the first lines were written, with the version at most behind those to all.
pub fn edit<R, I, W>(rt: &R, port: u16, input: &mut I, output: &mut W) -> Result<(), DaemonFault>
where
    R: Net<Stream = TcpStream> + RandomSource + AllocGlobal + Clone + Drop,
    I: BufRead,
    W: Write,
    ensures played { OnOk result (IsEditedToEnd
        (I.remaining input.old) (I.remaining input.new)
        (W.contents output.old) (W.contents output.new)) }
    ensures left { IfErr result (IsLeftBy
        (I.remaining input.old) (I.remaining input.new)
        (W.contents output.old) (W.contents output.new)) }
{
    let alloc = rt.alloc();
    let mut node = LinkedClient::joined(rt, connect(rt, port)?)?;
    play(alloc, &mut node, input, output)?;
    node.exchange_and_tell(alloc, output)?;
    node.show(alloc, output)
}

/// Connects to a port of the own machine.
pub(crate) fn connect<R: Net<Stream = TcpStream>>(
    rt: &R,
    port: u16,
) -> Result<TcpStream, DaemonFault>
    ensures { IfErr result (λ fault. fault ≡ DaemonFault.Device) }
{
    let address = SocketAddr::from((Ipv4Addr::LOCALHOST, port));
    TcpStream::connect(rt, address).map_err(|_| DaemonFault::Device)
}

// Plays the lines of the input, in order.
fn play<R, I, W>(
    alloc: Global,
    node: &mut LinkedClient<R>,
    input: &mut I,
    output: &mut W,
) -> Result<(), DaemonFault>
where
    R: RandomSource + AllocGlobal + Clone + Drop,
    I: BufRead,
    W: Write,
    ensures played { OnOk result (PlaysAll node.old.client
        (I.remaining input.old) (I.remaining input.new)
        (W.contents output.old) (W.contents output.new) node.new.client) }
    ensures cut { IfErr result (EndsByFault node.old.client
        (I.remaining input.old) (I.remaining input.new)
        (W.contents output.old) (W.contents output.new)) }
{
    for number in 1..u64::MAX {
        let Some(line) = next_line(alloc, input)? else {
            return Ok(());
        };
        play_line(alloc, node, number, &line, output)?;
    }
    Err(DaemonFault::Device)
}

// The next line of the input, without its line feed; `None` at its end.
fn next_line<I: BufRead>(alloc: Global, input: &mut I) -> Result<Option<Vec<u8>>, DaemonFault>
    ensures taken { IfOk result (λ next. MatchOption next
        (TakesLines (I.remaining input.old) (I.remaining input.new) []
        × HasEnded (I.remaining input.old) (I.remaining input.new))
        (λ line. TakesLines (I.remaining input.old) (I.remaining input.new) (line.items ∷ []))) }
    ensures faults { IfErr result IsMemoryOrDevice }
{
    let mut line = Vec::new(alloc);
    match input.read_until(b'\n', &mut line) {
        Ok(0) => return Ok(None),
        Ok(_) => {}
        Err(error) => {
            return Err(if error.kind() == ErrorKind::OutOfMemory {
                DaemonFault::Memory
            } else {
                DaemonFault::Device
            });
        }
    }
    if ends_with_feed(&line) {
        line.pop();
    }
    Ok(Some(line))
}

// Checks whether a line feed ends the text.
fn ends_with_feed(text: &[u8]) -> bool
    ensures { IsTrue result ↔ (slice_get text.now (length text.now - 1) ≡ Some 10) }
{
    match text.last() {
        Some(byte) => *byte == b'\n',
        None => false,
    }
}

// Does what a line asks for, and writes its answer.
fn play_line<R, W>(
    alloc: Global,
    node: &mut LinkedClient<R>,
    number: u64,
    line: &[u8],
    output: &mut W,
) -> Result<(), DaemonFault>
where
    R: RandomSource + AllocGlobal + Clone + Drop,
    W: Write,
    ensures answered { OnOk result (AnswersLine node.old.client line.now
        (W.contents output.old) (W.contents output.new) node.new.client) }
    ensures cut { IfErr result (IsLineCutBy number (IsUnreadable line.now)
        (W.contents output.old) (W.contents output.new)) }
{
    if is_passed(line) {
        return Ok(());
    }
    match line {
        b"exchange" => node.exchange_and_tell(alloc, output),
        b"show" => node.show(alloc, output),
        edit => play_edit(alloc, node, number, edit, output),
    }
}

// Makes the edit that a line spells, and writes its answer.
fn play_edit<R, W>(
    alloc: Global,
    node: &mut LinkedClient<R>,
    number: u64,
    line: &[u8],
    output: &mut W,
) -> Result<(), DaemonFault>
where
    R: RandomSource + AllocGlobal + Clone + Drop,
    W: Write,
    ensures answered { OnOk result (AnswersEdit node.old.client line.now
        (W.contents output.old) (W.contents output.new) node.new.client) }
    ensures cut { IfErr result (IsLineCutBy number (SpellsNoEdit line.now)
        (W.contents output.old) (W.contents output.new)) }
{
    let request = match read_edit(alloc, line) {
        Ok(request) => request,
        Err(LineError::Unreadable) => return Err(DaemonFault::BadLine(number)),
        Err(LineError::Memory) => return Err(DaemonFault::Memory),
    };
    let answer = made(node, &request)?;
    let line = answer_line(alloc, answer)?;
    write_out(output, line.as_bytes())?;
    Ok(())
}

// What became of an edit.
#[derive(Clone, Copy)]
pub(crate) enum EditAnswer {
    // It was made, and has this number.
    Made(u64),
    // The client refuses it.
    Refused(EditError),
}

// Makes an edit, and answers its number, or why the client refuses it. Errors: out of memory.
fn made<R>(node: &mut LinkedClient<R>, request: &EditRequest) -> Result<EditAnswer, AllocError>
where
    R: RandomSource + AllocGlobal + Clone + Drop,
    ensures { IfOk result (λ answer. MakesEdit node.old.client request.now answer node.new.client) }
{
    match node.edit(request) {
        Ok(edit) => Ok(EditAnswer::Made(edit)),
        Err(EditError::Memory) => Err(AllocError),
        Err(error) => Ok(EditAnswer::Refused(error)),
    }
}

// The line that answers an edit.
fn answer_line(alloc: Global, answer: EditAnswer) -> Result<String, AllocError>
    ensures { IfOk result (λ line. string_bytes line ≡ edit_answer_line answer) }
{
    match answer {
        EditAnswer::Made(edit) => edit_line(alloc, edit),
        EditAnswer::Refused(error) => refused_line(alloc, error),
    }
}
