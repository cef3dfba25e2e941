// What the lines of a script say, with nodes by their names.
ghost use Rattle.std.specs.Prelude.{◌≡◌, IfErr, IfNone, IfOk, IfSome};
ghost use Rattle.canvas_lines.specs.Errors.{IsLineError};
ghost use Rattle.canvas_script.specs.Lines.{SpellsFirstWord, SpellsLine, SpellsLong, SpellsAfterWord, SpellsWhole, seen_said};

use crate::words::{read_count, read_node};
use canvas_client::EditRequest;
use canvas_edit_lines::read_edit;
use canvas_lines::LineError;
use canvas_lines::words::cut_word;
use std::alloc::Global;

// A line that names nothing.
#[derive(Clone, Copy)]
pub(crate) enum Whole {
    Sync,
    Publish,
    Checkpoint,
    ShowServer,
}

// The first word of a line that wants a number.
#[derive(Clone, Copy)]
pub(crate) enum Counted {
    Take,
    Welcome,
    Deliver,
    Restart,
}

// The first word of a line that wants a node's name.
#[derive(Clone, Copy)]
pub(crate) enum Named {
    Join,
    Copy,
    Show,
}

// The first word of a line that has more.
#[derive(Clone, Copy)]
pub(crate) enum Head {
    Counted(Counted),
    Named(Named),
    Edit,
    Send,
    Tell,
}

// What a line says, with nodes by their names.
#[derive(Drop)]
pub(crate) enum Said<'a> {
    Whole(Whole),
    Counted(Counted, u64),
    Named(Named, &'a [u8]),
    // The node of this name makes an edit.
    Edit(&'a [u8], EditRequest),
    // The node of this name sends the i-th of its waiting edits.
    Send(&'a [u8], u64),
    // Entry v is told to the node of this name.
    Tell(u64, &'a [u8]),
}

// What the line says.
pub(crate) fn read_said(alloc: Global, line: &[u8]) -> Result<Said<'_>, LineError>
    ensures ok { IfOk result (λ said. SpellsLine line.now (seen_said said)) }
    ensures err { IfErr result (IsLineError (SpellsLine line.now)) }
{
    if let Some(whole) = whole_line(line) {
        return Ok(Said::Whole(whole));
    }
    read_long(alloc, line)
}

// The line that names nothing and is spelled so.
fn whole_line(line: &[u8]) -> Option<Whole>
    ensures some { IfSome result (SpellsWhole line.now) }
    ensures none { IfNone result ((whole : Whole) → SpellsWhole line.now whole → ⊥) }
{
    match line {
        b"sync" => Some(Whole::Sync),
        b"publish" => Some(Whole::Publish),
        b"checkpoint" => Some(Whole::Checkpoint),
        b"show server" => Some(Whole::ShowServer),
        _ => None,
    }
}

// What a line of several words says.
fn read_long(alloc: Global, line: &[u8]) -> Result<Said<'_>, LineError>
    ensures ok { IfOk result (λ said. SpellsLong line.now (seen_said said)) }
    ensures err { IfErr result (IsLineError (SpellsLong line.now)) }
{
    let (head, rest) = cut_word(line)?;
    let head = read_head(head)?;
    read_rest(alloc, head, rest)
}

// The first word that is spelled so.
fn read_head(word: &[u8]) -> Result<Head, LineError>
    ensures ok { IfOk result (SpellsFirstWord word.now) }
    ensures err { IfErr result (IsLineError (SpellsFirstWord word.now)) }
{
    match word {
        b"take" => Ok(Head::Counted(Counted::Take)),
        b"welcome" => Ok(Head::Counted(Counted::Welcome)),
        b"deliver" => Ok(Head::Counted(Counted::Deliver)),
        b"restart" => Ok(Head::Counted(Counted::Restart)),
        b"join" => Ok(Head::Named(Named::Join)),
        b"copy" => Ok(Head::Named(Named::Copy)),
        b"show" => Ok(Head::Named(Named::Show)),
        b"edit" => Ok(Head::Edit),
        b"send" => Ok(Head::Send),
        b"tell" => Ok(Head::Tell),
        _ => Err(LineError::Unreadable),
    }
}

// What follows the first word.
fn read_rest(alloc: Global, head: Head, rest: &[u8]) -> Result<Said<'_>, LineError>
    ensures ok { IfOk result (λ said. SpellsAfterWord head rest.now (seen_said said)) }
    ensures err { IfErr result (IsLineError (SpellsAfterWord head rest.now)) }
{
    match head {
        Head::Counted(word) => read_counted(word, rest),
        Head::Named(word) => read_named(word, rest),
        Head::Edit => read_edit_of(alloc, rest),
        Head::Send => read_send(rest),
        Head::Tell => read_tell(rest),
    }
}

// A number.
fn read_counted(word: Counted, rest: &[u8]) -> Result<Said<'_>, LineError>
    ensures ok { IfOk result (λ said. SpellsAfterWord (Head.Counted word) rest.now (seen_said said)) }
    ensures err { IfErr result (IsLineError (SpellsAfterWord (Head.Counted word) rest.now)) }
{
    let count = read_count(rest)?;
    Ok(Said::Counted(word, count))
}

// A node's name.
fn read_named(word: Named, rest: &[u8]) -> Result<Said<'_>, LineError>
    ensures ok { IfOk result (λ said. SpellsAfterWord (Head.Named word) rest.now (seen_said said)) }
    ensures err { IfErr result (IsLineError (SpellsAfterWord (Head.Named word) rest.now)) }
{
    let name = read_node(rest)?;
    Ok(Said::Named(word, name))
}

// A node's name and an edit.
fn read_edit_of(alloc: Global, rest: &[u8]) -> Result<Said<'_>, LineError>
    ensures ok { IfOk result (λ said. SpellsAfterWord Head.Edit rest.now (seen_said said)) }
    ensures err { IfErr result (IsLineError (SpellsAfterWord Head.Edit rest.now)) }
{
    let (name, edit) = cut_word(rest)?;
    let name = read_node(name)?;
    let request = read_edit(alloc, edit)?;
    Ok(Said::Edit(name, request))
}

// A node's name, and which of its edits.
fn read_send(rest: &[u8]) -> Result<Said<'_>, LineError>
    ensures ok { IfOk result (λ said. SpellsAfterWord Head.Send rest.now (seen_said said)) }
    ensures err { IfErr result (IsLineError (SpellsAfterWord Head.Send rest.now)) }
{
    let (name, place) = cut_word(rest)?;
    let name = read_node(name)?;
    let place = read_count(place)?;
    Ok(Said::Send(name, place))
}

// The number of an entry, and a node's name.
fn read_tell(rest: &[u8]) -> Result<Said<'_>, LineError>
    ensures ok { IfOk result (λ said. SpellsAfterWord Head.Tell rest.now (seen_said said)) }
    ensures err { IfErr result (IsLineError (SpellsAfterWord Head.Tell rest.now)) }
{
    let (version, name) = cut_word(rest)?;
    let version = read_count(version)?;
    let name = read_node(name)?;
    Ok(Said::Tell(version, name))
}
