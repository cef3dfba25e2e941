// Requests, and how they are read from lines.
ghost use Rattle.std.specs.Prelude.{◌≡◌, ◌-◌, map, take, IfErr, IfNone, IfOk, IfSome, OnOk};
ghost use Rattle.canvas_lines.specs.Errors.{IsLineError, IsUnspelled};
ghost use Rattle.canvas_lines.specs.Lines.{lines_of};
ghost use Rattle.canvas_lines.specs.Reading.{IsRead, IsUnread};
ghost use Rattle.canvas_lines.specs.Seen.{seen_log_request};
ghost use Rattle.canvas_lines.specs.Spelling.{InputSpells, IsBadLine, LinesSpell, SpellsNumber, SpellsRequest};

use crate::changes::read_change;
use crate::error::LineError;
use crate::lines::{is_passed, split_line};
use crate::words::cut_word;
use canvas_doc::Change;
use canvas_model::words::read_number;
use std::alloc::{AllocError, Global};

/// What a line asks for.
#[derive(Drop)]
pub enum LogRequest {
    /// An id for a new client.
    Join,
    /// A change by a client.
    Edit {
        /// The client's id.
        author: u32,
        /// The change.
        change: Change,
    },
}

/// The request that the line spells: `join`, or an author's id, a blank and a change.
pub fn read_request(alloc: Global, line: &[u8]) -> Result<LogRequest, LineError>
    ensures ok { IfOk result (λ request. SpellsRequest line.now (seen_log_request request)) }
    ensures err { IfErr result (IsLineError (SpellsRequest line.now)) }
{
    if line == b"join".as_slice() {
        return Ok(LogRequest::Join);
    }
    let (author, text) = cut_word(line)?;
    let author = read_author(author)?;
    let change = read_change(alloc, text)?;
    Ok(LogRequest::Edit { author, change })
}

// The client's id that is spelled so.
fn read_author(word: &[u8]) -> Result<u32, LineError>
    ensures ok { IfOk result (SpellsNumber word.now) }
    ensures err { IfErr result (IsUnspelled (SpellsNumber word.now)) }
{
    match read_number(word) {
        Some(author) => Ok(author),
        None => Err(LineError::Unreadable),
    }
}

/// What an input asks for.
#[derive(Drop)]
pub struct Reading {
    /// The requests, up to the bad line if there is one.
    pub requests: Vec<LogRequest>,
    /// The first line that can't be read, counted from 1.
    pub bad_line: Option<u64>,
}

/// Reads an input: its requests, or those of the lines before the first that can't be read. Fails
/// only if memory runs out.
pub fn read_requests(alloc: Global, input: &[u8]) -> Result<Reading, AllocError>
    ensures whole { IfOk result (λ r. IfNone r.bad_line
        (InputSpells input.now (map seen_log_request r.requests.items))) }
    ensures bad { IfOk result (λ r. IfSome r.bad_line (IsBadLine input.now)) }
    ensures before { IfOk result (λ r. IfSome r.bad_line
        (λ n. LinesSpell (take (n - 1) (lines_of input.now)) (map seen_log_request r.requests.items))) }
{
    let mut requests = Vec::new(alloc);
    let mut started = false;
    let mut line_number = 0u64;
    let mut rest = input;
    while let Some((line, more)) = split_line(rest) {
        line_number += 1;
        rest = more;
        if is_passed(line) {
            continue;
        }
        match read_line(alloc, line, started, &mut requests) {
            Ok(()) => started = true,
            Err(LineError::Unreadable) => {
                return Ok(Reading {
                    requests,
                    bad_line: Some(line_number),
                });
            }
            Err(LineError::Memory) => return Err(AllocError),
        }
    }
    Ok(Reading {
        requests,
        bad_line: None,
    })
}

// Reads a line that isn't passed over: the first is the word `log`, and each later one adds a request.
fn read_line(
    alloc: Global,
    line: &[u8],
    started: bool,
    requests: &mut Vec<LogRequest>,
) -> Result<(), LineError>
    ensures ok { OnOk result
        (IsRead started line.now (map seen_log_request requests.old.items) (map seen_log_request requests.new.items)) }
    ensures err { IfErr result (λ e. e ≡ LineError.Unreadable
        → IsUnread started line.now × (requests.new.items ≡ requests.old.items)) }
{
    if started {
        requests.push(read_request(alloc, line)?)?;
        return Ok(());
    }
    if line == b"log".as_slice() {
        Ok(())
    } else {
        Err(LineError::Unreadable)
    }
}
