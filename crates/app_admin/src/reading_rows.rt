// The rows of an input.
ghost use Rattle.std.specs.Prelude.{◌≡◌, ◌++◌, ◌∷◌, [], IfErr, IfOk, MatchOption, None, OnOk, Some};
ghost use Rattle.canvas_journal.specs.Found.{AreRowTexts};
ghost use Rattle.canvas_journal.specs.Meaning.{Row};
ghost use Rattle.canvas_lines.specs.Lines.{lines_of};
ghost use Rattle.canvas_wire.specs.Text.{IsRowError, SpellsRow};
ghost use Rattle.app_admin.specs.Imports.{ends_in_comma, is_bracket_or_none, is_frame, row_part, row_texts, without_comma};
ghost use Rattle.app_admin.specs.RowFaults.{IsLineFault, IsReadFault, IsTextFault, last_id};

use crate::row_ids::{id_fault, tree_fault};
use app_faults::{Fault, RowFault};
use canvas_doc::{ObjId, Object};
use canvas_lines::lines::split_line;
use canvas_wire::{WireError, decode_row};
use serde_json::Value as Json;
use std::alloc::{AllocError, Global};

/// Rows, and the lines that they were read from.
#[derive(Drop)]
pub struct Rows {
    /// The rows.
    pub rows: Vec<(ObjId, Object)>,
    /// The line of each, counted from 1.
    pub lines: Vec<u64>,
}

/// The rows that the lines of an input are. Empty lines are passed over, and those that are `[` or `]` alone; a comma at the end of a line
/// is taken off. So what `rows_text` writes is read in either layout, and so is a JSON text a line.
///
/// The errors: `BadLine`, for the first line that is no row, or can't come there by its id, and why (up to `TooDeepValue`); `Memory`.
pub fn read_rows(alloc: Global, input: &[u8]) -> Result<Rows, Fault>
    ensures rows { IfOk result (λ read. AreRowTexts (row_texts (lines_of input.now)) read.rows.items) }
    ensures faults { IfErr result (IsReadFault input.now) }
{
    let mut read = Rows {
        rows: Vec::new(alloc),
        lines: Vec::new(alloc),
    };
    let mut number = 0u64;
    let mut rest = input;
    while let Some((line, more)) = split_line(rest) {
        number = number.saturating_add(1);
        rest = more;
        if let Some(text) = row_part(line) {
            add_row(alloc, &mut read, number, text)?;
        }
    }
    Ok(read)
}

// The part of a line that has to be a row, unless the line is passed over.
fn row_part(line: &[u8]) -> Option<&[u8]>
    ensures { MatchOption result (row_part line.now ≡ None) (λ text. row_part line.now ≡ Some text.now) }
{
    if is_frame(line) {
        None
    } else {
        Some(without_comma(line))
    }
}

// Checks whether the line is empty, or a bracket alone.
fn is_frame(line: &[u8]) -> bool
    ensures { result ≡ is_frame line.now }
{
    line.len() < 2 && is_bracket_or_none(line.first().copied())
}

// Checks whether the byte is a bracket, or there is none.
fn is_bracket_or_none(byte: Option<u8>) -> bool
    ensures { result ≡ is_bracket_or_none byte }
{
    match byte {
        Some(byte) => byte == b'[' || byte == b']',
        None => true,
    }
}

// The line without a comma at its end.
fn without_comma(line: &[u8]) -> &[u8]
    ensures { result.now ≡ without_comma line.now }
{
    if ends_in_comma(line) {
        &line[..line.len().saturating_sub(1)]
    } else {
        line
    }
}

// Checks whether a comma ends the line.
fn ends_in_comma(line: &[u8]) -> bool
    ensures { result ≡ ends_in_comma line.now }
{
    match line.last() {
        Some(byte) => *byte == b',',
        None => false,
    }
}

// Adds the row that a line's text is.
fn add_row(alloc: Global, read: &mut Rows, line: u64, text: &[u8]) -> Result<(), Fault>
    ensures ok { OnOk result ((row : Row) × SpellsRow text.now row × (read.new.rows.items ≡ read.old.rows.items ++ row ∷ [])) }
    ensures fault { IfErr result (IsLineFault line (last_id read.old.rows.items) text.now) }
{
    let row = row_of(alloc, line, last_id(&read.rows), text)?;
    read.rows.push(row)?;
    read.lines.push(line)?;
    Ok(())
}

// The id of the last of these rows.
fn last_id(rows: &[(ObjId, Object)]) -> Option<ObjId>
    ensures { result ≡ last_id rows.now }
{
    match rows.last() {
        Some(row) => Some(row.0),
        None => None,
    }
}

// The row that the text of the line of this number is, which comes after one with that id.
fn row_of(
    alloc: Global,
    line: u64,
    last: Option<ObjId>,
    text: &[u8],
) -> Result<(ObjId, Object), Fault>
    ensures ok { IfOk result (SpellsRow text.now) }
    ensures fault { IfErr result (IsLineFault line last text.now) }
{
    match decode_row(alloc, alloc, text) {
        Ok(row) => match id_fault(last, row.0) {
            Some(fault) => Err(Fault::BadLine { line, fault }),
            None => Ok(row),
        },
        Err(error) => match text_fault(alloc, last, text, error) {
            Ok(fault) => Err(Fault::BadLine { line, fault }),
            Err(error) => Err(Fault::from(error)),
        },
    }
}

// Why a text that isn't read as a row, for this error, is none after one with that id.
fn text_fault(
    alloc: Global,
    last: Option<ObjId>,
    text: &[u8],
    error: WireError,
) -> Result<RowFault, AllocError>
    requires { IsRowError text.now error }
    ensures { IfOk result (IsTextFault last text.now) }
{
    let json = match Json::from_slice(alloc, text) {
        Ok(json) => json,
        Err(error) => return if error.is_memory() {
            Err(AllocError)
        } else {
            Ok(RowFault::NotARow)
        },
    };
    if let Some(fault) = tree_fault(last, &json) {
        return Ok(fault);
    }
    match error {
        WireError::NotJson => Ok(RowFault::NotARow),
        WireError::NotAMessage => Ok(RowFault::Parts),
        WireError::OutOfRange => Ok(RowFault::Range),
        WireError::TooDeep => Ok(RowFault::TooDeepValue),
        WireError::Memory => Err(AllocError),
    }
}
