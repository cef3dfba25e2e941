// What a line is answered.
use crate::kinds::{Kind, kind_of, said_of};
use bumpalo::Bump;
use canvas_model::words::cut;
use refusing::Refusing;
use std::alloc::{AllocError, Global};

// No text takes so many growths.
const MOST: u64 = 1000;

// How many growths are refused in reading a text, where each is told and changes nothing else.
fn growths(
    alloc: Global,
    kind: Kind,
    text: &[u8],
    wanted: &[u8],
) -> Result<Option<u64>, AllocError> {
    for number in 1..MOST {
        let heap = Refusing::new(alloc, number);
        match said_of(alloc, &heap, kind, text) {
            Ok(said) => {
                let is_whole = heap.left() > 0 && said.as_slice() == wanted;
                return Ok(is_whole.then_some(number - 1));
            }
            Err(error) if heap.left() > 0 => return Err(error),
            Err(_) => {}
        }
    }
    Ok(None)
}

// Checks whether the same is said of a text that is read into an arena.
fn is_same_in_arena(
    alloc: Global,
    kind: Kind,
    text: &[u8],
    wanted: &[u8],
) -> Result<bool, AllocError> {
    let arena = Bump::new(alloc);
    let said = said_of(alloc, &arena, kind, text)?;
    Ok(said.as_slice() == wanted)
}

// Adds a remark where another answer is given in an arena.
fn add_arena(
    alloc: Global,
    kind: Kind,
    text: &[u8],
    said: &[u8],
    out: &mut Vec<u8>,
) -> Result<(), AllocError> {
    if is_same_in_arena(alloc, kind, text, said)? {
        Ok(())
    } else {
        out.extend_from_slice(b" (another answer in an arena)")
    }
}

// Adds how many growths are refused in turn, or a remark where one changes more than it may.
fn add_growths(
    alloc: Global,
    kind: Kind,
    text: &[u8],
    said: &[u8],
    out: &mut Vec<u8>,
) -> Result<(), AllocError> {
    match growths(alloc, kind, text, said)? {
        Some(0) => Ok(()),
        Some(1) => out.extend_from_slice(b" (1 growth)"),
        Some(count) => out.extend_from_slice(format!(in alloc; " ({count} growths)")?.as_bytes()),
        None => out.extend_from_slice(b" (another answer where a growth is refused)"),
    }
}

// Adds what is said of a text.
fn answer_text(
    alloc: Global,
    kind: Kind,
    text: &[u8],
    out: &mut Vec<u8>,
) -> Result<(), AllocError> {
    let said = said_of(alloc, alloc, kind, text)?;
    out.extend_from_slice(&said)?;
    add_arena(alloc, kind, text, &said, out)?;
    add_growths(alloc, kind, text, &said, out)?;
    out.push(b'\n')?;
    Ok(())
}

/// Adds what a line is answered.
pub fn answer_line(alloc: Global, line: &[u8], out: &mut Vec<u8>) -> Result<(), AllocError> {
    let (word, text) = cut(line, b' ').unwrap_or((line, &[]));
    match kind_of(word) {
        Some(kind) => answer_text(alloc, kind, text, out),
        None => out.extend_from_slice(b"cannot read\n"),
    }
}
