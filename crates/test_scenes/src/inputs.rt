// The inputs that questions stand for.
use std::alloc::{AllocError, Global};
use std::str;

// A line for each of some numbers, in which `*` is the number.
#[derive(Clone, Copy)]
struct Counted<'a> {
    first: u64,
    last: u64,
    line: &'a str,
}

// The lines that are written as one.
fn read_counted(line: &[u8]) -> Option<Counted<'_>> {
    let text = str::from_utf8(line).ok()?;
    let (numbers, line) = text.split_once(": ")?;
    let (first, last) = numbers.split_once(" to ")?;
    Some(Counted {
        first: first.parse().ok()?,
        last: last.parse().ok()?,
        line,
    })
}

// The line of a number, with its line feed.
fn numbered(alloc: Global, line: &str, number: u64) -> Result<String, AllocError> {
    match line.split_once("*") {
        Some((before, after)) => format!(in alloc; "{before}{number}{after}\n"),
        None => format!(in alloc; "{line}\n"),
    }
}

// Adds the line of each number.
fn add_counted(alloc: Global, counted: Counted<'_>, input: &mut Vec<u8>) -> Result<(), AllocError> {
    for number in counted.first..=counted.last {
        input.extend_from_slice(numbered(alloc, counted.line, number)?.as_bytes())?;
    }
    Ok(())
}

/// The input that a question stands for.
pub fn input_of(alloc: Global, asked: &[u8]) -> Result<Vec<u8>, AllocError> {
    let mut input = Vec::new(alloc);
    let lines = asked.strip_suffix(b"\n").unwrap_or(asked);
    for line in lines.split(|byte| *byte == b'\n') {
        match read_counted(line) {
            Some(counted) => add_counted(alloc, counted, &mut input)?,
            None => {
                input.extend_from_slice(line)?;
                input.push(b'\n')?;
            }
        }
    }
    Ok(input)
}
