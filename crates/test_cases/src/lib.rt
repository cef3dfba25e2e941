//! Cases as text: what is asked, with what was answered, one after another in one file.
//!
//! A line that begins with `> ` is asked. Lines in a row that begin so are one question, and what is answered follows them. An empty
//! line, or one that begins with `#`, ends a case. A file of cases is answered by the same file, with the answers put anew: so it is
//! what a program that answers it must print, and a case is added by writing what is asked and what must be answered.
#![tactic(auto)]

mod text;

use std::alloc::{AllocError, Global};
use std::io::{self, Read, Write};
pub use text::Text;

/// What answers the questions of cases.
pub trait CaseAnswerer {
    /// A new case begins: what was asked before is forgotten.
    fn begin(&mut self, alloc: Global) -> Result<(), AllocError>;

    /// Adds to `out` what a question is answered: lines, each with its line feed.
    fn answer(&mut self, alloc: Global, asked: &[u8], out: &mut Vec<u8>) -> Result<(), AllocError>;
}

// Adds a line and its line feed.
fn add_line(line: &[u8], out: &mut Vec<u8>) -> Result<(), AllocError> {
    out.extend_from_slice(line)?;
    out.push(b'\n')?;
    Ok(())
}

// Checks whether the line stands between cases.
fn is_between(line: &[u8]) -> bool {
    line.is_empty() || line.starts_with(b"#")
}

// Answers what was asked up to here, if anything was.
fn answer_asked<T: CaseAnswerer>(
    alloc: Global,
    answerer: &mut T,
    asked: &mut Vec<u8>,
    out: &mut Vec<u8>,
) -> Result<(), AllocError> {
    if asked.is_empty() {
        return Ok(());
    }
    answerer.answer(alloc, asked, out)?;
    asked.clear();
    Ok(())
}

// Reads one line of a file of cases.
fn read_line<T: CaseAnswerer>(
    alloc: Global,
    answerer: &mut T,
    line: &[u8],
    asked: &mut Vec<u8>,
    out: &mut Vec<u8>,
) -> Result<(), AllocError> {
    if let Some(question) = line.strip_prefix(b"> ") {
        add_line(line, out)?;
        return add_line(question, asked);
    }
    answer_asked(alloc, answerer, asked, out)?;
    if is_between(line) {
        answerer.begin(alloc)?;
        add_line(line, out)?;
    }
    Ok(())
}

/// Adds to `out` the cases of a file with what each question is answered.
pub fn answer_cases<T: CaseAnswerer>(
    alloc: Global,
    answerer: &mut T,
    file: &[u8],
    out: &mut Vec<u8>,
) -> Result<(), AllocError> {
    let mut asked = Vec::new(alloc);
    let whole = file.strip_suffix(b"\n").unwrap_or(file);
    for line in whole.split(|byte| *byte == b'\n') {
        read_line(alloc, answerer, line, &mut asked, out)?;
    }
    answer_asked(alloc, answerer, &mut asked, out)
}

/// Reads cases from an input, and writes them with what each question is answered.
pub fn run_cases<T: CaseAnswerer, R: Read, W: Write>(
    alloc: Global,
    answerer: &mut T,
    input: &mut R,
    output: &mut W,
) -> io::Result<()> {
    let mut file = Vec::new(alloc);
    input.read_to_end(&mut file)?;
    let mut out = Vec::new(alloc);
    answer_cases(alloc, answerer, &file, &mut out)?;
    output.write_all(&out)?;
    output.flush()
}
