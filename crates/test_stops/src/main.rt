//! Journals in memory, and rooms over them, whose shelf is damaged, stops or fails: a program that is run on a file of cases.
//!
//! These lines say what a case is about:
//!
//! - `segment N` begins a segment of the shelf; `record TEXT` adds a record to it, which is segment 1 where none was begun, and
//!   `hex 00 ff ..` adds bytes. `store` puts the segments into a store of keys, in which a room is asked.
//! - A message `["join",2]` or `["edit",..]` is submitted by the first of a room's two seats; several with ` & ` between are one batch of
//!   the desk. `checkpoint` makes one. `read` tells what the second seat reads. These lines are the script of a room.
//! - `append ENTRY`, `sync`, `checkpoint CHECKPOINT`, `stage ENTRY`, `unstage` and `commit` are calls of a journal that is opened on this
//!   shelf, one after another: the script of a journal, in which no message stands.
//! - `fuse N` lets so many calls of the shelf pass and makes all others fail; `fault N` makes this one fail alone, the first being 1.
//! - `keep N:SIZE ..` is a crash after a journal's script that keeps so many of the bytes of segment N that weren't synced, and of others
//!   none. If no line says so, there is one that keeps none.
//!
//! These ask of a script:
//!
//! - `play`, of a room: what each line is answered: the version of an entry, or why there is none. Then which version both seats read. Then
//!   what is found later, and to which version the script goes on there, from its first line whose entries aren't found. On a shelf in
//!   memory that is three times, after a crash that keeps of the bytes that aren't synced none, half, and all. In a store it is twice, by
//!   another that takes the document over: where the transaction that wasn't answered isn't done, and if it is. If the shelf isn't
//!   opened, also what opening it again comes to. If the store doesn't become a shelf, the line says no more than that its device failed.
//! - `play`, of a journal: what opening and each call answer, how many calls the shelf counts and how many failed, and what each crash
//!   leaves to be found; where opening fails, also what opening the same shelf again finds.
//! - `fuses` and `faults`: the same for each number of calls of the shelf, or of the store, that pass while all others fail, and for each
//!   call that fails alone, up to the number at which none fails.
//! - `calls`, of a journal: the calls of the shelf in the script. `crash N:SIZE ..`: the segments that this crash leaves;
//!   `reopen N:SIZE ..`: what `open` answers of them. `sizes N:SIZE`: what is found where a crash keeps each number of bytes up to this one.
//!
//! These ask of the segments:
//!
//! - `open`: what looking at the shelf finds and what opening it finds, the calls that opening makes, and each segment then.
//! - `cuts`: the same with the last segment cut to each length. `bytes HEX`: what looking and opening find with each byte of the last
//!   segment replaced by this one; a line says so where opening fails and yet changes a segment.
//! - `first`: the text of the first record of the last segment, and the bytes after it.
//! - `lists N`: what a shelf with no segment answers that is asked so often for its numbers.
//! - `growths TEXT`: how many growths a record of this text has, each of which is refused in turn.
#![tactic(auto)]

mod bench;
mod fragile;
mod growths;
mod journal_stops;
mod lines;
mod opening;
mod plays;
mod questions;
mod room_stops;
mod rooms;
mod runs;
mod script;
mod shelves;
mod spoiled;
mod steps;
mod stops;

use bench::Bench;
use questions::answer_line;
use std::alloc::{AllocError, Global};
use std::io;
use std::sync::Wait;
use test_cases::{CaseAnswerer, Text, run_cases};

// Answers line by line.
struct Answers<R: Wait + Copy + Drop> {
    rt: R,
    bench: Bench,
}

impl<R: Wait + Copy + Drop> Drop for Answers<R> {
    fn drop(self) {
        let Answers { rt: _, bench: _ } = self;
    }
}

impl<R: Wait + Copy + Drop> CaseAnswerer for Answers<R> {
    fn begin(&mut self, _alloc: Global) -> Result<(), AllocError> {
        self.bench.clear();
        Ok(())
    }

    fn answer(&mut self, alloc: Global, asked: &[u8], out: &mut Vec<u8>) -> Result<(), AllocError> {
        let mut text = Text::new(alloc);
        for line in str::from_utf8(asked).unwrap_or("?").lines() {
            answer_line(self.rt, alloc, &mut self.bench, line, &mut text)?;
        }
        text.put(out)
    }
}

fn main(rt: HostRuntime) -> io::Result<()> {
    let mut answers = Answers {
        rt,
        bench: Bench::new(rt.alloc()),
    };
    run_cases(rt.alloc(), &mut answers, &mut rt.stdin(), &mut rt.stdout())
}
