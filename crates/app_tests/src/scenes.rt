//! What there was in an output, streams that fail, and the words that a program is called with.
use canvas_scene::{log_run, run, start};
use std::alloc::{AllocError, Global};
use std::io::{self, Error, ErrorKind, Read, Write};
use std::test::Fail;

// Inputs, and what an output has then in which `before` stood.
const ADDED: &[(&str, &str)] = &[
    (
        "log\njoin\n",
        "before\n1 joined 1\nversion 1\n0:0 document\n",
    ),
    ("log\njoin\njion\n", "before\n1 joined 1\n"),
    ("jion\n", "before\n"),
    ("world\njoin\n", "before\n"),
];

// Checks whether a log adds its answers, and with them its report, to what there was.
fn is_added(alloc: Global, input: &str, wanted: &str) -> Result<bool, AllocError> {
    let mut out = Vec::from_slice(alloc, b"before\n")?;
    let is_whole = log_run(alloc, input.as_bytes(), &mut out).is_ok();
    Ok(is_whole == wanted.ends_with("0:0 document\n") && out.as_slice() == wanted.as_bytes())
}

#[test]
fn what_there_was_is_kept(rt: HostRuntime) -> Result<(), Fail> {
    for (input, wanted) in ADDED {
        assert!(rt; is_added(rt.alloc(), *input, *wanted)?, "at {input}");
    }
    Ok(())
}

// How a program ends that is called with words.
#[derive(Clone, Copy)]
struct End {
    status: u8,
    written: &'static str,
    told: &'static str,
    // How many bytes of the input it hasn't read.
    left: usize,
}

// It plays its input.
const PLAYED: End = End {
    status: 0,
    written: "1 joined 1\nversion 1\n0:0 document\n",
    told: "",
    left: 0,
};

// It reads nothing, and tells how it is called.
const REFUSED: End = End {
    status: 2,
    written: "",
    told: "usage: scene < FILE\n",
    left: 9,
};

// Checks whether the program, called with these words, ends so.
fn ends(alloc: Global, words: &[String], end: End) -> bool {
    let mut input = b"log\njoin\n".as_slice();
    let mut output = Vec::new(alloc);
    let mut faults = Vec::new(alloc);
    let status = start(alloc, words, &mut input, &mut output, &mut faults);
    status == end.status
        && output.as_slice() == end.written.as_bytes()
        && faults.as_slice() == end.told.as_bytes()
        && input.len() == end.left
}

// The words of a line.
fn words(alloc: Global, line: &str) -> Result<Vec<String>, AllocError> {
    let mut words = Vec::new(alloc);
    for word in line.split(' ') {
        let word = String::from_str(alloc, word)?;
        words.push(word)?;
    }
    Ok(words)
}

// Checks whether the program is refused that is called with the words of a line.
fn is_refused(alloc: Global, line: &str) -> Result<bool, AllocError> {
    let words = words(alloc, line)?;
    Ok(ends(alloc, &words, REFUSED))
}

#[test]
fn words_are_refused(rt: HostRuntime) -> Result<(), Fail> {
    assert!(rt; ends(rt.alloc(), &[], PLAYED));
    for line in ["first.scene", "", "--help me"] {
        assert!(rt; is_refused(rt.alloc(), line)?, "at {line}");
    }
    Ok(())
}

// A reader that gives a few bytes, and then fails.
#[derive(Drop)]
struct Breaks {
    left: usize,
}

impl Read for Breaks {
    fn read(&mut self, buf: &mut [u8]) -> io::Result<usize> {
        if self.left == 0 || buf.is_empty() {
            return Err(Error::from(ErrorKind::BrokenPipe));
        }
        self.left -= 1;
        buf[0] = b'#';
        Ok(1)
    }
}

// A writer that takes a few bytes, and then fails.
#[derive(Drop)]
struct Fills {
    room: usize,
}

impl Write for Fills {
    fn write(&mut self, buf: &[u8]) -> io::Result<usize> {
        let count = buf.len().min(self.room);
        if count == 0 && !buf.is_empty() {
            return Err(Error::from(ErrorKind::StorageFull));
        }
        self.room -= count;
        Ok(count)
    }

    fn flush(&mut self) -> io::Result<()> {
        Ok(())
    }
}

const STREAM_FAILED: &[u8] = b"read or write failed\n";

// Checks whether a read that fails in mid-stream is told, and nothing is written.
fn tells_of_read(alloc: Global) -> bool {
    let mut output = Vec::new(alloc);
    let mut faults = Vec::new(alloc);
    let status = run(alloc, &mut Breaks { left: 5 }, &mut output, &mut faults);
    status == 4 && output.is_empty() && faults.as_slice() == STREAM_FAILED
}

// Checks whether a write that fails in mid-stream is told.
fn tells_of_write(alloc: Global) -> bool {
    let mut input = b"log\njoin\n".as_slice();
    let mut faults = Vec::new(alloc);
    let status = run(alloc, &mut input, &mut Fills { room: 5 }, &mut faults);
    status == 4 && faults.as_slice() == STREAM_FAILED
}

// The status where a fault can't be told.
fn untold(alloc: Global) -> u8 {
    let mut input = b"jion\n".as_slice();
    let mut output = Vec::new(alloc);
    run(alloc, &mut input, &mut output, &mut Fills { room: 3 })
}

#[test]
fn streams_fail(rt: HostRuntime) {
    assert!(rt; tells_of_read(rt.alloc()));
    assert!(rt; tells_of_write(rt.alloc()));
    assert!(rt; untold(rt.alloc()) == 4);
}
