//! A connection's stream that pauses between two messages once much has passed, so that whoever speaks over it can let go of what it kept
//! for them.
//!
//! A WebSocket keeps room for the longest message that it has sent, and for the longest that it has read. Between two messages nothing
//! is in these: a new WebSocket of the same stream goes on where the old one was.
#![tactic(auto)]

ghost use Rattle.std.specs.Prelude.{◌≡◌, ◌↔◌, ℕ, List, [], ◌++◌, take, true, false, IsTrue, MatchResult, IfOk};
ghost use Rattle.std.specs.Io.KnownBytes.{Keeps, ReadConsumes, WriteAppends};
ghost use Rattle.std.specs.Io.{ReadsAtMost, WritesAtMost};
ghost use Rattle.std.specs.IoError.{error_kind};
ghost use Rattle.net_idle.specs.Frames.{AreMessages, AreWhole, HasFollowedBytes};
ghost use Rattle.net_idle.specs.Pausing.{IsDue, MayPause, counted};

mod frames;

use frames::Frames;
use net_outbox::Backlog;
use std::io::{self, ErrorKind, Read, Write};

/// So many bytes are much: 256 KiB.
pub const MUCH: usize = 256 * 1024;

/// A stream after its handshake, whose peer sends the frames of a WebSocket.
///
/// Where a message, its answer or both had `MUCH` bytes, the next read between two messages fails once, with `WouldBlock`, and nothing is
/// read: the stream has paused. It goes on where it is asked to.
///
/// Whoever reads it reads on only if the bytes so far hold no frame that it hasn't taken. So at a pause all that was read is taken:
/// the bytes that it gave are whole messages then.
#[derive(Drop)]
pub struct Pausing<S> {
    stream: S,
    frames: Frames,
    // How many bytes have passed since the last read between two messages.
    passed: usize,
    // Whether the last read has paused.
    has_paused: bool,
    // Whether a write has failed: then a part of a frame may wait to be written, and it doesn't pause.
    has_failed: bool,
    // It pauses only between two messages.
    ghost between: { has_paused ≡ true → AreWhole frames },
}

impl<S> Pausing<S> {
    /// A stream, no byte of which was read since the handshake.
    pub fn new(stream: S) -> Pausing<S>
        ensures frames { HasFollowedBytes result.frames [] }
        ensures paused { result.has_paused ≡ false }
        ensures stream { result.stream ≡ stream }
        ensures passed { result.passed ≡ 0 }
        ensures failed { result.has_failed ≡ false }
    {
        Pausing {
            stream,
            frames: Frames::new(),
            passed: 0,
            has_paused: false,
            has_failed: false,
        }
    }

    /// Checks whether it has paused. Then the bytes that it gave are whole messages, all of them.
    pub fn has_paused(&self) -> bool
        ensures value { result ≡ self.now.has_paused }
        ensures messages { IsTrue result → (bytes : List ℕ) → HasFollowedBytes self.now.frames bytes → AreMessages bytes }
    {
        self.has_paused
    }

    /// Goes on behind a pause.
    pub fn go_on(&mut self)
        ensures frames { self.new.frames ≡ self.old.frames }
        ensures paused { self.new.has_paused ≡ false }
        ensures stream { self.new.stream ≡ self.old.stream }
        ensures passed { self.new.passed ≡ 0 }
        ensures failed { self.new.has_failed ≡ self.old.has_failed }
    {
        self.has_paused = false;
        self.passed = 0;
    }

    // Checks whether it is time to pause. Notes where a message begins, and whether it has paused.
    fn pauses(&mut self) -> bool
        ensures stream { self.new.stream ≡ self.old.stream }
        ensures frames { self.new.frames ≡ self.old.frames }
        ensures paused { self.new.has_paused ≡ result }
        ensures failed { self.new.has_failed ≡ self.old.has_failed }
        ensures due { IsTrue result ↔ IsDue self.old.frames self.old.has_failed self.old.passed }
        ensures stays { IsTrue result → self.new.passed ≡ self.old.passed }
        ensures between { MayPause self.old.frames self.old.has_failed → result ≡ false → self.new.passed ≡ 0 }
        ensures within { (MayPause self.old.frames self.old.has_failed → ⊥) → self.new.passed ≡ self.old.passed }
    {
        self.has_paused = false;
        if !self.frames.are_whole() || self.has_failed {
            return false;
        }
        if self.passed < MUCH {
            self.passed = 0;
            return false;
        }
        self.has_paused = true;
        true
    }
}

impl<S: Backlog> Backlog for Pausing<S> {
    ghost waits = { λ p. S.waits p.stream };

    fn waiting(&self) -> usize {
        self.stream.waiting()
    }
}

impl<S: Read> Read for Pausing<S> {
    ghost remaining = { λ p. S.remaining p.stream };

    fn read(&mut self, buf: &mut [u8]) -> io::Result<usize>
        ensures bound { ReadsAtMost result buf.new }
        ensures bytes { ReadConsumes (S.remaining self.old.stream) (S.remaining self.new.stream) result buf.new }
        ensures frames { (before : List ℕ) → HasFollowedBytes self.old.frames before →
            MatchResult result (λ count. HasFollowedBytes self.new.frames (before ++ take count buf.new))
            (λ _. HasFollowedBytes self.new.frames before) }
        ensures paused { IfOk result (λ _. self.new.has_paused ≡ false) }
        ensures due { self.new.has_paused ≡ true ↔ IsDue self.old.frames self.old.has_failed self.old.passed }
        ensures pauses { IsDue self.old.frames self.old.has_failed self.old.passed → MatchResult result (λ _. ⊥) (λ e. error_kind e ≡ ErrorKind.WouldBlock) }
        ensures nothing { IsDue self.old.frames self.old.has_failed self.old.passed → (self.new.stream ≡ self.old.stream) × (self.new.passed ≡ self.old.passed) }
        ensures between { MayPause self.old.frames self.old.has_failed → self.new.has_paused ≡ false →
            MatchResult result (λ count. self.new.passed ≡ counted 0 count) (λ _. self.new.passed ≡ 0) }
        ensures within { (MayPause self.old.frames self.old.has_failed → ⊥) →
            MatchResult result (λ count. self.new.passed ≡ counted self.old.passed count) (λ _. self.new.passed ≡ self.old.passed) }
        ensures failed { self.new.has_failed ≡ self.old.has_failed }
    {
        if self.pauses() {
            return Err(io::Error::from(ErrorKind::WouldBlock));
        }
        let count = self.stream.read(buf)?;
        self.frames.pass(&buf[..count]);
        self.passed = self.passed.saturating_add(count);
        Ok(count)
    }
}

impl<S: Write> Write for Pausing<S> {
    ghost contents = { λ p. S.contents p.stream };

    fn write(&mut self, buf: &[u8]) -> io::Result<usize>
        ensures bound { WritesAtMost result buf.now }
        ensures bytes { WriteAppends (S.contents self.old.stream) (S.contents self.new.stream) result buf.now }
        ensures frames { self.new.frames ≡ self.old.frames }
        ensures paused { self.new.has_paused ≡ self.old.has_paused }
        ensures passed { MatchResult result (λ count. self.new.passed ≡ counted self.old.passed count) (λ _. self.new.passed ≡ self.old.passed) }
        ensures failed { MatchResult result (λ _. self.new.has_failed ≡ self.old.has_failed) (λ _. self.new.has_failed ≡ true) }
    {
        let written = self.stream.write(buf);
        match &written {
            Ok(count) => self.passed = self.passed.saturating_add(*count),
            Err(_) => self.has_failed = true,
        }
        written
    }

    fn flush(&mut self) -> io::Result<()>
        ensures bytes { Keeps (S.contents self.old.stream) (S.contents self.new.stream) }
        ensures frames { self.new.frames ≡ self.old.frames }
        ensures paused { self.new.has_paused ≡ self.old.has_paused }
        ensures passed { self.new.passed ≡ self.old.passed }
        ensures failed { self.new.has_failed ≡ self.old.has_failed }
    {
        self.stream.flush()
    }
}
