// The sums of a segment, and the file that they are written into.
ghost use Rattle.std.specs.Prelude.{◌≡◌, ◌<◌, ◌^◌, ℕ, List, length, MatchResult, OnErr, OnOk};
ghost use Rattle.std.specs.Io.KnownBytes.{Appends};
ghost use Rattle.disk_integrity.specs.Lines.{sum_line};
ghost use Rattle.disk_integrity.specs.Running.{IsSumOf};
ghost use Rattle.disk_integrity.specs.Sums.{Adds, AreAdded, AreBegun, AreIn, AreSynced, WritesLine, without_line};

use crate::RunningSum;
use std::alloc::Global;
use std::io::{self, Write};

// Writes the line of a sum.
fn write_line<W: Write>(alloc: Global, sum: &RunningSum, output: &mut W) -> io::Result<()>
    ensures { (bytes : List ℕ) → IsSumOf sum.now bytes → length bytes < 2 ^ 64 → OnOk result (Appends (W.contents output.old) (W.contents output.new) (sum_line bytes)) }
{
    let line = sum.line(alloc)?;
    output.write_all(line.as_bytes())
}

// The segment whose sums are written: its number, their file, the sum so far, and whether a line was written.
#[derive(Drop)]
pub(crate) struct Summing<W> {
    number: u32,
    file: W,
    sum: RunningSum,
    has_line: bool,
}

impl<W: Write> Summing<W> {
    // Adds bytes that were put at the end of a segment, where it is this one.
    fn add(&mut self, number: u32, bytes: &[u8])
        ensures { Adds number bytes.now self.old self.new }
    {
        if self.number == number {
            self.sum.add(bytes);
        }
    }

    // Writes the line of a segment that was synced, where it is this one.
    fn write(&mut self, alloc: Global, number: u32) -> io::Result<()>
        ensures ok { OnOk result (WritesLine W.contents number self.old self.new) }
        ensures err { OnErr result (self.old.number ≡ number) }
        ensures sum { self.new.sum ≡ self.old.sum }
        ensures same { self.new.number ≡ self.old.number }
    {
        if self.number == number {
            self.has_line = true;
            write_line(alloc, &self.sum, &mut self.file)?;
        }
        Ok(())
    }
}

/// The sums of the segment that was made last.
#[derive(Drop)]
pub(crate) enum Sums<W> {
    /// No segment was made yet.
    NoneMade,
    /// They are written.
    Written(Summing<W>),
    /// Their file couldn't be made, or a line couldn't be written. Nothing more is.
    Failed,
}

impl<W: Write + Drop> Sums<W> {
    /// Those of a segment that was made, where their file could be.
    pub(crate) fn begin(number: u32, made: io::Result<W>) -> Sums<W>
        ensures begun { AreBegun number result }
        ensures file { MatchResult made (λ file. AreIn file result) (λ _. result ≡ Sums.Failed) }
    {
        match made {
            Ok(file) => Sums::Written(Summing {
                number,
                file,
                sum: RunningSum::new(),
                has_line: false,
            }),
            Err(_) => Sums::Failed,
        }
    }

    /// Adds bytes that were put at the end of a segment.
    pub(crate) fn add(&mut self, number: u32, bytes: &[u8])
        ensures { AreAdded number bytes.now self.old self.new }
    {
        match self {
            Sums::Written(summing) => summing.add(number, bytes),
            Sums::NoneMade | Sums::Failed => {}
        }
    }

    /// Writes the line of a segment that was synced. If it can't be written, or only in part, no further line is.
    pub(crate) fn sync(&mut self, alloc: Global, number: u32)
        ensures { AreSynced W.contents number self.old self.new }
    {
        if let Sums::Written(summing) = self {
            match summing.write(alloc, number) {
                Ok(()) => {}
                Err(_) => *self = Sums::Failed,
            }
        }
    }

    /// The number of the segment whose sums are written, if no line was.
    pub(crate) fn without_line(&self) -> Option<u32>
        ensures { result ≡ without_line self.now }
    {
        match self {
            Sums::Written(summing) if !summing.has_line => Some(summing.number),
            Sums::Written(_) | Sums::NoneMade | Sums::Failed => None,
        }
    }
}
