// What ends a program before its report: its text, and the status that the program ends with.
ghost use Rattle.std.specs.Prelude.{◌≡◌, OnOk};
ghost use Rattle.std.specs.Io.KnownBytes.{Appends};
ghost use Rattle.canvas_lines.specs.Faults.{IsFaultStatus, fault_line};
ghost use Rattle.canvas_lines.specs.declared.fault.Fault.TheVariants.{Memory};

use std::alloc::{AllocError, AllocFailed};
use std::error::Error;
use std::fmt;
use std::io::{self, Write};

/// What ends a program before its report.
#[derive(Clone, Copy, Debug, PartialEq, Eq)]
pub enum Fault {
    /// The first line that can't be read, counted from 1.
    BadLine(u64),
    /// Memory ran out.
    Memory,
    /// A read or a write failed, or the input is too long.
    Stream,
}

impl fmt::Display for Fault {
    ghost use Rattle.std.specs.Prelude.{Some};
    ghost use Rattle.canvas_lines.specs.Faults.{fault_text};

    ghost output = { λ fault. Some (fault_text fault) };

    fn fmt<W: fmt::Write>(&self, f: &mut fmt::Formatter<W>) -> fmt::Result {
        match self {
            Fault::BadLine(line) => write!(f, "line {line}: cannot read"),
            Fault::Memory => write!(f, "out of memory"),
            Fault::Stream => write!(f, "read or write failed"),
        }
    }
}

impl Error for Fault {}

impl From<AllocError> for Fault {
    ghost from_gives = { λ _ fault. fault ≡ Memory };

    fn from(_: AllocError) -> Fault {
        Fault::Memory
    }
}

impl<T: Drop> From<AllocFailed<T>> for Fault {
    ghost from_gives = { λ _ fault. fault ≡ Memory };

    fn from(_: AllocFailed<T>) -> Fault {
        Fault::Memory
    }
}

impl Fault {
    /// The program's status.
    pub fn status(&self) -> u8
        ensures { IsFaultStatus self.now result }
    {
        match self {
            Fault::BadLine(_) => 2,
            Fault::Memory => 3,
            Fault::Stream => 4,
        }
    }
}

/// Tells of a fault: its text and a line feed.
pub fn tell<F: Write>(fault: &Fault, faults: &mut F) -> io::Result<()>
    ensures { OnOk result
        (Appends (F.contents faults.old) (F.contents faults.new) (fault_line fault.now)) }
{
    writeln!(faults, "{fault}")?;
    faults.flush()
}
