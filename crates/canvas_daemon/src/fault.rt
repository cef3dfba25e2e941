// What ends the program early: its text, and the status that the program ends with.
ghost use Rattle.std.specs.Prelude.{◌≡◌};
ghost use Rattle.canvas_daemon.specs.Faults.{IsDaemonEnd, IsDaemonStatus};

use canvas_folder::FolderError;
use canvas_journal::OpenError;
use canvas_lines::Fault as LineFault;
use canvas_nodes::LinkError;
use canvas_room::RoomError;
use std::alloc::{AllocError, AllocFailed};
use std::error::Error;
use std::fmt;
use std::io::Write;

/// What ends the program early.
#[derive(Clone, Copy, Debug, PartialEq, Eq)]
pub enum DaemonFault {
    /// The words that the program is called with ask for no command.
    Usage,
    /// The first line of the input that can't be read, counted from 1.
    BadLine(u64),
    /// Memory ran out.
    Memory,
    /// The device of the journal failed, or a socket, or a read or write of the program's streams.
    Device,
    /// A record of the journal isn't what it has to be.
    Damaged {
        /// The number of the segment.
        segment: u32,
        /// Where the record begins, in bytes from the beginning of the segment.
        offset: usize,
    },
    /// The journal has no room for its checkpoint.
    TooLarge,
}

impl fmt::Display for DaemonFault {
    ghost use Rattle.std.specs.Prelude.{Some};
    ghost use Rattle.canvas_daemon.specs.Faults.{daemon_fault_text};

    ghost output = { λ fault. Some (daemon_fault_text fault) };

    fn fmt<W: fmt::Write>(&self, f: &mut fmt::Formatter<W>) -> fmt::Result {
        match self {
            DaemonFault::Usage => {
                write!(
                    f,
                    "usage: canvasd serve DIR PORT N | edit PORT | show DIR | trial DIR"
                )
            }
            DaemonFault::BadLine(line) => write!(f, "line {line}: cannot read"),
            DaemonFault::Memory => write!(f, "out of memory"),
            DaemonFault::Device => write!(f, "device or socket failed"),
            DaemonFault::Damaged { segment, offset } => {
                write!(f, "damaged segment {segment} offset {offset}")
            }
            DaemonFault::TooLarge => write!(f, "too large"),
        }
    }
}

impl Error for DaemonFault {}

impl From<AllocError> for DaemonFault {
    ghost use Rattle.canvas_daemon.specs.declared.fault.DaemonFault.TheVariants.{Memory};

    ghost from_gives = { λ _ fault. fault ≡ Memory };

    fn from(_: AllocError) -> DaemonFault {
        DaemonFault::Memory
    }
}

impl<T: Drop> From<AllocFailed<T>> for DaemonFault {
    ghost use Rattle.canvas_daemon.specs.declared.fault.DaemonFault.TheVariants.{Memory};

    ghost from_gives = { λ _ fault. fault ≡ Memory };

    fn from(_: AllocFailed<T>) -> DaemonFault {
        DaemonFault::Memory
    }
}

impl From<OpenError> for DaemonFault {
    ghost use Rattle.canvas_daemon.specs.Faults.{fault_of_opening};

    ghost from_gives = { λ error fault. fault ≡ fault_of_opening error };

    fn from(error: OpenError) -> DaemonFault {
        match error {
            OpenError::Device => DaemonFault::Device,
            OpenError::Damaged { segment, offset } => DaemonFault::Damaged { segment, offset },
            OpenError::TooLarge => DaemonFault::TooLarge,
            OpenError::Memory => DaemonFault::Memory,
        }
    }
}

impl From<RoomError> for DaemonFault {
    ghost use Rattle.canvas_daemon.specs.Faults.{fault_of_room};

    ghost from_gives = { λ error fault. fault ≡ fault_of_room error };

    fn from(error: RoomError) -> DaemonFault {
        match error {
            RoomError::SeatCount => DaemonFault::Usage,
            RoomError::NoPlace | RoomError::Memory => DaemonFault::Memory,
        }
    }
}

impl From<LinkError> for DaemonFault {
    ghost use Rattle.canvas_daemon.specs.Faults.{fault_of_link};

    ghost from_gives = { λ error fault. fault ≡ fault_of_link error };

    fn from(error: LinkError) -> DaemonFault {
        match error {
            LinkError::Memory => DaemonFault::Memory,
            LinkError::Ended | LinkError::Refused(_) | LinkError::NotRead => DaemonFault::Device,
        }
    }
}

impl From<FolderError> for DaemonFault {
    ghost use Rattle.canvas_daemon.specs.Faults.{fault_of_folder};

    ghost from_gives = { λ error fault. fault ≡ fault_of_folder error };

    fn from(error: FolderError) -> DaemonFault {
        match error {
            FolderError::InUse
            | FolderError::Denied
            | FolderError::AboveDenied
            | FolderError::NoDescriptor
            | FolderError::NoSpace
            | FolderError::Device => DaemonFault::Device,
            FolderError::Memory => DaemonFault::Memory,
        }
    }
}

impl From<LineFault> for DaemonFault {
    ghost use Rattle.canvas_daemon.specs.Faults.{fault_of_lines};

    ghost from_gives = { λ line_fault fault. fault ≡ fault_of_lines line_fault };

    fn from(fault: LineFault) -> DaemonFault {
        match fault {
            LineFault::BadLine(line) => DaemonFault::BadLine(line),
            LineFault::Memory => DaemonFault::Memory,
            LineFault::Stream => DaemonFault::Device,
        }
    }
}

impl DaemonFault {
    /// The program's status.
    pub fn status(&self) -> u8
        ensures { IsDaemonStatus self.now result }
    {
        match self {
            DaemonFault::Usage | DaemonFault::BadLine(_) => 2,
            DaemonFault::Memory => 3,
            DaemonFault::Device => 4,
            DaemonFault::Damaged { .. } => 5,
            DaemonFault::TooLarge => 6,
        }
    }
}

/// Tells of a fault on `faults`: its text and a line feed. The program's status: the fault's, or 4 where it can't be told.
pub fn end<F: Write>(fault: &DaemonFault, faults: &mut F) -> u8
    ensures { IsDaemonEnd fault.now result (F.contents faults.old) (F.contents faults.new) }
{
    if writeln!(faults, "{fault}").is_err() || faults.flush().is_err() {
        return 4;
    }
    fault.status()
}
