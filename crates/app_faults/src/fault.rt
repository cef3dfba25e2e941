// What failed, and the status that the program ends with.
ghost use Rattle.std.specs.Prelude.{◌≡◌};
ghost use Rattle.app_faults.specs.Statuses.{exit_status_of, store_status, stored_status};

use crate::kick_fault::KickFault;
use crate::row_fault::RowFault;
use disk_integrity::{Loss, ShelfCall};
use etcd_store::StoreError;

/// What ends the program or one of its commands.
#[derive(Clone, Copy, Debug, PartialEq, Eq)]
pub enum Fault {
    /// An origin isn't as browsers send it.
    NotAnOrigin,
    /// A host isn't as browsers send it.
    NotAHost,
    /// The URLs of an etcd aren't as `http://127.0.0.1:2379`, or there is none.
    NotAUrl,
    /// The name of a document in an etcd isn't 1 to 64 letters, digits, `-`, `.` and `_`.
    NotAName,
    /// Fewer workers than 1 or more than 31 were asked for.
    WorkerCount,
    /// The folder of the page has no file `index.html` that can be read.
    NoPage,
    /// The file that ends the server when it comes is there before it starts, or can't be looked at.
    StopFile,
    /// Another program listens at the port.
    PortInUse,
    /// The port is kept for programs with more rights.
    PortDenied,
    /// The port can't be had for another reason.
    NoPort,
    /// Another server has the folder, or the document in the etcd.
    InUse,
    /// The program has no rights to the folder.
    Denied,
    /// The program has no rights to a folder above it.
    AboveDenied,
    /// No more files can be opened.
    NoDescriptor,
    /// The disk has no room to make the folder.
    NoRoom,
    /// The folder can't be made, read or written for another reason.
    Device,
    /// A new document was to be made, and there is one, or what is left of one.
    Taken,
    /// There is no document: the folder holds no segment, or the etcd none of this name.
    NoSegment,
    /// No segment of the document is left, but its identity or sums are.
    Gone,
    /// The folder has lost what no crash loses.
    Lost {
        /// What it has lost.
        loss: Loss,
    },
    /// What opening the folder loses couldn't be copied to its folder `lost`.
    NotKept,
    /// The file `identity` of the folder, or the key `identity` of the document in the etcd, holds no identity.
    Identity,
    /// The file `identity` of the folder holds another identity than its sum names.
    ChangedIdentity,
    /// A server makes one checkpoint after the other while the document is checked.
    Busy,
    /// A record of the journal isn't what it has to be.
    Damaged {
        /// The number of the segment.
        segment: u32,
        /// Where the record begins, in bytes from the beginning of the segment.
        offset: usize,
    },
    /// The journal has no room for its checkpoint.
    TooLarge,
    /// The disk has no room to open the document.
    NoSpace {
        /// How many bytes are missing.
        missing: u64,
    },
    /// The etcd doesn't do what it is asked.
    NoStore {
        /// Why it doesn't.
        why: StoreError,
    },
    /// A line of the input isn't taken.
    BadLine {
        /// Which, counted from 1.
        line: u64,
        /// Why.
        fault: RowFault,
    },
    /// The input has no rows.
    NoDocument,
    /// The input can't be read, or the output written.
    Stream,
    /// A thread couldn't be made.
    NoThread,
    /// The numbers of the connections that an operator ends aren't taken.
    NoKick {
        /// Why not.
        why: KickFault,
    },
    /// The journal failed while the server ran.
    JournalFailed {
        /// The first call of the folder that failed, where that is known.
        call: Option<ShelfCall>,
    },
    /// The journal in the etcd failed while the server ran: it didn't answer, or another server has taken the document over.
    StoreFailed {
        /// The first call that failed, where that is known.
        call: Option<ShelfCall>,
        /// Why the last one failed, if it is known.
        why: Option<StoreError>,
    },
    /// The lease of the document in the etcd has ended.
    LeaseEnded,
    /// The file that ends the server has come: all is in good order.
    Stopped,
    /// Memory ran out.
    Memory,
}

impl Fault {
    /// The program's status: 0 for a server that was stopped; 2 if the words or the input must change; 3 if memory ran out; 5 if a person must
    /// look at the document; 6 if it is too large; 7 if another has the folder, the document or the port; 8 for want of rights; 9 for want of
    /// space; 10 if the server no longer owns its document; and 4 for all else.
    pub fn status(&self) -> u8
        ensures { result ≡ exit_status_of self.now }
    {
        match self {
            Fault::Stopped => 0,
            Fault::NotAnOrigin
            | Fault::NotAHost
            | Fault::NotAUrl
            | Fault::NotAName
            | Fault::WorkerCount
            | Fault::NoPage
            | Fault::StopFile
            | Fault::BadLine { .. }
            | Fault::NoDocument => 2,
            Fault::Memory => 3,
            Fault::NoPort
            | Fault::NoDescriptor
            | Fault::Device
            | Fault::Taken
            | Fault::NoSegment
            | Fault::NotKept
            | Fault::Busy
            | Fault::Stream
            | Fault::NoThread
            | Fault::NoKick { .. }
            | Fault::JournalFailed { .. } => 4,
            Fault::Gone
            | Fault::Lost { .. }
            | Fault::Identity
            | Fault::ChangedIdentity
            | Fault::Damaged { .. } => 5,
            Fault::TooLarge => 6,
            Fault::PortInUse | Fault::InUse => 7,
            Fault::PortDenied | Fault::Denied | Fault::AboveDenied => 8,
            Fault::NoRoom | Fault::NoSpace { .. } => 9,
            Fault::LeaseEnded => 10,
            Fault::NoStore { why } => store_status(*why),
            Fault::StoreFailed { call: _, why } => stored_status(*why),
        }
    }
}

// The program's status if an etcd doesn't do what it is asked.
fn store_status(why: StoreError) -> u8
    ensures { result ≡ store_status why }
{
    match why {
        StoreError::Unreachable | StoreError::Unanswered | StoreError::TlsWanted => 4,
        StoreError::Memory => 3,
        StoreError::Damaged => 5,
        StoreError::Refused => 8,
        StoreError::NoSpace => 9,
        StoreError::Lost => 10,
    }
}

// The program's status if a journal in an etcd has failed, for this reason if one is known.
fn stored_status(why: Option<StoreError>) -> u8
    ensures { result ≡ stored_status why }
{
    match why {
        Some(StoreError::Refused) => 8,
        Some(StoreError::NoSpace) => 9,
        Some(StoreError::Lost) => 10,
        _ => 4,
    }
}
