// A fault with what it is of: its sentence, and the end of the program.
ghost use Rattle.std.specs.Prelude.{◌≡◌, MatchResult};
ghost use Rattle.app_faults.specs.Told.{IsServerEnd, IsFaultTold};

use crate::causes::{Advice, Because, Cause, Lost, Why};
use crate::fault::Fault;
use crate::kick_fault::KickFault;
use crate::subject::{Holder, PlaceName, Remedy, Retry, Subject};
use std::fmt;
use std::io::Write;

/// A fault, and what it is of. Its text is a sentence that says what happened, where, and what to do.
#[derive(Clone, Copy, Debug)]
pub struct Told<'a> {
    /// What happened.
    pub fault: Fault,
    /// What it is of.
    pub subject: Subject,
    /// The path of the folder, or the name of the document.
    pub name: &'a str,
    /// The server's port; 0 of a command.
    pub port: u16,
}

impl fmt::Display for Told<'_> {
    ghost use Rattle.std.specs.Prelude.{Some};
    ghost use Rattle.app_faults.specs.Told.{sentence};

    ghost output = { λ told. Some (sentence told.fault told.subject told.name.now told.port) };

    fn fmt<W: fmt::Write>(&self, f: &mut fmt::Formatter<W>) -> fmt::Result {
        let Told {
            fault,
            subject,
            name,
            port,
        } = *self;
        match fault {
            Fault::NotAnOrigin => write!(
                f,
                "--origin wants an origin as browsers send it, https://canvas.example: small letters, and no path or slash behind"
            ),
            Fault::NotAHost => write!(
                f,
                "--host wants a host as browsers send it, canvas.example or canvas.example:8443: small letters, and no http:// before it"
            ),
            Fault::NotAUrl => write!(
                f,
                "--etcd wants URLs as http://127.0.0.1:2379, with commas between them"
            ),
            Fault::NotAName => write!(
                f,
                "--document wants a name of 1 to 64 letters, digits, -, . and _"
            ),
            Fault::WorkerCount => write!(f, "1 to 31 workers can serve at once"),
            Fault::NoPage => write!(
                f,
                "--page wants a folder with a file index.html that can be read"
            ),
            Fault::StopFile => write!(
                f,
                "--stop-file wants a path at which no file is yet: remove what is there"
            ),
            Fault::PortInUse => write!(
                f,
                "port {port} is in use: end the other program, or choose another port"
            ),
            Fault::PortDenied => write!(f, "port {port} can't be had: choose one above 1023"),
            Fault::NoPort => write!(f, "port {port} can't be had: choose one above 1023"),
            Fault::InUse => match subject {
                Subject::Folder => write!(f, "a server has the folder {name}"),
                Subject::ServedFolder => write!(f, "another server has the folder {name}"),
                Subject::Document | Subject::ServedDocument => write!(
                    f,
                    "another server has the document {name}"
                ),
            },
            Fault::Denied => write!(
                f,
                "the folder {name} can't be read and written: look at its rights"
            ),
            Fault::AboveDenied => write!(
                f,
                "the folder {name} can't be reached: look at the rights of the folders above it"
            ),
            Fault::NoDescriptor => write!(
                f,
                "no more files can be opened: raise the limit (ulimit -n, or LimitNOFILE of a service)"
            ),
            Fault::NoRoom => write!(
                f,
                "the disk has no room to make the folder {name}: free some, or choose another disk"
            ),
            Fault::Device => match subject {
                Subject::Folder | Subject::ServedFolder => write!(
                    f,
                    "the folder {name} can't be read and written: look at its rights and at the disk"
                ),
                Subject::Document | Subject::ServedDocument => write!(
                    f,
                    "the etcd of the document {name} doesn't answer: look at its health"
                ),
            },
            Fault::Taken => match subject {
                Subject::Folder | Subject::ServedFolder => write!(
                    f,
                    "the folder {name} holds a document, or what is left of one: name a new folder"
                ),
                Subject::Document | Subject::ServedDocument => write!(
                    f,
                    "the document {name} is there already: choose another name"
                ),
            },
            Fault::NoSegment => match subject {
                Subject::Folder | Subject::ServedFolder => write!(
                    f,
                    "the folder {name} holds no document"
                ),
                Subject::Document | Subject::ServedDocument => write!(
                    f,
                    "there is no document {name}"
                ),
            },
            Fault::Gone => match subject {
                Subject::Folder | Subject::ServedFolder => write!(
                    f,
                    "no segment of the document in {name} is left, but its identity or sums are: put a backup in its place"
                ),
                Subject::Document | Subject::ServedDocument => write!(
                    f,
                    "no segment of the document {name} is left"
                ),
            },
            Fault::Lost { loss } => match subject {
                Subject::Folder => write!(
                    f,
                    "the folder {name} has lost something, lugcurrant check tells what: choose another backup, or restore what is left with --accept-loss"
                ),
                Subject::ServedFolder => {
                    let lost = Lost(loss);
                    write!(
                        f,
                        "opening {name} would lose something: {lost}; put a backup in its place, or start with --accept-loss, which first copies the segments to {name}/lost"
                    )
                }
                Subject::Document | Subject::ServedDocument => write!(
                    f,
                    "the document {name} has lost something"
                ),
            },
            Fault::NotKept => write!(
                f,
                "what opening {name} loses can't be copied to {name}/lost: look at its rights and at the disk, and move away what is there"
            ),
            Fault::Identity => match subject {
                Subject::Folder | Subject::ServedFolder => write!(
                    f,
                    "the file identity in {name} isn't 32 hex digits: put the one of a backup in its place"
                ),
                Subject::Document | Subject::ServedDocument => write!(
                    f,
                    "the identity of the document {name} isn't 32 hex digits: put the right one in its place"
                ),
            },
            Fault::ChangedIdentity => match subject {
                Subject::Folder | Subject::ServedFolder => write!(
                    f,
                    "the file identity in {name} isn't the one that identity.sum names: put the one of a backup in its place, or delete both"
                ),
                Subject::Document | Subject::ServedDocument => write!(
                    f,
                    "the identity of the document {name} isn't 32 hex digits: put the right one in its place"
                ),
            },
            Fault::Busy => {
                let (place, retry) = (PlaceName { subject, name }, Retry(subject));
                write!(f, "{place} changes while it is checked{retry}")
            }
            Fault::Damaged { segment, offset } => {
                let (holder, remedy) = (Holder { subject, name }, Remedy(subject));
                write!(
                    f,
                    "{holder} is damaged in segment {segment} at offset {offset}{remedy}"
                )
            }
            Fault::TooLarge => {
                let holder = Holder { subject, name };
                write!(f, "{holder} is too large for a checkpoint")
            }
            Fault::NoSpace { missing } => write!(
                f,
                "the disk of {name} has no room to open the document: {missing} bytes are missing; free them, or move the folder"
            ),
            Fault::NoStore { why } => {
                let (told, advice) = (Why(why), Advice(why));
                write!(f, "the etcd of the document {name} {told}: {advice}")
            }
            Fault::BadLine { line, fault } => write!(f, "line {line}: {fault}"),
            Fault::NoDocument => write!(f, "the rows make no document"),
            Fault::Stream => write!(f, "the input can't be read, or the output written"),
            Fault::NoThread => match subject {
                Subject::Folder | Subject::Document => write!(
                    f,
                    "no thread can be made: raise the system's limit"
                ),
                Subject::ServedFolder | Subject::ServedDocument => write!(
                    f,
                    "no thread can be made: ask for fewer workers, or raise the system's limit"
                ),
            },
            Fault::NoKick { why } => match why {
                KickFault::There => write!(
                    f,
                    "the file {name} is there already, or its .new beside it: wait for the other kick, or remove it"
                ),
                KickFault::NotWritten => write!(
                    f,
                    "the file {name} can't be written: look at the rights of its folder and at the disk"
                ),
                KickFault::NotTaken => write!(
                    f,
                    "no server has taken the file {name} in 5 seconds: name the one of its --kick-file"
                ),
            },
            Fault::JournalFailed { call } => {
                let cause = Cause(call);
                write!(
                    f,
                    "the disk of {name} failed{cause}: what was acknowledged is kept; look at the disk, and start anew"
                )
            }
            Fault::StoreFailed { call, why } => {
                let (cause, because) = (Cause(call), Because(why));
                write!(
                    f,
                    "the store of {name} failed{cause}{because}: what was acknowledged is kept; another server may have the document by now"
                )
            }
            Fault::LeaseEnded => write!(
                f,
                "the lease of the document {name} has ended: another server may have it by now"
            ),
            Fault::Stopped => write!(f, ""),
            Fault::Memory => write!(f, "out of memory"),
        }
    }
}

/// Tells of a fault: its sentence and a line feed. The program's status: the fault's, or 4 where it can't be told. `Stopped` isn't told of a
/// command: it ends with 4.
pub fn tell<F: Write>(told: &Told<'_>, faults: &mut F) -> u8
    ensures { IsFaultTold told.now.fault told.now.subject told.now.name.now told.now.port result (F.contents faults.old) (F.contents faults.new) }
{
    if told.fault == Fault::Stopped {
        return 4;
    }
    if writeln!(faults, "{told}").is_err() || faults.flush().is_err() {
        return 4;
    }
    told.fault.status()
}

/// Ends a server: tells of its fault as `tell` does, or nothing of one that was stopped, whose status is 0.
pub fn end<F: Write>(told: &Told<'_>, faults: &mut F) -> u8
    ensures { IsServerEnd told.now.fault told.now.subject told.now.name.now told.now.port result (F.contents faults.old) (F.contents faults.new) }
{
    if told.fault == Fault::Stopped {
        return 0;
    }
    tell(told, faults)
}

/// The program's status for what a command answered about this folder or document: 0, or that of the fault, which is told.
pub fn finish<F: Write>(done: Result<(), Fault>, subject: Subject, name: &str, faults: &mut F) -> u8
    ensures { MatchResult done (λ _. result ≡ 0) (λ fault. IsFaultTold fault subject name.now 0 result (F.contents faults.old) (F.contents faults.new)) }
{
    match done {
        Ok(()) => 0,
        Err(fault) => tell(
            &Told {
                fault,
                subject,
                name,
                port: 0,
            },
            faults,
        ),
    }
}
