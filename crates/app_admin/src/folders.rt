// Folders of the system that hold a document, and new ones.
ghost use Rattle.std.specs.Prelude.{◌≡◌, Bool, IfOk, IsTrue, OnOk, false, string_bytes};
ghost use Rattle.std.specs.Io.KnownBytes.{Appends};
ghost use Rattle.canvas_journal.specs.Meaning.{Versioned};
ghost use Rattle.app_admin.specs.Begun.{begun_line};

use crate::drafting::plant_whole;
use crate::traces::trace_in;
use app_faults::Fault;
use canvas_folder::{DirShelf, OsFolder};
use canvas_judge::State;
use canvas_lines::write_out;
use canvas_shelf::Shelf;
use std::alloc::{AllocError, Global};
use std::fs::File;
use std::io::Write;
use std::rt::Files;

/// The shelf of a folder that holds segments, for reading.
///
/// The errors: `NoSegment`, if it holds none, or `Gone`, if what is left beside them says that it did; `Device`; `Memory`.
pub(crate) fn existing<R: Files<File = File> + AllocGlobal + Clone + Drop>(
    files: R,
    dir: &str,
) -> Result<DirShelf<OsFolder<R>>, Fault> {
    let alloc = files.alloc();
    let mut shelf = DirShelf::existing(files.clone()?, dir)?;
    if shelf.list(alloc)?.is_empty() {
        return Err(none_of(&files, dir));
    }
    Ok(shelf)
}

// Why a folder holds no segment: it never did, or they have gone.
fn none_of<R: Files<File = File> + AllocGlobal + Clone + Drop>(files: &R, dir: &str) -> Fault {
    match trace_in(files, dir) {
        Ok(None) => Fault::NoSegment,
        Ok(Some(_)) => Fault::Gone,
        Err(fault) => fault,
    }
}

/// A place for a new document.
///
/// Contracts see it as `holds`, what is found there from then on, and say so of an honest one alone.
pub trait Ground {
    /// What is found there.
    ghost holds: { Self → Versioned → Type 0 };

    /// It holds what it was given.
    ghost honest: { Self → Bool };

    /// Puts a state and its version there, beside nothing of another document.
    ///
    /// The errors: those of `begin_folder` but for `Stream`.
    fn put(&mut self, state: &State, version: u64) -> Result<(), Fault>
        ensures holds { IsTrue (honest self.old) → OnOk result (holds self.new (state.now, version)) }
        ensures honest { honest self.new ≡ honest self.old };
}

/// The line of a document that was put somewhere: its version, and how many objects there are. Errors: out of memory.
pub fn begun_line(alloc: Global, state: &State, version: u64) -> Result<String, AllocError>
    ensures { IfOk result (λ line. string_bytes line ≡ begun_line (state.now, version)) }
{
    let count = state.doc().len();
    let line = format!(in alloc; "version {version}, objects {count}\n")?;
    Ok(line)
}

/// Puts a state and its version there, and then writes the version and how many objects there are.
///
/// The errors: those of `put`; and `Stream`, if the output failed, and then the document is there.
pub fn begin_on<G: Ground, W: Write>(
    alloc: Global,
    ground: &mut G,
    state: &State,
    version: u64,
    output: &mut W,
) -> Result<(), Fault>
    ensures holds { IsTrue (G.honest ground.old) → OnOk result (G.holds ground.new (state.now, version)) }
    ensures line { OnOk result (Appends (W.contents output.old) (W.contents output.new) (begun_line (state.now, version))) }
{
    let line = begun_line(alloc, state, version)?;
    ground.put(state, version)?;
    write_out(output, line.as_bytes())?;
    Ok(())
}

/// A new folder of the system, which is made if it is missing, and locked while it is filled. Nothing is claimed of what it holds.
#[derive(Drop)]
pub struct NewFolder<'a, R: Files<File = File> + AllocGlobal + Clone + Drop> {
    /// What makes files.
    pub files: R,
    /// The folder.
    pub dir: &'a str,
}

impl<R: Files<File = File> + AllocGlobal + Clone + Drop> Ground for NewFolder<'_, R> {
    ghost holds = { λ g s. Unit {0} };

    ghost honest = { λ g. false };

    fn put(&mut self, state: &State, version: u64) -> Result<(), Fault> {
        let files = &self.files;
        let mut shelf = DirShelf::new(files.clone()?, self.dir)?;
        let path = shelf.folder().path()?;
        if !shelf.list(files.alloc())?.is_empty() || trace_in(files, &path)?.is_some() {
            return Err(Fault::Taken);
        }
        plant_whole(files, &path, state, version)
    }
}

/// Puts a state and its version into a new folder, as `plant` does, and then writes the version and how many objects there are. The folder
/// is made where it is missing, and locked meanwhile; a crash leaves the whole document, or nothing that is opened. No file `identity` is made:
/// whoever serves the folder first gives it one, so that no client of another document goes on over this one.
///
/// The errors: `InUse`, where a server has the folder; `Taken`, where it holds a segment, or what is left of a document (`trace_in`), and then
/// nothing was written;
/// `Device`, where it can't be made, locked, read or written; `TooLarge`, where the checkpoint can't be written; `Memory`; and `Stream`,
/// where the output failed, and then the folder is made.
pub fn begin_folder<R: Files<File = File> + AllocGlobal + Clone + Drop, W: Write>(
    files: R,
    dir: &str,
    state: &State,
    version: u64,
    output: &mut W,
) -> Result<(), Fault>
    ensures { OnOk result (Appends (W.contents output.old) (W.contents output.new) (begun_line (state.now, version))) }
{
    let alloc = files.alloc();
    begin_on(alloc, &mut NewFolder { files, dir }, state, version, output)
}
