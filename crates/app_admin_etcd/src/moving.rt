// A document that is moved from a folder into an etcd, and back.
ghost use Rattle.std.specs.Prelude.{◌≡◌, IfOk, IsTrue, OnOk, true};
ghost use Rattle.std.specs.Io.KnownBytes.{Appends};
ghost use Rattle.canvas_shelf.specs.Disk.{top_is_listed};
ghost use Rattle.app_admin.specs.Begun.{WritesBegun, begun_line};
ghost use Rattle.app_admin_etcd.specs.Carried.{IsCarried, IsHandedOver};

use crate::carrying::carry;
use crate::opening::{Remote, taken};
use crate::sides::{DocumentSide, FolderSide, MoveFault, Side};
use app_admin::{FolderHome, begun_line, check};
use app_faults::{Fault, of_document};
use app_identity::Address;
use app_storage::Held;
use canvas_folder::{DirShelf, OsFolder};
use canvas_judge::State;
use canvas_lines::write_out;
use canvas_shelf::Shelf;
use std::alloc::Global;
use std::fs::File;
use std::io::Write;
use std::net::{Net, TcpListener, TcpStream};
use std::random::RandomSource;
use std::rt::Files;
use std::sync::Wait;
use std::thread::Threads;
use std::time::Clock;

// Carries the document that a shelf holds into another, which lists no segment, as `carry` does, and gives its identity from the one side to the
// other. Answers what was carried.
fn move_over<S: Shelf, F: Side, T: Shelf, G: Side>(
    alloc: Global,
    from: &mut S,
    from_side: &mut F,
    to: &mut T,
    to_side: &mut G,
) -> Result<(State, u64), MoveFault>
    requires { IsTrue (T.honest to.old) → top_is_listed (T.disk to.old) ≡ true }
    ensures carried { IsTrue (S.honest from.old) → IsTrue (T.honest to.old) → IfOk result (λ s. IsCarried (S.disk from.old) (T.disk to.new) (s.0, s.1)) }
    ensures unchanged { IsTrue (S.honest from.old) → (S.disk from.new ≡ S.disk from.old) × (S.past from.new ≡ S.past from.old) }
    ensures identity { IsTrue (F.honest from_side.old) → IsTrue (G.honest to_side.old) →
        OnOk result (IsHandedOver (F.held from_side.old) (F.held from_side.new) (G.held to_side.old) (G.held to_side.new)) }
{
    match carry(alloc, from, to) {
        Ok(found) => {
            hand_over(from_side, to_side)?;
            Ok(found)
        }
        Err(fault) => Err(fault_of(fault, &*from_side, &*to_side)),
    }
}

// Takes the identity from the one side, if it has one, and gives it to the other.
fn hand_over<F: Side, G: Side>(from: &mut F, to: &mut G) -> Result<(), MoveFault>
    ensures { IsTrue (F.honest from.old) → IsTrue (G.honest to.old) → OnOk result (IsHandedOver (F.held from.old) (F.held from.new) (G.held to.old) (G.held to.new)) }
{
    if let Some(text) = from.identity()? {
        from.remove_identity()?;
        to.keep_identity(&text)?;
    }
    Ok(())
}

// Of which side a fault of carrying a document is.
fn fault_of<F: Side, G: Side>(fault: Fault, from: &F, to: &G) -> MoveFault {
    match fault {
        Fault::Damaged { segment, offset } => from.fault(Fault::Damaged { segment, offset }),
        Fault::Device => fault_of_device(from, to),
        fault => to.fault(fault),
    }
}

// Which of the two devices failed while a document was carried. A folder notes nothing: if neither side has noted a failure, it is the folder's.
fn fault_of_device<F: Side, G: Side>(from: &F, to: &G) -> MoveFault {
    match from.noted() {
        Some(fault) => fault,
        None => match to.noted() {
            Some(fault) => fault,
            None => MoveFault::Folder(Fault::Device),
        },
    }
}

/// Moves the document of a folder into an etcd, where there is none of this name yet, and then writes its version and how many objects there
/// are. Its identity goes with it, so that clients go on over it there; the segments stay in the folder, which gets another identity if it is
/// ever served again. The folder is checked first, as `check` of `app_admin` does.
///
/// The faults of the folder: `NoSegment`, `InUse`, `Damaged`, `Identity`, `ChangedIdentity`, `Device`, `Memory`, and `Stream` where the output failed; of the document:
/// `InUse`, `Taken`, `NoStore`, `NoThread`, `TooLarge`, `Memory`. If the etcd has failed, the document may be in both places, and its identity in one or
/// in none: then clients begin anew.
pub fn move_in<R, D, W>(
    net: &R,
    files: D,
    dir: &str,
    address: &Address,
    output: &mut W,
) -> Result<(), MoveFault>
where
    R: Net<Listener = TcpListener, Stream = TcpStream>
        + Threads
        + Wait
        + Clock
        + RandomSource
        + AllocGlobal
        + Clone
        + Send
        + Drop
        + 'static,
    D: Files<File = File> + AllocGlobal + Clone + Drop,
    W: Write,
    ensures { OnOk result (WritesBegun (W.contents output.old) (W.contents output.new)) }
{
    let alloc = net.alloc();
    look_first(&files, dir)?;
    let (mut folder, mut own) = locked(&files, dir)?;
    // Nothing is written if the identity can't be read.
    own.identity()?;
    let Held {
        mut shelf,
        causes,
        lease,
        kept,
    } = document(net, address)?;
    let mut side = DocumentSide { causes, lease };
    let done = move_over(alloc, &mut folder, &mut own, &mut shelf, &mut side);
    kept.release(net);
    let (state, version) = done?;
    told(alloc, &state, version, output)
}

/// Moves a document out of an etcd into a new folder, and then writes its version and how many objects there are. Its identity goes with it;
/// the segments stay in the etcd, where the document gets another identity if it is ever served again.
///
/// The faults of the folder: `Taken`, where it holds a segment or an identity, `Identity`, `ChangedIdentity`, `InUse`, `Device`, `TooLarge`, `Memory`, and `Stream` where the
/// output failed; of the document: `NoSegment`, `InUse`, `Damaged`, `Identity`, `NoStore`, `NoThread`, `Memory`. If a fault came late, the document may be in both
/// places, and its identity in one or in none: then clients begin anew.
pub fn move_out<R, D, W>(
    net: &R,
    files: D,
    dir: &str,
    address: &Address,
    output: &mut W,
) -> Result<(), MoveFault>
where
    R: Net<Listener = TcpListener, Stream = TcpStream>
        + Threads
        + Wait
        + Clock
        + RandomSource
        + AllocGlobal
        + Clone
        + Send
        + Drop
        + 'static,
    D: Files<File = File> + AllocGlobal + Clone + Drop,
    W: Write,
    ensures { OnOk result (WritesBegun (W.contents output.old) (W.contents output.new)) }
{
    let alloc = net.alloc();
    let Held {
        mut shelf,
        causes,
        lease,
        kept,
    } = document(net, address)?;
    let mut side = DocumentSide { causes, lease };
    let done = move_to(&files, dir, &mut shelf, &mut side);
    kept.release(net);
    let (state, version) = done?;
    told(alloc, &state, version, output)
}

// Moves a document that is taken over into a folder that has no identity.
fn move_to<R, D>(
    files: &D,
    dir: &str,
    shelf: &mut Remote<R>,
    side: &mut DocumentSide<R>,
) -> Result<(State, u64), MoveFault>
where
    R: Net<Stream = TcpStream> + Clock + RandomSource + AllocGlobal + Clone + Drop,
    D: Files<File = File> + AllocGlobal + Clone + Drop,
{
    let alloc = files.alloc();
    is_there(alloc, shelf, side)?;
    let (mut folder, mut own) = locked(files, dir)?;
    if own.identity()?.is_some() {
        return Err(MoveFault::Folder(Fault::Taken));
    }
    move_over(alloc, shelf, side, &mut folder, &mut own)
}

// Checks a folder that holds segments.
fn look_first<D: Files<File = File> + AllocGlobal + Clone + Drop>(
    files: &D,
    dir: &str,
) -> Result<(), MoveFault> {
    let alloc = files.alloc();
    let mut lines: Vec<u8> = Vec::new(alloc);
    let mut home = FolderHome {
        files: files.clone()?,
        dir,
    };
    match check(alloc, &mut home, &mut lines) {
        Ok(()) => Ok(()),
        Err(fault) => Err(MoveFault::Folder(fault)),
    }
}

// A folder that is locked for as long as its shelf is there, and made where it is missing.
fn locked<D: Files<File = File> + AllocGlobal + Clone + Drop>(
    files: &D,
    dir: &str,
) -> Result<(DirShelf<OsFolder<D>>, FolderSide<D>), MoveFault> {
    let shelf = match DirShelf::new(files.clone()?, dir) {
        Ok(shelf) => shelf,
        Err(error) => return Err(MoveFault::Folder(Fault::from(error))),
    };
    let path = match shelf.folder().path() {
        Ok(path) => path,
        Err(error) => return Err(MoveFault::Folder(Fault::from(error))),
    };
    let files = files.clone()?;
    Ok((shelf, FolderSide { files, path }))
}

// A document that is taken over.
fn document<R>(net: &R, address: &Address) -> Result<Held<R>, MoveFault>
where
    R: Net<Listener = TcpListener, Stream = TcpStream>
        + Threads
        + Wait
        + Clock
        + RandomSource
        + AllocGlobal
        + Clone
        + Send
        + Drop
        + 'static,
{
    match taken(net, address) {
        Ok(taken) => Ok(taken),
        Err(fault) => Err(MoveFault::Document(fault)),
    }
}

// Fails where there is no such document.
fn is_there<R>(
    alloc: Global,
    shelf: &mut Remote<R>,
    side: &DocumentSide<R>,
) -> Result<(), MoveFault>
where
    R: Net<Stream = TcpStream> + Clock + RandomSource + AllocGlobal + Clone + Drop,
{
    match shelf.list(alloc) {
        Ok(listed) if listed.is_empty() => { Err(MoveFault::Document(Fault::NoSegment)) }
        Ok(_) => Ok(()),
        Err(error) => {
            let fault = of_document(Fault::from(error), side.causes.last());
            Err(MoveFault::Document(fault))
        }
    }
}

// Writes the version of a document that was moved, and how many objects there are.
fn told<W: Write>(
    alloc: Global,
    state: &State,
    version: u64,
    output: &mut W,
) -> Result<(), MoveFault>
    ensures { OnOk result (WritesBegun (W.contents output.old) (W.contents output.new)) }
{
    match tell_begun(alloc, state, version, output) {
        Ok(()) => Ok(()),
        Err(fault) => Err(MoveFault::Folder(fault)),
    }
}

// Writes the line of a document.
fn tell_begun<W: Write>(
    alloc: Global,
    state: &State,
    version: u64,
    output: &mut W,
) -> Result<(), Fault>
    ensures { OnOk result (Appends (W.contents output.old) (W.contents output.new) (begun_line (state.now, version))) }
{
    let line = begun_line(alloc, state, version)?;
    write_out(output, line.as_bytes())?;
    Ok(())
}
