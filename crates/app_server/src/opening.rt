// What a server has before it serves: its port, and the room of its document.
ghost use Rattle.std.specs.Prelude.{◌≡◌, IfErr, IfOk, IsTrue, None, OnOk, Option, false, length, true};
ghost use Rattle.app_admin.specs.Losing.{TellsLoss};
ghost use Rattle.disk_integrity.specs.declared.trace.Trace.{Trace};
ghost use Rattle.canvas_shelf.specs.Disk.{seen, top_is_listed};
ghost use Rattle.canvas_journal.specs.Found.{Finds, IsState};
ghost use Rattle.canvas_journal.specs.Meaning.{IsCountedByEntries, Versioned};
ghost use Rattle.app_storage.specs.Faults.{IsOpeningFault, IsPortFault};
ghost use Rattle.app_server.specs.Rooms.{HasSeatsFor, OpensAsFound, fault_of_room_error};

use app_faults::Fault;
use app_identity::read_identity;
use app_metrics::{Meter, Metered};
use app_storage::{FolderShelf, guard, remove_torn, set_torn_aside, with_refusal};
use canvas_board::{Opening, RoomName};
use canvas_folder::{DirShelf, Folder, OsFolder, Removed, Space};
use canvas_journal::{Journal, Keeper, open};
use canvas_room::{BlankRoom, Lock, Room, RoomError, Seat, blank_room};
use canvas_shelf::Shelf;
use disk_integrity::{Notes, SumFiles, Watched};
use std::alloc::Global;
use std::io::ErrorKind;
use std::net::{Ipv4Addr, Net, SocketAddr, TcpListener};
use std::sync::{Arc, Wait};

/// Listens at a port of the own machine, or at any free one for 0.
pub(crate) fn listen<R: Net>(rt: &R, port: u16) -> Result<R::Listener, Fault>
    ensures { IfErr result IsPortFault }
{
    let address = SocketAddr::from((Ipv4Addr::LOCALHOST, port));
    match TcpListener::bind(rt, address) {
        Ok(listener) => Ok(listener),
        Err(error) => Err(match error.kind() {
            ErrorKind::AddrInUse => Fault::PortInUse,
            ErrorKind::PermissionDenied => Fault::PortDenied,
            _ => Fault::NoPort,
        }),
    }
}

/// The journal of a shelf, which is counted.
pub(crate) type Counted<S> = Metered<Journal<S>, HostRuntime>;

/// The shelf of a folder of the process.
pub(crate) type OwnFolder = FolderShelf<OsFolder<HostRuntime>>;

/// The journal of a folder, which is counted.
pub(crate) type FolderJournal = Counted<OwnFolder>;

/// The room of a document, without a name yet, and what is counted and noted of its journal.
#[derive(Drop)]
pub(crate) struct OpenRoom<K: Keeper> {
    /// The room.
    pub(crate) room: BlankRoom<K>,
    /// What its journal counts.
    pub(crate) meter: Arc<Meter, Global>,
    /// What is noted of its shelf's calls.
    pub(crate) notes: Notes,
}

/// The room of a folder's document, and what else is known of the folder.
pub(crate) struct OpenFolder {
    /// The room.
    pub(crate) opened: OpenRoom<FolderJournal>,
    /// The files that the folder removes.
    pub(crate) removed: Removed,
    /// The refused checkpoints.
    pub(crate) space: Space,
    /// The path by which other files of the folder are reached.
    pub(crate) path: String,
}

/// Opens the room of a folder's document, with the seats of so many workers. The folder is made where it is missing, and locked. If opening it would lose
/// something, nothing is opened, unless that is accepted; nor if its identity isn't one, or the disk has no room for another segment. What crashes
/// left of checkpoints is removed first.
pub(crate) fn open_room(
    files: HostRuntime,
    dir: &str,
    workers: usize,
    accept_loss: bool,
) -> Result<OpenFolder, Fault>
    ensures seats { IfOk result (λ folder. HasSeatsFor workers folder.opened.room.seats) }
    ensures faults { IfErr result (IsOpeningFault workers) }
{
    if let Err(fault) = set_torn_aside(&files, dir) {
        return Err(fault);
    }
    let mut folder = OsFolder::new(files, dir)?;
    let space = folder.keep_space()?;
    let shelf = DirShelf::open(files.alloc(), folder)?;
    let path = shelf.folder().path()?;
    let removed = shelf.folder().removed().share()?;
    match open_locked(files, shelf, &path, workers, accept_loss) {
        Ok(opened) => Ok(OpenFolder {
            opened,
            removed,
            space,
            path,
        }),
        Err(fault) => Err(with_refusal(fault, space.last())),
    }
}

/// Opens the room of the document of a folder that is locked, whose other files are at this path, with the seats of so many workers.
///
/// Over an honest folder whose segments a journal wrote (`room_of` has the two premises): if no loss is accepted, none is passed, with some
/// trace of a document beside them; and the room opens with what recovery finds in its segments.
fn open_locked<F: Folder + Drop>(
    files: HostRuntime,
    mut shelf: DirShelf<F>,
    path: &str,
    workers: usize,
    accept_loss: bool,
) -> Result<OpenRoom<Counted<FolderShelf<F>>>, Fault>
    requires top { IsTrue (⟦<DirShelf<F> as Shelf>⟧.honest shelf) → top_is_listed (⟦<DirShelf<F> as Shelf>⟧.disk shelf) ≡ true }
    requires counted { IsTrue (⟦<DirShelf<F> as Shelf>⟧.honest shelf) → (s : Versioned) → Finds (seen (⟦<DirShelf<F> as Shelf>⟧.disk shelf)) (IsState s) → IsCountedByEntries s }
    ensures whole { IsTrue (⟦<DirShelf<F> as Shelf>⟧.honest shelf) → OnOk result (accept_loss ≡ false → (trace : Option Trace) × TellsLoss (⟦<DirShelf<F> as Shelf>⟧.disk shelf) trace None) }
    ensures found { IsTrue (⟦<DirShelf<F> as Shelf>⟧.honest shelf) → IfOk result (λ opened. OpensAsFound (⟦<DirShelf<F> as Shelf>⟧.disk shelf) opened.room.opening) }
    ensures seats { IfOk result (λ opened. HasSeatsFor workers opened.room.seats) }
    ensures faults { IfErr result (IsOpeningFault workers) }
{
    if let Err(fault) = guard(&files, path, &mut shelf, accept_loss) {
        return Err(fault);
    }
    // Nothing is written to a folder whose identity can't be read.
    read_identity(&files, path)?;
    remove_torn(&files, path);
    let shelf = Watched::new(files.alloc(), shelf, SumFiles::new(files, path)?)?;
    let notes = shelf.notes().share()?;
    room_of(
        files,
        FolderShelf::new(files.alloc(), shelf)?,
        notes,
        workers,
    )
}

/// Opens the room of what a shelf holds, with the seats of so many workers.
///
/// The room of an honest shelf opens with what recovery finds there, and a crash just then is found to hold it.
/// That has two premises: no retired segment stands above the highest listed one, and no client of what is found has more judged edits than
/// there are entries. Both hold of every shelf that a journal wrote.
pub(crate) fn room_of<S: Shelf + Drop>(
    files: HostRuntime,
    shelf: S,
    notes: Notes,
    workers: usize,
) -> Result<OpenRoom<Counted<S>>, Fault>
    requires top { IsTrue (S.honest shelf) → top_is_listed (S.disk shelf) ≡ true }
    requires counted { IsTrue (S.honest shelf) → (s : Versioned) → Finds (seen (S.disk shelf)) (IsState s) → IsCountedByEntries s }
    ensures found { IsTrue (S.honest shelf) → IfOk result (λ opened. OpensAsFound (S.disk shelf) opened.room.opening) }
    ensures seats { IfOk result (λ opened. HasSeatsFor workers opened.room.seats) }
    ensures faults { IfErr result (IsOpeningFault workers) }
{
    let alloc = files.alloc();
    let (journal, state, version) = match open(alloc, shelf) {
        Ok(opened) => opened,
        Err((_shelf, error)) => return Err(Fault::from(error)),
    };
    let meter = Arc::new(alloc, Meter::new(version))?;
    let keeper = Metered::new(journal, files, Arc::try_clone(&meter)?);
    let seats = seats_of(workers);
    match blank_room(alloc, keeper, Opening { state, version }, seats) {
        Ok(room) => Ok(OpenRoom { room, meter, notes }),
        Err((_keeper, error)) => Err(fault_of_room(error)),
    }
}

// Returns how many seats a room has for so many workers: two for each, and one for copies.
fn seats_of(workers: usize) -> usize
    ensures { HasSeatsFor workers result }
{
    workers.saturating_mul(2).saturating_add(1)
}

// What it means that a room isn't made.
fn fault_of_room(error: RoomError) -> Fault
    ensures { result ≡ fault_of_room_error error }
{
    match error {
        RoomError::SeatCount => Fault::WorkerCount,
        RoomError::NoPlace | RoomError::Memory => Fault::Memory,
    }
}

// A room with its seats.
type Opened<K, N, R> = (Room<K, N, R>, Vec<Seat<N, Lock<K, N, R>>>);

/// The room under a name, with its seats.
pub(crate) fn opened<N, K, R>(rt: &R, room: BlankRoom<K>) -> Result<Opened<K, N, R>, Fault>
where
    N: RoomName,
    K: Keeper + Drop,
    R: Wait + Clone + Drop,
    requires book { room.book ≡ N.book }
    requires opening { room.opening ≡ N.opening }
    ensures seats { IfOk result (λ opened. length opened.1.items ≡ room.seats) }
    ensures fault { IfErr result (λ fault. fault ≡ Fault.Memory) }
{
    match room.open::<N, R>(rt.clone()?) {
        Ok(opened) => Ok(opened),
        Err(_) => Err(Fault::Memory),
    }
}
