// What `canvasd serve` does: a room over the journal of a folder, each of whose seats answers one connection.
ghost use Rattle.std.specs.Prelude.{◌≡◌, IfErr, IfOk, IsTrue, OnOk, false, length, string_bytes, true};
ghost use Rattle.std.specs.Io.KnownBytes.{Appends};
ghost use Rattle.canvas_shelf.specs.Disk.{seen, top_is_listed};
ghost use Rattle.canvas_journal.specs.Found.{Finds, IsState};
ghost use Rattle.canvas_journal.specs.Meaning.{IsCountedByEntries, Versioned};
ghost use Rattle.canvas_daemon.specs.Faults.{IsMemoryOrDevice};
ghost use Rattle.canvas_daemon.specs.Served.{BeginsServing, BeginsServingAt, IsServeFault, WritesServed, WritesServedAt, served_line, serving_line};

use crate::closing::Closing;
use crate::fault::DaemonFault;
use canvas_board::{Opening, RoomName};
use canvas_desk::Desk;
use canvas_folder::{DirShelf, OsFolder, Removed};
use canvas_journal::{Journal, Keeper, open};
use canvas_room::{BlankRoom, Lock, Room, Seat, blank_room};
use canvas_shelf::Shelf;
use canvas_sockets::serve_one;
use room_handler::{Plain, SeatAnswerer};
use std::alloc::{AllocError, Global};
use std::io::Write;
use std::marker::Brand;
use std::net::{Ipv4Addr, Net, SocketAddr, TcpListener, TcpStream};
use std::sync::Wait;
use std::thread::{Threads, map_vec};

/// Listens at a port of the own machine, opens the document of a folder, which is made where it is missing, and serves so many
/// connections, each in a thread of its own. Writes `serving PORT version V` before it accepts the first, where V is the version that was
/// found, and `served N version W` after the last has ended. A connection whose handshake fails has ended.
///
/// The errors: `Device`, where the port, the folder or the output failed, and after the second line where the journal has failed
/// meanwhile; `Damaged`, for the first record of the journal that isn't what it has to be; `TooLarge`, where the journal has no room
/// for its checkpoint; `Memory`, if memory runs out; `Usage`, only for fewer connections than 1 or more than 64. With an error
/// other than `Device` nothing was written, or the first line alone. If the port can't be had, the folder is left alone. If no
/// thread can be made, connections are served one after the other.
pub fn serve<R, W>(
    rt: &R,
    files: HostRuntime,
    dir: &str,
    port: u16,
    connections: u32,
    output: &mut W,
) -> Result<(), DaemonFault>
where
    R: Net<Listener = TcpListener, Stream = TcpStream>
        + Threads
        + Wait
        + AllocGlobal
        + Clone
        + Send
        + Sync
        + Drop,
    W: Write,
    ensures told { OnOk result
        (WritesServed port connections (W.contents output.old) (W.contents output.new)) }
    ensures begun { IfErr result (λ fault. (fault ≡ DaemonFault.Device → ⊥) →
        BeginsServing port (W.contents output.old) (W.contents output.new)) }
    ensures faults { IfErr result (IsServeFault connections) }
{
    let listener = listen(rt, port)?;
    let (room, version, removed) = open_room(files, dir, connections)?;
    let door = Door {
        listener: &listener,
        removed: &removed,
    };
    serve_room::<Brand, _, _, _>(rt, room, version, door, port, output)
}

/// The room of a folder's document, without a name yet; the version at which it opens; and the files that the folder removes.
pub type FolderRoom = (
    BlankRoom<Journal<DirShelf<OsFolder<HostRuntime>>>>,
    u64,
    Removed,
);

/// The room of a folder's document, without a name yet, with so many seats; the version at which it opens; and the files that the folder
/// removes. The folder is made where it is missing.
///
/// The errors are those of `serve`.
pub fn open_room(files: HostRuntime, dir: &str, seats: u32) -> Result<FolderRoom, DaemonFault>
    ensures seats { IfOk result (λ opened. opened.0.seats ≡ seats) }
    ensures version { IfOk result (λ opened. opened.1 ≡ opened.0.opening.version) }
    ensures faults { IfErr result (IsServeFault seats) }
{
    let shelf = DirShelf::new(files, dir)?;
    let removed = shelf.folder().removed().share()?;
    let (room, version) = room_of(files.alloc(), shelf, seats)?;
    Ok((room, version, removed))
}

// The room of what a shelf holds, without a name yet, with so many seats, and the version at which it opens.
//
// The room of an honest shelf opens with what recovery finds there. That has two premises: no retired segment stands above the highest listed
// one, and no client of what is found has more judged edits than there are entries. Both hold of every shelf that a journal wrote.
fn room_of<S: Shelf + Drop>(
    alloc: Global,
    shelf: S,
    seats: u32,
) -> Result<(BlankRoom<Journal<S>>, u64), DaemonFault>
    requires top { IsTrue (S.honest shelf) → top_is_listed (S.disk shelf) ≡ true }
    requires counted { IsTrue (S.honest shelf) → (s : Versioned) → Finds (seen (S.disk shelf)) (IsState s) → IsCountedByEntries s }
    ensures found { IsTrue (S.honest shelf) → IfOk result (λ opened. Finds (seen (S.disk shelf)) (IsState (opened.0.opening.state, opened.0.opening.version))) }
    ensures seats { IfOk result (λ opened. opened.0.seats ≡ seats) }
    ensures version { IfOk result (λ opened. opened.1 ≡ opened.0.opening.version) }
    ensures faults { IfErr result (IsServeFault seats) }
{
    let (journal, state, version) = match open(alloc, shelf) {
        Ok(opened) => opened,
        Err((_shelf, error)) => return Err(DaemonFault::from(error)),
    };
    let opening = Opening { state, version };
    match blank_room(alloc, journal, opening, seats as usize) {
        Ok(room) => Ok((room, version)),
        Err((_journal, error)) => Err(DaemonFault::from(error)),
    }
}

/// Listens at a port of the own machine, or at any free one for 0.
pub(crate) fn listen<R: Net>(rt: &R, port: u16) -> Result<R::Listener, DaemonFault>
    ensures { IfErr result (λ fault. fault ≡ DaemonFault.Device) }
{
    let address = SocketAddr::from((Ipv4Addr::LOCALHOST, port));
    TcpListener::bind(rt, address).map_err(|_| DaemonFault::Device)
}

/// Where connections come from, and the files that are closed beside them.
#[derive(Clone, Copy)]
pub(crate) struct Door<'a> {
    pub(crate) listener: &'a TcpListener,
    pub(crate) removed: &'a Removed,
}

/// A room with its seats.
pub type Opened<K, N, R> = (Room<K, N, R>, Vec<Seat<N, Lock<K, N, R>>>);

/// The room with its seats, under a name. A room isn't opened only if memory runs out.
pub fn opened<N, K, R>(rt: &R, room: BlankRoom<K>) -> Result<Opened<K, N, R>, DaemonFault>
where
    N: RoomName,
    K: Keeper + Drop,
    R: Wait + Clone + Drop,
    requires book { room.book ≡ N.book }
    requires opening { room.opening ≡ N.opening }
    ensures seats { IfOk result (λ opened. length opened.1.items ≡ room.seats) }
    ensures fault { IfErr result (λ fault. fault ≡ DaemonFault.Memory) }
{
    match room.open::<N, R>(rt.clone()?) {
        Ok(opened) => Ok(opened),
        Err(_) => Err(DaemonFault::Memory),
    }
}

// Serves one connection for each seat of a room that opens at this version, and tells of it.
fn serve_room<N, K, R, W>(
    rt: &R,
    room: BlankRoom<K>,
    version: u64,
    door: Door<'_>,
    port: u16,
    output: &mut W,
) -> Result<(), DaemonFault>
where
    N: RoomName + Send + Sync,
    K: Keeper + Drop + Send,
    R: Threads + Wait + AllocGlobal + Clone + Send + Sync + Drop,
    W: Write,
    requires book { room.book ≡ N.book }
    requires opening { room.opening ≡ N.opening }
    requires version { version ≡ room.opening.version }
    ensures told { OnOk result
        (WritesServedAt room.opening.version port room.seats (W.contents output.old) (W.contents output.new)) }
    ensures begun { IfErr result (λ fault. (fault ≡ DaemonFault.Device → ⊥) →
        BeginsServingAt room.opening.version port (W.contents output.old) (W.contents output.new)) }
    ensures faults { IfErr result IsMemoryOrDevice }
{
    let (room, seats) = opened::<N, K, R>(rt, room)?;
    let count = seats.len();
    write_line(output, serving_line(rt.alloc(), port, version)?)?;
    serve_seats(rt, door, seats)?;
    let desk = room.desk(rt);
    let last = desk.version();
    let ended = check_journal(&desk);
    drop(desk);
    write_line(output, served_line(rt.alloc(), count, last)?)?;
    ended
}

// That the journal hasn't failed, or Device.
fn check_journal<K: Keeper, N: RoomName, R: Wait + Drop>(
    desk: &Desk<K, N, R>,
) -> Result<(), DaemonFault>
    ensures ok { OnOk result (desk.now.failed ≡ false) }
    ensures err { IfErr result (λ fault. (fault ≡ DaemonFault.Device) × (desk.now.failed ≡ true)) }
{
    if desk.has_failed() {
        return Err(DaemonFault::Device);
    }
    Ok(())
}

// The line of a server that begins.
fn serving_line(alloc: Global, port: u16, version: u64) -> Result<String, AllocError>
    ensures { IfOk result (λ line. string_bytes line ≡ serving_line port version) }
{
    format!(in alloc; "serving {port} version {version}\n")
}

// The line of a server that has ended.
fn served_line(alloc: Global, count: usize, version: u64) -> Result<String, AllocError>
    ensures { IfOk result (λ line. string_bytes line ≡ served_line count version) }
{
    format!(in alloc; "served {count} version {version}\n")
}

/// Accepts a connection for each seat, and serves each in a thread of its own. Returns once all have ended.
///
/// The errors: `Device`, where a connection wasn't accepted; `Memory`, if memory runs out.
fn serve_seats<N, K, R>(
    rt: &R,
    door: Door<'_>,
    seats: Vec<Seat<N, Lock<K, N, R>>>,
) -> Result<(), DaemonFault>
where
    N: RoomName + Send + Sync,
    K: Keeper + Drop + Send,
    R: Threads + Wait + AllocGlobal + Clone + Send + Sync + Drop,
    ensures { IfErr result IsMemoryOrDevice }
{
    let ended = map_vec(rt, seats, &|seat| serve_next(rt, door, seat))?;
    for end in ended {
        end?;
    }
    Ok(())
}

/// Accepts a connection, and serves it until it ends.
///
/// The errors: `Device`, where no connection was accepted; `Memory`, if memory runs out.
pub(crate) fn serve_next<N, K, R>(
    rt: &R,
    door: Door<'_>,
    seat: Seat<N, Lock<K, N, R>>,
) -> Result<(), DaemonFault>
where
    N: RoomName,
    K: Keeper + Drop,
    R: Wait + AllocGlobal + Clone + Drop,
    ensures { IfErr result IsMemoryOrDevice }
{
    let (stream, _address) = door.listener.accept().map_err(|_| DaemonFault::Device)?;
    serve_stream(rt, seat, stream, door.removed.share()?)
}

/// Serves a connection until it ends, and closes beside it what the folder removes. How it ended isn't told. The errors: `Memory`, where
/// memory ran out.
pub(crate) fn serve_stream<N, K, R>(
    rt: &R,
    seat: Seat<N, Lock<K, N, R>>,
    stream: TcpStream,
    removed: Removed,
) -> Result<(), DaemonFault>
where
    N: RoomName,
    K: Keeper + Drop,
    R: Wait + AllocGlobal + Clone + Drop,
    ensures { IfErr result IsMemoryOrDevice }
{
    let alloc = rt.alloc();
    // Each answer leaves at once; without this some would wait for an acknowledgement.
    let _ = stream.set_nodelay(true);
    let seated = SeatAnswerer::new(alloc, rt.clone()?, seat, Plain);
    let mut answerer = Closing::new(seated, removed);
    if let Ok(mut socket) = tungstenite::accept(alloc, stream) {
        let _ended = serve_one(alloc, &mut answerer, &mut socket);
    }
    Ok(())
}

// Writes a line, and flushes the output.
fn write_line<W: Write>(output: &mut W, line: String) -> Result<(), DaemonFault>
    ensures bytes { OnOk result
        (Appends (W.contents output.old) (W.contents output.new) (string_bytes line)) }
    ensures fault { IfErr result (λ fault. fault ≡ DaemonFault.Device) }
{
    canvas_lines::write_out(output, line.as_bytes())?;
    Ok(())
}
