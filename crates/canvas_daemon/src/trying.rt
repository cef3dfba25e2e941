// What `canvasd trial` does: a server and two clients in one process.
ghost use Rattle.std.specs.Prelude.{◌≡◌, ◌↔◌, IfErr, IfOk, IsTrue, Result, string_bytes};
ghost use Rattle.canvas_daemon.specs.Faults.{IsMemoryOrDevice};
ghost use Rattle.canvas_daemon.specs.Served.{IsServeFault};
ghost use Rattle.canvas_lines.specs.Reports.{IsReportText};
ghost use Rattle.canvas_daemon.specs.Trials.{WritesTrial, equal_word, trial_line};

use crate::editing::connect;
use crate::fault::DaemonFault;
use crate::node::LinkedClient;
use crate::serving::{Door, listen, open_room, opened, serve_next};
use canvas_board::RoomName;
use canvas_client::{Client, EditError};
use canvas_doc::{Kind, ObjId};
use canvas_journal::Keeper;
use canvas_lines::{report_text, write_out};
use canvas_room::{BlankRoom, Lock, Seat};
use std::alloc::{AllocError, Global};
use std::io::Write;
use std::marker::Brand;
use std::net::{Net, TcpListener, TcpStream};
use std::random::RandomSource;
use std::sync::{Barrier, Wait};
use std::thread::{Promise, PromisedHandle, Threads, join_promised, scope, scope_env};
use std::time::Duration;

/// How many shapes each client makes on its page.
const SHAPES: u32 = 7;

/// For how many seconds a client waits for an answer.
const SILENCE_SECONDS: u64 = 60;

/// Serves the document of a folder at a free port of the own machine to two clients, in four threads of this process. Each makes a
/// page and seven shapes on it, each after the former, while the other does, and exchanges; when both have, each exchanges again.
/// Writes `trial version V equal yes`, or `no` where their documents or versions differ, and answers which.
///
/// The errors: `Device`, where the folder, a socket or the output failed, a thread couldn't be made, or an edit was refused; `Damaged`,
/// `TooLarge` and `Memory`, as `serve` answers them. With an error other than `Device` nothing was written.
pub fn trial<R, W>(
    rt: &R,
    files: HostRuntime,
    dir: &str,
    output: &mut W,
) -> Result<bool, DaemonFault>
where
    R: Net<Listener = TcpListener, Stream = TcpStream>
        + RandomSource
        + Threads
        + Wait
        + AllocGlobal
        + Clone
        + Send
        + Sync
        + Drop,
    W: Write,
    ensures told { IfOk result (λ equal.
        WritesTrial equal (W.contents output.old) (W.contents output.new)) }
    ensures unwritten { IfErr result (λ fault. (fault ≡ DaemonFault.Device → ⊥) → W.contents output.new ≡ W.contents output.old) }
    ensures faults { IfErr result (IsServeFault 2) }
{
    let listener = listen(rt, 0)?;
    let (room, _version, removed) = open_room(files, dir, 2)?;
    let door = Door {
        listener: &listener,
        removed: &removed,
    };
    let (version, equal) = try_room::<Brand, _, _>(rt, room, door)?;
    let line = trial_line(rt.alloc(), version, equal)?;
    write_out(output, line.as_bytes())?;
    Ok(equal)
}

// The line of a trial.
fn trial_line(alloc: Global, version: u64, equal: bool) -> Result<String, AllocError>
    ensures { IfOk result (λ line. string_bytes line ≡ trial_line version equal) }
{
    let word = equal_word(equal);
    format!(in alloc; "trial version {version} equal {word}\n")
}

// Checks whether the clients agree, in a word.
fn equal_word(equal: bool) -> &'static str
    ensures { result.now ≡ equal_word equal }
{
    if equal { "yes" } else { "no" }
}

// Serves two clients from a room of two seats. Answers the first one's version, and whether they agree.
fn try_room<N, K, R>(rt: &R, room: BlankRoom<K>, door: Door<'_>) -> Result<(u64, bool), DaemonFault>
where
    N: RoomName + Send + Sync,
    K: Keeper + Drop + Send,
    R: Net<Listener = TcpListener, Stream = TcpStream>
        + RandomSource
        + Threads
        + Wait
        + AllocGlobal
        + Clone
        + Send
        + Sync
        + Drop,
    requires book { room.book ≡ N.book }
    requires opening { room.opening ≡ N.opening }
    ensures { IfErr result IsMemoryOrDevice }
{
    let (_room, seats) = opened::<N, K, R>(rt, room)?;
    let address = door.listener.local_addr().map_err(|_| DaemonFault::Device)?;
    // Both connections stand before one is accepted, so that none is waited for that never comes.
    let first = connect_for_a_while(rt, address.port())?;
    let second = connect_for_a_while(rt, address.port())?;
    let serve = |seat: Seat<N, Lock<K, N, R>>| -> Result<(), DaemonFault>
        ensures { IfErr result IsMemoryOrDevice }
    { serve_next(rt, door, seat) };
    edit_both(rt, seats, &serve, first, second)
}

// Connects to a port of the own machine. Reading fails where nothing comes for a minute: so a client ends whose connection no seat took,
// since accepting one failed.
fn connect_for_a_while<R: Net<Stream = TcpStream>>(
    rt: &R,
    port: u16,
) -> Result<TcpStream, DaemonFault>
    ensures { IfErr result (λ fault. fault ≡ DaemonFault.Device) }
{
    let stream = connect(rt, port)?;
    let silence = Some(Duration::from_secs(SILENCE_SECONDS));
    stream
        .set_read_timeout(silence)
        .map_err(|_| DaemonFault::Device)?;
    Ok(stream)
}

// That a thread ends with no other error than out of memory or a failed device.
#[derive(Clone, Copy)]
struct MemoryOrDevice;

impl<T> Promise<Result<T, DaemonFault>> for MemoryOrDevice {
    ghost kept_by = { λ _ result. IfErr result IsMemoryOrDevice };
}

// A thread that serves a connection.
type Server = PromisedHandle<Result<(), DaemonFault>, MemoryOrDevice>;

// Edits by two clients at once, while each seat serves one of them. Answers the first one's version, and whether they show the same.
//
// No client begins before each seat has its thread. If a thread can't be made, the clients' streams are closed, by which the threads
// that there are end.
fn edit_both<S, F, R>(
    rt: &R,
    seats: Vec<S>,
    serve: &F,
    first: TcpStream,
    second: TcpStream,
) -> Result<(u64, bool), DaemonFault>
where
    S: Send + Drop,
    F: Fn(S) -> Result<(), DaemonFault> + Sync,
    R: RandomSource + Threads + Wait + AllocGlobal + Clone + Send + Sync + Drop,
    requires runs { (seat : S) → F.pre serve.now seat }
    requires keeps { (seat : S) (result : Result Unit DaemonFault) → F.post serve.now seat result → IfErr result IsMemoryOrDevice }
    ensures { IfErr result IsMemoryOrDevice }
{
    let both = Barrier::new(2);
    let both = &both;
    scope(
        scope_env(),
        rt,
        move |threads| -> Result<(u64, bool), DaemonFault>
            requires runs { (seat : S) → F.pre serve.now seat }
            requires keeps { (seat : S) (result : Result Unit DaemonFault) → F.post serve.now seat result → IfErr result IsMemoryOrDevice }
            ensures { IfErr result IsMemoryOrDevice }
        {
            let mut servers = Vec::new(rt.alloc());
            for seat in seats {
                let run = move || serve(seat);
                let server = threads.spawn_with(MemoryOrDevice, run);
                servers.push(server.map_err(|_| DaemonFault::Device)?)?;
            }
            let edit = move || edited(rt, first, both);
            let client = threads.spawn_with(MemoryOrDevice, edit);
            let client = client.map_err(|_| DaemonFault::Device)?;
            let second = edited(rt, second, both);
            let first = client.join(rt);
            all_served(rt, servers)?;
            Ok(compared(&first?, &second?))
        },
    )
}

// Waits until all have ended. The error is that of the first that failed.
fn all_served<R: Threads>(rt: &R, servers: Vec<Server>) -> Result<(), DaemonFault>
    ensures { IfErr result IsMemoryOrDevice }
{
    for served in join_promised(rt, servers)? {
        served?;
    }
    Ok(())
}

// The first one's version, and whether both show the same.
fn compared(first: &Shown, second: &Shown) -> (u64, bool)
    ensures version { result.0 ≡ first.now.version }
    ensures equal { IsTrue result.1 ↔ (first.now.text.items ≡ second.now.text.items) }
{
    (first.version, first.text == second.text)
}

// What a client shows: its version, and the report of its document at that version.
#[derive(Drop)]
struct Shown {
    version: u64,
    text: Vec<u8>,
}

// What a client shows that has made its page and sent it, once the other has too.
fn edited<R>(rt: &R, stream: TcpStream, both: &Barrier) -> Result<Shown, DaemonFault>
where
    R: RandomSource + Wait + AllocGlobal + Clone + Drop,
    ensures { IfErr result IsMemoryOrDevice }
{
    let edited = sent(rt, stream);
    // One that failed comes here too, so that the other doesn't wait for ever.
    both.wait(rt);
    let mut node = edited?;
    node.exchange(rt.alloc())?;
    Ok(show_client(rt.alloc(), node.client())?)
}

// What this client shows.
fn show_client(alloc: Global, client: &Client) -> Result<Shown, AllocError>
    ensures version { IfOk result (λ shown. shown.version ≡ client.now.version) }
    ensures report { IfOk result (λ shown. IsReportText client.now.version client.now.view shown.text.items) }
{
    let version = client.version();
    let text = report_text(alloc, version, client.view())?;
    Ok(Shown { version, text })
}

// A client that has made its page and sent it.
fn sent<R>(rt: &R, stream: TcpStream) -> Result<LinkedClient<R>, DaemonFault>
where
    R: RandomSource + AllocGlobal + Clone + Drop,
    ensures { IfErr result IsMemoryOrDevice }
{
    let mut node = LinkedClient::joined(rt, stream)?;
    match make_page(&mut node) {
        Ok(()) => {}
        Err(EditError::Memory) => return Err(DaemonFault::Memory),
        Err(_) => return Err(DaemonFault::Device),
    }
    node.exchange(rt.alloc())?;
    Ok(node)
}

// Makes a page, and shapes on it, each after the former.
fn make_page<R>(node: &mut LinkedClient<R>) -> Result<(), EditError>
where
    R: RandomSource + AllocGlobal + Clone + Drop,
{
    let page = node.create(Kind::Page, ObjId::ROOT, None)?;
    let mut last = None;
    for _ in 0..SHAPES {
        let shape = node.create(Kind::Shape, page, last)?;
        last = Some(shape);
    }
    Ok(())
}
