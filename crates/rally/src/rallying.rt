// A rally: a room over the journal of a folder, with a node at each of its seats.
ghost use Rattle.std.specs.Prelude.{◌≡◌, ◌↔◌, ℕ, All, IfErr, IfOk, IsTrue, length, string_bytes};
ghost use Rattle.canvas_daemon.specs.Faults.{IsMemoryOrDevice};
ghost use Rattle.canvas_daemon.specs.Served.{IsServeFault};
ghost use Rattle.rally.specs.Rallied.{AgreeWith, AreEqual, HasRallied, WritesRally, agreement_word, rally_line};

use crate::fault::fault_of;
use crate::page::Page;
use canvas_board::RoomName;
use canvas_client::Client;
use canvas_daemon::{DaemonFault, open_room, opened};
use canvas_journal::Keeper;
use canvas_lines::write_out;
use canvas_room::{BlankRoom, Lock, Seat};
use canvas_threads::{NoGate, run_plans};
use std::alloc::{AllocError, Global};
use std::io::Write;
use std::marker::Brand;
use std::sync::Wait;
use std::thread::Threads;

/// Opens the document of a folder, which is made where it is missing, and has so many clients edit it at once, each on a thread of its
/// own at a seat of the document's room: each makes a page, and sets a property of that so often. Then it hears what is published, and
/// waits for more, until all have. Writes `rally version V equal yes`, or `no` if the clients' versions or documents differ, and returns
/// which.
///
/// The errors: `Device`, where the folder or the output failed, or the room refused an edit; `Damaged`, `TooLarge` and `Memory`, as
/// `canvas_daemon::serve` answers them; `Usage`, only for fewer clients than 1 or more than 64. With an error other than `Device`
/// nothing was written. If no thread can be made, the clients edit one after the other.
pub fn rally<R, W>(
    rt: &R,
    files: HostRuntime,
    dir: &str,
    clients: u32,
    edits: u32,
    output: &mut W,
) -> Result<bool, DaemonFault>
where
    R: Threads + Wait + AllocGlobal + Clone + Send + Sync + Drop,
    W: Write,
    ensures told { IfOk result (λ equal. WritesRally equal (W.contents output.old) (W.contents output.new)) }
    ensures unwritten { IfErr result (λ fault. (fault ≡ DaemonFault.Device → ⊥) → W.contents output.new ≡ W.contents output.old) }
    ensures faults { IfErr result (IsServeFault clients) }
{
    let (room, _version, _removed) = open_room(files, dir, clients)?;
    let (version, equal) = rally_room::<Brand, _, _>(rt, room, edits)?;
    let line = rally_line(rt.alloc(), version, equal)?;
    write_out(output, line.as_bytes())?;
    Ok(equal)
}

// The line of a rally.
fn rally_line(alloc: Global, version: u64, equal: bool) -> Result<String, AllocError>
    ensures { IfOk result (λ line. string_bytes line ≡ rally_line version equal) }
{
    let word = equal_word(equal);
    format!(in alloc; "rally version {version} equal {word}\n")
}

// Checks whether the clients agree, in a word.
fn equal_word(equal: bool) -> &'static str
    ensures { result.now ≡ agreement_word equal }
{
    if equal { "yes" } else { "no" }
}

// Has a client at each seat of a room make its page. Answers the first one's version, and whether all agree.
fn rally_room<N, K, R>(rt: &R, room: BlankRoom<K>, edits: u32) -> Result<(u64, bool), DaemonFault>
where
    N: RoomName + Send + Sync,
    K: Keeper + Drop + Send,
    R: Threads + Wait + AllocGlobal + Clone + Send + Sync + Drop,
    requires book { room.book ≡ N.book }
    requires opening { room.opening ≡ N.opening }
    ensures { IfErr result IsMemoryOrDevice }
{
    let (_room, seats) = opened::<N, K, R>(rt, room)?;
    let clients = rallied(rt, seats, Page { sets: edits })?;
    Ok(compared(&clients))
}

// The clients that made this page, one at each seat.
fn rallied<N, K, R>(
    rt: &R,
    seats: Vec<Seat<N, Lock<K, N, R>>>,
    page: Page,
) -> Result<Vec<Client>, DaemonFault>
where
    N: RoomName + Send + Sync,
    K: Keeper + Drop + Send,
    R: Threads + Wait + AllocGlobal + Clone + Send + Sync + Drop,
    ensures show { IfOk result (λ clients. All (HasRallied N.opening page.sets) clients.items) }
    ensures count { IfOk result (λ clients. length clients.items ≡ length seats.items) }
    ensures fault { IfErr result IsMemoryOrDevice }
{
    let plans = plans_of(rt.alloc(), page, seats.len())?;
    match run_plans(rt, seats, plans, &NoGate) {
        Ok(clients) => Ok(clients),
        Err(error) => Err(fault_of(error)),
    }
}

// This plan for so many nodes. Errors: out of memory.
fn plans_of(alloc: Global, page: Page, count: usize) -> Result<Vec<Page>, AllocError>
    ensures count { IfOk result (λ plans. length plans.items ≡ count) }
    ensures each { IfOk result (λ plans. All (λ plan. plan ≡ page) plans.items) }
{
    let mut plans = Vec::with_capacity(alloc, count)?;
    for _ in 0..count {
        plans.push(page)?;
    }
    Ok(plans)
}

// The first one's version, and whether all are at that version, show the same document, and wait for nothing.
fn compared(clients: &[Client]) -> (u64, bool)
    ensures { IsTrue result.1 ↔ AreEqual clients.now }
{
    match clients.first() {
        Some(first) => (first.version(), agree_with(first, clients)),
        None => (0, true),
    }
}

// Checks whether each of these clients is at the version of this one, shows the same document, and waits for nothing.
fn agree_with(first: &Client, clients: &[Client]) -> bool
    ensures { IsTrue result ↔ All (AgreeWith first.now) clients.now }
{
    for client in clients {
        if !agrees_with(first, client) {
            return false;
        }
    }
    true
}

// Checks whether a client is at the version of this one, shows the same document, and waits for nothing.
fn agrees_with(first: &Client, client: &Client) -> bool
    ensures { IsTrue result ↔ AgreeWith first.now client.now }
{
    client.version() == first.version()
        && client.unacknowledged() == 0
        && client.view().same(first.view())
}
