// A server that waits until its document is free.
ghost use Rattle.std.specs.Prelude.{◌⊎◌, IfErr, IfOk, IsSome, IsTrue, string_bytes};
ghost use Rattle.net_http.specs.Identities.{IsIdentity};
ghost use Rattle.app_storage.specs.Faults.{IsPreparingFault, IsStopFault, IsThreadFault};

use crate::documents::{DocumentJournal, take_document};
use crate::own_document::OwnRoom;
use crate::stopping::StopFile;
use app_args::Serving;
use app_faults::{Fault, Why};
use app_identity::Address;
use app_listener::Log;
use app_storage::store_of;
use etcd_store::{EtcdStore, StoreError};
use std::alloc::Global;
use std::net::{Net, TcpListener, TcpStream};
use std::random::RandomSource;
use std::sync::{Arc, Wait};
use std::thread::{Threads, sleep};
use std::time::{Clock, Duration};

// How often it looks whether the document is free.
const LOOK_MILLIS: u64 = 200;

// After how many looks a takeover that the etcd didn't do is tried again: 5 seconds.
const REST_LOOKS: u32 = 25;

// Why a document isn't taken over yet.
#[derive(Clone, Copy, Debug, PartialEq, Eq)]
enum Obstacle {
    // Another server has it.
    Owner,
    // The etcd doesn't say who has it, for this reason.
    Silence(StoreError),
    // It was free, and the etcd didn't do what taking it over needs, for this reason.
    Failure(StoreError),
}

impl Obstacle {
    // For how many looks the server waits then.
    fn looks(self) -> u32 {
        match self {
            Obstacle::Owner | Obstacle::Silence(_) | Obstacle::Failure(StoreError::Lost) => 1,
            Obstacle::Failure(_) => REST_LOOKS,
        }
    }
}

/// Waits until the document is free, and then takes it over. It waits on while the etcd doesn't do what it is asked, and logs why, once
/// for each reason. `Stopped` if the file comes that stops it.
pub(crate) fn await_document<R>(
    rt: &R,
    files: HostRuntime,
    address: &Address,
    serving: &Serving,
    stop: &StopFile,
    log: &Arc<Log, Global>,
) -> Result<OwnRoom<DocumentJournal<R>>, Fault>
where
    R: Net<Listener = TcpListener, Stream = TcpStream>
        + Threads
        + Wait
        + Clock
        + RandomSource
        + AllocGlobal
        + Clone
        + Send
        + Drop
        + 'static,
    ensures named { IfOk result (λ taken. IsIdentity (string_bytes taken.1.identity)) }
    ensures faults { IfErr result (λ fault. IsPreparingFault serving.now.workers fault ⊎ IsThreadFault fault ⊎ IsStopFault stop.now.path fault) }
{
    let mut store = store_of(rt, address)?;
    let mut told = None;
    for _ in rt.forever() {
        let obstacle = match try_document(rt, files, address, serving, stop, log, &mut store)? {
            Ok(taken) => return Ok(taken),
            Err(obstacle) => obstacle,
        };
        if told != Some(obstacle) && !serving.quiet {
            tell(rt, log, address, obstacle);
        }
        told = Some(obstacle);
        if rest(rt, stop, obstacle.looks()) {
            return Err(Fault::Stopped);
        }
    }
    unreachable!()
}

// Takes the document over if it is free, or says why that isn't done yet.
fn try_document<R>(
    rt: &R,
    files: HostRuntime,
    address: &Address,
    serving: &Serving,
    stop: &StopFile,
    log: &Arc<Log, Global>,
    store: &mut EtcdStore<R>,
) -> Result<Result<OwnRoom<DocumentJournal<R>>, Obstacle>, Fault>
where
    R: Net<Listener = TcpListener, Stream = TcpStream>
        + Threads
        + Wait
        + Clock
        + RandomSource
        + AllocGlobal
        + Clone
        + Send
        + Drop
        + 'static,
    ensures named { IfOk result (λ tried. IfOk tried (λ taken. IsIdentity (string_bytes taken.1.identity))) }
    ensures faults { IfErr result (λ fault. IsPreparingFault serving.now.workers fault ⊎ IsThreadFault fault ⊎ IsStopFault stop.now.path fault) }
{
    match store.is_owned() {
        Ok(true) => return Ok(Err(Obstacle::Owner)),
        Ok(false) => {}
        Err(why) => return Ok(Err(Obstacle::Silence(why))),
    }
    match take_document(rt, files, address, serving, stop, log) {
        Ok(taken) => Ok(Ok(taken)),
        Err(Fault::InUse) => Ok(Err(Obstacle::Owner)),
        Err(Fault::NoStore { why }) if why != StoreError::Damaged => Ok(Err(Obstacle::Failure(
            why,
        ))),
        Err(fault) => Err(fault),
    }
}

// Logs what a standby waits for.
fn tell<R: Wait + AllocGlobal>(rt: &R, log: &Log, address: &Address, obstacle: Obstacle) {
    let name = address.name.as_str();
    let alloc = rt.alloc();
    let line = match obstacle {
        Obstacle::Owner => {
            format!(in alloc; "waiting for the document {name}: another server has it")
        }
        Obstacle::Silence(error) | Obstacle::Failure(error) => {
            let why = Why(error);
            format!(in alloc; "waiting for the document {name}: the etcd {why}")
        }
    };
    if let Ok(line) = line {
        log.tell(rt, line);
    }
}

// Rests for this number of looks. Checks whether the file that stops the server has come.
fn rest<R: Clock>(rt: &R, stop: &StopFile, looks: u32) -> bool
    ensures { IsTrue result → IsSome stop.now.path }
{
    for _ in 0..looks {
        if stop.has_come() {
            return true;
        }
        sleep(rt, Duration::from_millis(LOOK_MILLIS));
    }
    false
}
