// What a server of a document in an etcd has before it serves: the document, which it has taken over, and the lease of that.
ghost use Rattle.std.specs.Prelude.{◌≡◌, ◌⊎◌, IfErr, IfOk, string_bytes};
ghost use Rattle.net_http.specs.Identities.{IsIdentity};
ghost use Rattle.app_storage.specs.Faults.{IsNamingFault, IsOpeningFault, IsPreparingFault, IsStopFault, IsThreadFault};

use crate::opening::{Counted, OpenRoom, listen, room_of};
use crate::own_document::{OwnDocument, OwnRoom, Tenure};
use crate::progress::Progress;
use crate::stopping::StopFile;
use app_args::Serving;
use app_faults::{Fault, of_document};
use app_identity::{Address, identity_in, made_identity};
use app_listener::Log;
use app_storage::{DocumentShelf, Held, NoWitness, store_of, take_over};
use canvas_etcd::EtcdShelf;
use disk_integrity::Watched;
use etcd_store::{Causes, EtcdStore, Lease};
use std::alloc::Global;
use std::net::{Net, TcpListener, TcpStream};
use std::random::RandomSource;
use std::sync::{Arc, Wait};
use std::thread::Threads;
use std::time::Clock;

/// The journal of a document in an etcd, which is counted.
pub(crate) type DocumentJournal<R> = Counted<DocumentShelf<R>>;

/// Listens, and takes a document over. Its lease is kept alive from the takeover on. If opening it takes long, a line is logged every two
/// seconds. `Stopped` if the file that stops the server comes while the document is being opened: then the lease is released.
pub(crate) fn take_document<R>(
    rt: &R,
    files: HostRuntime,
    address: &Address,
    serving: &Serving,
    stop: &StopFile,
    log: &Arc<Log, Global>,
) -> Result<OwnRoom<DocumentJournal<R>>, Fault>
where
    R: Net<Listener = TcpListener, Stream = TcpStream>
        + Threads
        + Wait
        + Clock
        + RandomSource
        + AllocGlobal
        + Clone
        + Send
        + Drop
        + 'static,
    ensures named { IfOk result (λ taken. IsIdentity (string_bytes taken.1.identity)) }
    ensures faults { IfErr result (λ fault. IsPreparingFault serving.now.workers fault ⊎ IsThreadFault fault ⊎ IsStopFault stop.now.path fault) }
{
    let listener = listen(rt, serving.port)?;
    let store = store_of(rt, address)?;
    let progress = Progress::begin(rt, &address.name, serving.quiet, stop, store.lease()?, log)?;
    let taken = take_room(rt, files, store, serving.workers as usize);
    progress.end();
    if stop.has_come() {
        if let Ok((_, _, tenure)) = &taken {
            tenure.lease.release(rt);
        }
        return Err(Fault::Stopped);
    }
    let (opened, identity, tenure) = taken?;
    let OpenRoom { room, meter, notes } = opened;
    let document = OwnDocument {
        listener,
        meter,
        notes,
        identity,
        space: None,
        removed: None,
        tenure: Some(tenure),
    };
    Ok((room, document))
}

// A document that was taken over: its room, its identity, and what is held beside it.
type OpenDocument<R> = (OpenRoom<DocumentJournal<R>>, String, Tenure);

// Takes a document over, and opens its room, with the seats of so many workers.
fn take_room<R>(
    rt: &R,
    files: HostRuntime,
    store: EtcdStore<R>,
    workers: usize,
) -> Result<OpenDocument<R>, Fault>
where
    R: Net<Listener = TcpListener, Stream = TcpStream>
        + Threads
        + Wait
        + Clock
        + RandomSource
        + AllocGlobal
        + Clone
        + Send
        + Drop
        + 'static,
    ensures named { IfOk result (λ opened. IsIdentity (string_bytes opened.1)) }
    ensures faults { IfErr result (λ fault. IsOpeningFault workers fault ⊎ IsThreadFault fault) }
{
    let held = match take_over(rt, store) {
        Ok(held) => held,
        Err(fault) => return Err(fault),
    };
    let Held {
        shelf,
        causes,
        mut lease,
        kept,
    } = held;
    match open_owned(files, shelf, &mut lease, &causes, workers) {
        Ok((opened, identity)) => {
            let tenure = Tenure {
                lease: kept,
                causes,
            };
            Ok((opened, identity, tenure))
        }
        Err(fault) => {
            // No server must wait for the end of a lease under which nothing was served.
            kept.release(rt);
            Err(fault)
        }
    }
}

// Opens the room of a document that was taken over, and tells its identity.
fn open_owned<R>(
    files: HostRuntime,
    shelf: EtcdShelf<EtcdStore<R>>,
    lease: &mut Lease<R>,
    causes: &Causes,
    workers: usize,
) -> Result<(OpenRoom<DocumentJournal<R>>, String), Fault>
where
    R: Net<Stream = TcpStream> + Clock + RandomSource + AllocGlobal + Clone + Drop,
    ensures named { IfOk result (λ opened. IsIdentity (string_bytes opened.1)) }
    ensures faults { IfErr result (IsOpeningFault workers) }
{
    let identity = identity_of(files, lease)?;
    let shelf = Watched::new(files.alloc(), shelf, NoWitness)?;
    let notes = shelf.notes().share()?;
    let shelf = DocumentShelf::new(files.alloc(), shelf)?;
    match room_of(files, shelf, notes, workers) {
        Ok(opened) => Ok((opened, identity)),
        Err(fault) => Err(of_document(fault, causes.last())),
    }
}

// The identity of a document that was taken over. If it has none it is made, and stands in the etcd before it is told.
fn identity_of<R>(files: HostRuntime, lease: &mut Lease<R>) -> Result<String, Fault>
where
    R: Net<Stream = TcpStream> + Clock + RandomSource + AllocGlobal + Clone + Drop,
    ensures named { IfOk result (λ text. IsIdentity (string_bytes text)) }
    ensures faults { IfErr result IsNamingFault }
{
    if let Some(bytes) = lease.identity()? {
        return named(files.alloc(), &bytes);
    }
    let identity = match made_identity(&files) {
        Ok(identity) => identity,
        Err(error) => return Err(of_document(Fault::from(error), None)),
    };
    lease.set_identity(identity.as_bytes())?;
    Ok(identity)
}

// The identity that these bytes are.
fn named(alloc: Global, bytes: &[u8]) -> Result<String, Fault>
    ensures named { IfOk result (λ text. IsIdentity (string_bytes text)) }
    ensures faults { IfErr result IsNamingFault }
{
    let Ok(text) = str::from_utf8(bytes) else {
        return Err(Fault::Identity);
    };
    match identity_in(alloc, text) {
        Ok(identity) => Ok(identity),
        Err(error) => Err(of_document(Fault::from(error), None)),
    }
}
