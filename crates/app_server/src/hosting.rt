// What `lugcurrant serve` does: a room over the journal of a document, whose workers serve clients for as long as it runs.
ghost use Rattle.std.specs.Prelude.{◌≡◌, ◌⊎◌, IfErr, IfOk, string_bytes};
ghost use Rattle.net_http.specs.Identities.{IsIdentity};
ghost use Rattle.app_storage.specs.Faults.{IsPageFault, IsPreparingFault, IsRunningFault, MayEndServer, IsStopFault, IsThreadFault};

use crate::budget::Budget;
use crate::copies::{Copies, CopyTask};
use crate::documents::{DocumentJournal, take_document};
use crate::folders::take_folder;
use crate::glancing::{GlanceTask, Seen};
use crate::kicking::KickFile;
use crate::kicks::Kicks;
use crate::opening::opened;
use crate::own_document::{OwnDocument, OwnRoom};
use crate::polling::{Caller, Post};
use crate::presence::Presence;
use crate::standby::await_document;
use crate::stopping::StopFile;
use crate::tasks::{DoorTask, LogTask, WorkerTask};
use crate::watching::{Ends, watch};
use app_args::{DocumentPlace, Options, Serving};
use app_faults::Fault;
use app_identity::Address;
use app_listener::{Door, Figures, Limits, Load, Log, Page, Shared, Worker, Workers};
use app_storage::begin_task;
use canvas_bell::Bell;
use canvas_board::RoomName;
use canvas_folder::Removed;
use canvas_journal::Keeper;
use canvas_room::{BlankRoom, Lock, Room, Seat};
use crossbeam_channel::unbounded;
use mio::Waker;
use net_http::Site;
use std::alloc::Global;
use std::collections::VecDeque;
use std::io::{Eprint, ErrorKind};
use std::marker::Brand;
use std::net::{Net, TcpListener, TcpStream};
use std::random::RandomSource;
use std::sync::atomic::AtomicBool;
use std::sync::{Arc, Wait};
use std::thread::Threads;
use std::time::Clock;

/// Serves a document to clients over WebSockets, for as long as nothing fails, and answers what ended it.
///
/// It listens at the own machine alone, at the port of the options. So many clients as they say are served at once, by so many workers. A
/// client more is turned away, and other requests are answered as `net_http` says.
/// A folder is made where it is missing, and nobody else can open it to write meanwhile. A document in an etcd is taken over, under a
/// lease that a thread keeps alive from then on; a standby waits until nobody has it, and doesn't listen before. A `kill` at any moment is
/// safe. Once the file of `stop_file` is there, nothing more is judged, the lease is released, and the server ends: `Stopped`. A document
/// in an etcd isn't opened to its end then.
///
/// The faults: `StopFile`, if that file is there before, and then nothing was touched; `NoPage`, where the options name the folder of a
/// page and no file `index.html` can be read in it, and `PortInUse`, `PortDenied` and `NoPort`, where the port can't be had, and then the
/// document is left alone; `WorkerCount`, only for fewer workers than 1 or more than 31; `Denied`, `AboveDenied`, `NoDescriptor`, `NoRoom`,
/// `Device`, `ChangedIdentity`, `Lost`, `NotKept` and `NoSpace` of a folder, `NoStore` of a document in an etcd, and `InUse`, `Identity`,
/// `Damaged` and `TooLarge` of both, where it isn't opened; `NoThread`, where not all threads can be made; `Memory`; and later
/// `JournalFailed`, once the device of the journal has failed, or `StoreFailed` and `LeaseEnded` of an etcd.
pub fn serve<R>(rt: &R, files: HostRuntime, options: Options) -> Fault
where
    R: Net<Listener = TcpListener, Stream = TcpStream>
        + Threads
        + Wait
        + Clock
        + RandomSource
        + Eprint
        + AllocGlobal
        + Clone
        + Send
        + Sync
        + Drop
        + 'static,
    ensures { MayEndServer options.serving.workers options.serving.stop_file result }
{
    let (place, mut serving) = options.apart();
    let path = serving.stop_file.take();
    let stop = StopFile { files, path };
    if let Err(fault) = stop.look_first() {
        return fault;
    }
    let supplies = match Supplies::of(rt, &files, &serving) {
        Ok(supplies) => supplies,
        Err(fault) => return fault,
    };
    match &place {
        DocumentPlace::Folder(dir) => serve_folder(rt, files, dir, serving, stop, supplies),
        DocumentPlace::Document(address) => {
            serve_document(rt, files, address, serving, stop, supplies)
        }
    }
}

// What a server has before its document: its page and its log.
#[derive(Drop)]
struct Supplies {
    page: Page,
    log: Arc<Log, Global>,
}

impl Supplies {
    // Reads the page, if one is served, and begins the log.
    fn of<R>(rt: &R, files: &HostRuntime, serving: &Serving) -> Result<Supplies, Fault>
    where
        R: Threads + Wait + Eprint + AllocGlobal + Clone + Send + Drop + 'static,
        ensures { IfErr result (λ fault. IsPageFault fault ⊎ IsThreadFault fault) }
    {
        let page = read_page(files, serving)?;
        let log = begin_log(rt)?;
        Ok(Supplies { page, log })
    }
}

// Gives a log its thread.
fn begin_log<R>(rt: &R) -> Result<Arc<Log, Global>, Fault>
where
    R: Threads + Wait + Eprint + AllocGlobal + Clone + Send + Drop + 'static,
    ensures { IfErr result IsThreadFault }
{
    let (log, lines) = Log::new(rt.alloc())?;
    let log = Arc::new(rt.alloc(), log)?;
    let task = LogTask {
        rt: rt.clone()?,
        log: Arc::try_clone(&log)?,
        lines,
    };
    begin_task(rt, task)?;
    Ok(log)
}

// Reads the page that is served, if one is.
fn read_page(files: &HostRuntime, serving: &Serving) -> Result<Page, Fault>
    ensures { IfErr result IsPageFault }
{
    let Some(folder) = &serving.page else {
        return Ok(Page::none());
    };
    match Page::read(files, folder) {
        Ok(page) => Ok(page),
        Err(error) => match error.kind() {
            ErrorKind::OutOfMemory => Err(Fault::Memory),
            _ => Err(Fault::NoPage),
        },
    }
}

// Serves the document of a folder.
fn serve_folder<R>(
    rt: &R,
    files: HostRuntime,
    dir: &String,
    serving: Serving,
    stop: StopFile,
    supplies: Supplies,
) -> Fault
where
    R: Net<Listener = TcpListener, Stream = TcpStream>
        + Threads
        + Wait
        + Clock
        + RandomSource
        + AllocGlobal
        + Clone
        + Send
        + Sync
        + Drop
        + 'static,
    ensures { MayEndServer serving.workers stop.path result }
{
    match take_folder(rt, files, dir, &serving) {
        Ok((room, document)) => serve_taken(rt, room, document, serving, stop, supplies, dir),
        Err(fault) => fault,
    }
}

// Serves a document in an etcd.
fn serve_document<R>(
    rt: &R,
    files: HostRuntime,
    address: &Address,
    serving: Serving,
    stop: StopFile,
    supplies: Supplies,
) -> Fault
where
    R: Net<Listener = TcpListener, Stream = TcpStream>
        + Threads
        + Wait
        + Clock
        + RandomSource
        + AllocGlobal
        + Clone
        + Send
        + Sync
        + Drop
        + 'static,
    ensures { MayEndServer serving.workers stop.path result }
{
    match take_or_await(rt, files, address, &serving, &stop, &supplies.log) {
        Ok((room, document)) => serve_taken(
            rt,
            room,
            document,
            serving,
            stop,
            supplies,
            &address.name,
        ),
        Err(fault) => fault,
    }
}

// Listens, and takes a document in an etcd over, which a standby waits for first.
fn take_or_await<R>(
    rt: &R,
    files: HostRuntime,
    address: &Address,
    serving: &Serving,
    stop: &StopFile,
    log: &Arc<Log, Global>,
) -> Result<OwnRoom<DocumentJournal<R>>, Fault>
where
    R: Net<Listener = TcpListener, Stream = TcpStream>
        + Threads
        + Wait
        + Clock
        + RandomSource
        + AllocGlobal
        + Clone
        + Send
        + Drop
        + 'static,
    ensures named { IfOk result (λ taken. IsIdentity (string_bytes taken.1.identity)) }
    ensures faults { IfErr result (λ fault. IsPreparingFault serving.now.workers fault ⊎ IsThreadFault fault ⊎ IsStopFault stop.now.path fault) }
{
    if serving.is_standby {
        await_document(rt, files, address, serving, stop, log)
    } else {
        take_document(rt, files, address, serving, stop, log)
    }
}

// Serves a document that is this server's under this name, and lets it go then.
fn serve_taken<K, R>(
    rt: &R,
    room: BlankRoom<K>,
    document: OwnDocument,
    mut serving: Serving,
    stop: StopFile,
    supplies: Supplies,
    name: &String,
) -> Fault
where
    K: Keeper + Drop + Send + 'static,
    R: Net + Threads + Wait + Clock + AllocGlobal + Clone + Send + Sync + Drop + 'static,
    requires { IsIdentity (string_bytes document.identity) }
    ensures { IsRunningFault result ⊎ IsStopFault stop.path result }
{
    let OwnDocument {
        listener,
        meter,
        notes,
        identity,
        space,
        removed,
        tenure,
    } = document;
    let kick = KickFile::new(stop.files, serving.kick_file.take());
    let ends = Ends { stop, kick, tenure };
    let figures = Figures::new(meter, notes, space);
    let fault = match share(rt, listener, identity, figures, removed, serving, supplies) {
        Ok(shared) => host::<Brand, _, _>(rt, room, &shared, &ends, name),
        Err(fault) => fault,
    };
    if let Some(tenure) = &ends.tenure {
        // No server must wait for the end of a lease under which nothing is served.
        tenure.lease.release(rt);
    }
    fault
}

// What the threads of a server share.
fn share<R>(
    rt: &R,
    listener: TcpListener,
    identity: String,
    figures: Figures,
    removed: Option<Removed>,
    serving: Serving,
    supplies: Supplies,
) -> Result<Arc<Shared, Global>, Fault>
where
    R: Wait + AllocGlobal,
    requires { IsIdentity (string_bytes identity) }
    ensures { IfErr result (λ fault. fault ≡ Fault.Memory) }
{
    let limits = Limits {
        idle_seconds: serving.idle_seconds,
        message_bytes: serving.message_bytes,
        clients: serving.clients as usize,
    };
    let (quiet, trusts_proxy) = (serving.quiet, serving.trust_forwarded);
    let (hosts, origins, folder) = serving.into_pages();
    let Supplies { page, log } = supplies;
    let shared = Shared {
        listener,
        site: Site {
            hosts,
            origins,
            identity,
            has_page: folder.is_some(),
        },
        page,
        figures,
        removed,
        has_ended: AtomicBool::new(false),
        limits,
        trusts_proxy,
        quiet,
        log,
    };
    Ok(Arc::new(rt.alloc(), shared)?)
}

// Serves a room's document, which has this name.
fn host<N, K, R>(
    rt: &R,
    room: BlankRoom<K>,
    shared: &Arc<Shared, Global>,
    ends: &Ends,
    name: &String,
) -> Fault
where
    N: RoomName + Send + Sync + 'static,
    K: Keeper + Drop + Send + 'static,
    R: Net + Threads + Wait + Clock + AllocGlobal + Clone + Send + Sync + Drop + 'static,
    requires book { room.book ≡ N.book }
    requires opening { room.opening ≡ N.opening }
    ensures { IsRunningFault result ⊎ IsStopFault ends.now.stop.path result }
{
    ends.kick.clear(rt, &shared.log);
    match begin::<N, K, R>(rt, room, shared) {
        Ok((seen, kicks)) => watch(rt, shared, &seen, &kicks, ends, name),
        Err(fault) => fault,
    }
}

// What is seen of a room, and the connections that an operator ends.
type Begun = (Arc<Seen, Global>, Arc<Kicks, Global>);

// Gives each worker and the door their threads, and one to who looks at the room.
fn begin<N, K, R>(rt: &R, room: BlankRoom<K>, shared: &Arc<Shared, Global>) -> Result<Begun, Fault>
where
    N: RoomName + Send + Sync + 'static,
    K: Keeper + Drop + Send + 'static,
    R: Net + Threads + Wait + Clock + AllocGlobal + Clone + Send + Sync + Drop + 'static,
    requires book { room.book ≡ N.book }
    requires opening { room.opening ≡ N.opening }
    ensures { IfErr result IsThreadFault }
{
    let (room, seats) = opened::<N, K, R>(rt, room)?;
    let version = room.desk(rt).version();
    let (posts, bell, wakers) = begin_posts(rt, seats.len() / 2)?;
    let kicks = Arc::new(rt.alloc(), Kicks::new(rt.alloc(), &wakers)?)?;
    let presence = Arc::new(rt.alloc(), Presence::new(rt.alloc(), wakers)?)?;
    let workers = begin_workers(rt, seats, posts, bell, &presence, &kicks, shared)?;
    let seen = begin_glances(rt, room, shared)?;
    begin_door(rt, shared, workers)?;
    announce(rt, shared, version);
    Ok((seen, kicks))
}

// Gives a thread to who looks at the room.
fn begin_glances<N, K, R>(
    rt: &R,
    room: Room<K, N, R>,
    shared: &Arc<Shared, Global>,
) -> Result<Arc<Seen, Global>, Fault>
where
    N: RoomName + Send + Sync + 'static,
    K: Keeper + Drop + Send + 'static,
    R: Threads + Wait + Clock + AllocGlobal + Clone + Send + Sync + Drop + 'static,
    ensures { IfErr result IsThreadFault }
{
    let seen = Arc::new(rt.alloc(), Seen::new())?;
    let task = GlanceTask {
        rt: rt.clone()?,
        room,
        shared: Arc::try_clone(shared)?,
        seen: Arc::try_clone(&seen)?,
    };
    begin_task(rt, task)?;
    Ok(seen)
}

// Gives one seat the thread that writes copies, and each two of the others the thread of a worker.
fn begin_workers<N, K, R>(
    rt: &R,
    mut seats: Vec<Seat<N, Lock<K, N, R>>>,
    mut posts: VecDeque<BlankWorker>,
    bell: Bell<Caller>,
    presence: &Arc<Presence, Global>,
    kicks: &Arc<Kicks, Global>,
    shared: &Arc<Shared, Global>,
) -> Result<Workers, Fault>
where
    N: RoomName + Send + Sync + 'static,
    K: Keeper + Drop + Send + 'static,
    R: Net + Threads + Wait + Clock + AllocGlobal + Clone + Send + Sync + Drop + 'static,
    ensures { IfErr result IsThreadFault }
{
    let budget = Arc::new(rt.alloc(), Budget::new())?;
    let copies = begin_copies(rt, &mut seats, &budget)?;
    let bell = Arc::new(rt.alloc(), bell)?;
    let mut workers = Vec::with_capacity(rt.alloc(), posts.len())?;
    for _ in 0..posts.len() {
        let (Some(BlankWorker { post, waker }), Some(seat), Some(copy_seat)) = (
            posts.pop_front(),
            seats.pop(),
            seats.pop(),
        ) else {
            return Err(Fault::NoThread);
        };
        let (given, connections) = unbounded(rt.alloc())?;
        let load = Arc::new(rt.alloc(), Load::new())?;
        let task = WorkerTask {
            rt: rt.clone()?,
            seat,
            copy_seat,
            shared: Arc::try_clone(shared)?,
            copies: Arc::try_clone(&copies)?,
            budget: Arc::try_clone(&budget)?,
            connections,
            load: Arc::try_clone(&load)?,
            post,
            bell: Arc::try_clone(&bell)?,
            presence: Arc::try_clone(presence)?,
            kicks: Arc::try_clone(kicks)?,
        };
        workers.push(Worker {
            connections: given,
            waker,
            load,
        })?;
        begin_task(rt, task)?;
    }
    Ok(Workers::new(workers, shared.limits.clients))
}

// Gives the last of these seats the thread that writes copies.
fn begin_copies<N, K, R>(
    rt: &R,
    seats: &mut Vec<Seat<N, Lock<K, N, R>>>,
    budget: &Arc<Budget, Global>,
) -> Result<Arc<Copies<N>, Global>, Fault>
where
    N: RoomName + Send + Sync + 'static,
    K: Keeper + Drop + Send + 'static,
    R: Threads + Wait + Clock + AllocGlobal + Clone + Send + Sync + Drop + 'static,
    ensures { IfErr result IsThreadFault }
{
    let Some(seat) = seats.pop() else {
        return Err(Fault::NoThread);
    };
    let (copies, wants) = Copies::new(rt.alloc())?;
    let copies = Arc::new(rt.alloc(), copies)?;
    let task = CopyTask {
        rt: rt.clone()?,
        seat,
        copies: Arc::try_clone(&copies)?,
        budget: Arc::try_clone(budget)?,
        wants,
    };
    begin_task(rt, task)?;
    Ok(copies)
}

// What a worker waits with, and what ends its wait.
#[derive(Drop)]
struct BlankWorker {
    post: Post,
    waker: Arc<Waker, Global>,
}

// What so many workers wait with, the bell that is heard by each, and what ends their waits.
fn begin_posts<R: Net + AllocGlobal>(
    rt: &R,
    count: usize,
) -> Result<(VecDeque<BlankWorker>, Bell<Caller>, Vec<Arc<Waker, Global>>), Fault>
    ensures { IfErr result IsThreadFault }
{
    let mut bell = Bell::new(rt.alloc());
    let mut posts = VecDeque::with_capacity(rt.alloc(), count)?;
    let mut wakers = Vec::with_capacity(rt.alloc(), count)?;
    for number in 0..count {
        let Ok((post, waker)) = Post::new(rt, number) else {
            return Err(Fault::NoThread);
        };
        bell.add(Caller::new(Arc::try_clone(&waker)?))?;
        wakers.push(Arc::try_clone(&waker)?)?;
        posts.push_back(BlankWorker { post, waker })?;
    }
    Ok((posts, bell, wakers))
}

// Gives the door its thread.
fn begin_door<R>(rt: &R, shared: &Arc<Shared, Global>, workers: Workers) -> Result<(), Fault>
where
    R: Net + Threads + Wait + Clock + AllocGlobal + Clone + Send + Drop + 'static,
    ensures { IfErr result IsThreadFault }
{
    let Ok(door) = Door::new(rt, &shared.listener) else {
        return Err(Fault::NoThread);
    };
    let task = DoorTask {
        rt: rt.clone()?,
        shared: Arc::try_clone(shared)?,
        workers,
        door,
    };
    begin_task(rt, task)
}

// Logs where the server serves, and from which version on.
fn announce<R: Wait + AllocGlobal>(rt: &R, shared: &Shared, version: u64) {
    if shared.quiet {
        return;
    }
    let port = match shared.listener.local_addr() {
        Ok(address) => address.port(),
        Err(_) => 0,
    };
    if let Ok(line) = format!(in rt.alloc();
        "serving at http://127.0.0.1:{port}/ version {version}"
    ) {
        shared.log.tell(rt, line);
    }
}
