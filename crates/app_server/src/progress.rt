// What is done while a document in an etcd is being opened: that is logged, and its lease is released if the server is stopped.
ghost use Rattle.std.specs.Prelude.{IfErr};
ghost use Rattle.app_storage.specs.Faults.{IsThreadFault};

use crate::stopping::StopFile;
use app_faults::Fault;
use app_listener::Log;
use app_storage::{Task, begin_task};
use etcd_store::Lease;
use std::alloc::Global;
use std::net::{Net, TcpListener, TcpStream};
use std::random::RandomSource;
use std::sync::atomic::{AtomicBool, Ordering};
use std::sync::{Arc, Wait};
use std::thread::{Threads, sleep};
use std::time::{Clock, Duration};

// How often a thread looks whether the document is open, and whether the server must stop.
const LOOK_MILLIS: u64 = 100;

// How many looks a second are, and after how many a line is logged.
const LOOKS_A_SECOND: u64 = 10;

const LOOKS_A_LINE: u64 = 20;

/// A thread that runs until a document is open. Every two seconds it logs for how long the document has been being opened. If the file comes that
/// stops the server, it releases the lease, and the opening fails.
pub(crate) struct Progress {
    is_done: Arc<AtomicBool, Global>,
}

impl Drop for Progress {
    fn drop(self) {
        let Progress { is_done: _ } = self;
    }
}

impl Progress {
    /// Begins it for the document of this name, which is opened under this lease. If only faults are logged, it logs nothing.
    pub(crate) fn begin<R>(
        rt: &R,
        name: &str,
        quiet: bool,
        stop: &StopFile,
        lease: Lease<R>,
        log: &Arc<Log, Global>,
    ) -> Result<Progress, Fault>
    where
        R: Net<Listener = TcpListener, Stream = TcpStream>
            + Threads
            + Wait
            + Clock
            + RandomSource
            + AllocGlobal
            + Clone
            + Send
            + Drop
            + 'static,
        ensures { IfErr result IsThreadFault }
    {
        let is_done = Arc::new(rt.alloc(), AtomicBool::new(false))?;
        let task = ProgressTask {
            rt: rt.clone()?,
            name: String::from_str(rt.alloc(), name)?,
            quiet,
            stop: stop.another()?,
            lease,
            log: Arc::try_clone(log)?,
            is_done: Arc::try_clone(&is_done)?,
        };
        begin_task(rt, task)?;
        Ok(Progress { is_done })
    }

    /// The document is open, or won't be.
    pub(crate) fn end(&self) {
        self.is_done.store(true, Ordering::SeqCst);
    }
}

/// What the thread has.
struct ProgressTask<
    R: Net<Stream = TcpStream> + Clock + RandomSource + AllocGlobal + Clone + Drop,
> {
    rt: R,
    name: String,
    quiet: bool,
    stop: StopFile,
    lease: Lease<R>,
    log: Arc<Log, Global>,
    is_done: Arc<AtomicBool, Global>,
}

impl<R: Net<Stream = TcpStream> + Clock + RandomSource + AllocGlobal + Clone + Drop> Drop
    for ProgressTask<R> {
    fn drop(self) {
        let ProgressTask {
            rt: _,
            name: _,
            quiet: _,
            stop: _,
            lease: _,
            log: _,
            is_done: _,
        } = self;
    }
}

impl<R> Task for ProgressTask<R>
where
    R: Net<Stream = TcpStream> + Wait + Clock + RandomSource + AllocGlobal + Clone + Drop,
{
    fn run(self) {
        let ProgressTask {
            rt,
            name,
            quiet,
            stop,
            lease,
            log,
            is_done,
        } = self;
        for look in 1..u64::MAX {
            sleep(&rt, Duration::from_millis(LOOK_MILLIS));
            if is_done.load(Ordering::SeqCst) {
                return;
            }
            if stop.has_come() {
                let _ = lease.release();
                return;
            }
            if !quiet && look % LOOKS_A_LINE == 0 {
                tell(&rt, &log, &name, look / LOOKS_A_SECOND);
            }
        }
    }
}

// Logs how long that has been.
fn tell<R: Wait + AllocGlobal>(rt: &R, log: &Log, name: &str, seconds: u64) {
    if let Ok(line) = format!(in rt.alloc(); "opening the document {name}: {seconds} s") {
        log.tell(rt, line);
    }
}
