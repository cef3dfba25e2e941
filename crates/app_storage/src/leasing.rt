// The lease of a document in an etcd, which a thread keeps alive, and which is looked at by time.
ghost use Rattle.std.specs.Prelude.{◌≡◌, IfErr};
ghost use Rattle.app_storage.specs.Faults.{IsThreadFault};
ghost use Rattle.app_storage.specs.Leases.{rest_after};

use crate::tasks::{Task, begin_task};
use app_faults::Fault;
use etcd_store::{Lease, StoreError};
use std::alloc::Global;
use std::net::{Net, TcpListener, TcpStream};
use std::random::RandomSource;
use std::sync::atomic::{AtomicBool, AtomicU64, Ordering};
use std::sync::{Arc, Wait};
use std::thread::{Threads, sleep};
use std::time::{Clock, Duration, Instant};

/// After how many seconds a lease ends that isn't kept alive.
pub const LEASE_SECONDS: u64 = 10;

// How long its thread rests once the lease was renewed, and once no answer came.
const REST_MILLIS: u64 = 3_000;

const RETRY_MILLIS: u64 = 500;

// How long a renewal may take.
const MOST_RENEWAL_MILLIS: u64 = 3_000;

// How often it looks whether the lease is released, and how often who releases it looks whether that is done.
const LOOK_MILLIS: u64 = 20;

/// What is known of a lease by time: when it was renewed last, and whether the etcd has said that it ended. Any thread may look, and
/// doesn't wait.
#[derive(Drop)]
pub struct Term {
    // From when on its time is counted, if there is a clock.
    since: Option<Instant>,
    // How many milliseconds later the request was sent that renewed it last.
    renewed: AtomicU64,
    has_ended: AtomicBool,
    // Whether it must be released.
    is_over: AtomicBool,
}

impl Term {
    /// A term that begins now. Call it before the document is taken over: the lease ends later than the term.
    pub fn new<R: Clock>(rt: &R) -> Term {
        Term {
            since: Instant::now(rt).ok(),
            renewed: AtomicU64::new(0),
            has_ended: AtomicBool::new(false),
            is_over: AtomicBool::new(false),
        }
    }

    // How many milliseconds have passed, if there is a clock.
    fn millis<R: Clock>(&self, rt: &R) -> Option<u64> {
        let passed = self.since?.elapsed(rt).ok()?;
        u64::try_from(passed.as_millis()).ok()
    }

    // The lease was renewed by a request that was sent after this many milliseconds.
    fn renew(&self, asked: Option<u64>) {
        if let Some(asked) = asked {
            self.renewed.store(asked, Ordering::SeqCst);
        }
    }

    // The lease has ended.
    fn end(&self) {
        self.has_ended.store(true, Ordering::SeqCst);
    }

    fn is_over(&self) -> bool {
        self.is_over.load(Ordering::SeqCst)
    }

    // How many milliseconds it lasts if it isn't renewed: 0 once it has ended. Without a clock nothing is known of that.
    fn left<R: Clock>(&self, rt: &R) -> u64 {
        let Some(now) = self.millis(rt) else {
            return 0;
        };
        if self.has_ended.load(Ordering::SeqCst) {
            return 0;
        }
        let renewed = self.renewed.load(Ordering::SeqCst);
        LEASE_SECONDS
            .saturating_mul(1_000)
            .saturating_sub(now.saturating_sub(renewed))
    }
}

/// A lease that a thread of its own keeps alive, until it is released or has ended.
pub struct KeptLease {
    term: Arc<Term, Global>,
}

impl Drop for KeptLease {
    fn drop(self) {
        let KeptLease { term: _ } = self;
    }
}

impl KeptLease {
    /// Gives the lease of a document its thread, which was taken over in this term.
    ///
    /// `NoThread` if none can be made, and `Memory`; then the lease is released, or ends by itself.
    pub fn new<R>(rt: &R, term: Term, lease: Lease<R>) -> Result<KeptLease, Fault>
    where
        R: Net<Listener = TcpListener, Stream = TcpStream>
            + Threads
            + Wait
            + Clock
            + RandomSource
            + AllocGlobal
            + Clone
            + Send
            + Drop
            + 'static,
        ensures { IfErr result IsThreadFault }
    {
        let term = Arc::new(rt.alloc(), term)?;
        let own = lease.another()?;
        let keeping = Keeping {
            rt: rt.clone()?,
            lease,
            term: Arc::try_clone(&term)?,
        };
        match begin_task(rt, keeping) {
            Ok(()) => Ok(KeptLease { term }),
            Err(fault) => {
                // No server must wait for the end of a lease under which nothing was served.
                let _ = own.release();
                Err(fault)
            }
        }
    }

    /// Checks whether the lease was renewed in the last ten seconds, and hasn't ended. It waits for no answer of the etcd.
    pub fn is_alive<R: Clock>(&self, rt: &R) -> bool {
        self.term.left(rt) > 0
    }

    /// Ends the lease, so that another can take the document over at once. Call it once nothing is written any more. It waits at most until
    /// the lease ends by itself.
    pub fn release<R: Wait + Clock>(&self, rt: &R) {
        self.term.is_over.store(true, Ordering::SeqCst);
        for _ in rt.forever() {
            if !self.is_alive(rt) {
                return;
            }
            sleep(rt, Duration::from_millis(LOOK_MILLIS));
        }
        unreachable!()
    }
}

// What the thread of a lease has.
struct Keeping<R: Net<Stream = TcpStream> + Clock + RandomSource + AllocGlobal + Clone + Drop> {
    rt: R,
    lease: Lease<R>,
    term: Arc<Term, Global>,
}

impl<R: Net<Stream = TcpStream> + Clock + RandomSource + AllocGlobal + Clone + Drop> Drop
    for Keeping<R> {
    fn drop(self) {
        let Keeping {
            rt: _,
            lease: _,
            term: _,
        } = self;
    }
}

impl<R> Task for Keeping<R>
where
    R: Net<Stream = TcpStream> + Wait + Clock + RandomSource + AllocGlobal + Clone + Drop,
{
    // Keeps the lease alive until it has ended, and releases it once that is asked for.
    fn run(self) {
        let Keeping {
            rt,
            mut lease,
            term,
        } = self;
        for _ in rt.forever() {
            if term.is_over() {
                let _ = lease.release();
                return term.end();
            }
            let done = renew(&rt, &mut lease, &term);
            let Some(rest) = rest_after(done, term.left(&rt)) else {
                return term.end();
            };
            rest_for(&rt, &term, rest);
        }
        unreachable!()
    }
}

// Renews a lease, and notes in its term when that was asked.
fn renew<R>(rt: &R, lease: &mut Lease<R>, term: &Term) -> Result<bool, StoreError>
where
    R: Net<Stream = TcpStream> + Clock + RandomSource + AllocGlobal + Clone + Drop,
{
    let asked = term.millis(rt);
    let limit = term.left(rt).min(MOST_RENEWAL_MILLIS);
    let done = lease.renew(Duration::from_millis(limit));
    if let Ok(true) = done {
        term.renew(asked);
    }
    done
}

// Returns how many milliseconds the thread rests after a renewal that ended so, if the lease lasts `left` milliseconds more. None if it has
// ended: if the etcd says so, or if the etcd hasn't answered for as long as it lasts.
fn rest_after(done: Result<bool, StoreError>, left: u64) -> Option<u64>
    ensures { result ≡ rest_after done left }
{
    match done {
        Ok(true) => Some(REST_MILLIS),
        Err(_) if left > 0 => Some(RETRY_MILLIS),
        Ok(false) | Err(_) => None,
    }
}

// Rests for this many milliseconds, or until the lease must be released.
fn rest_for<R: Clock>(rt: &R, term: &Term, millis: u64) {
    for _ in 0..millis / LOOK_MILLIS {
        if term.is_over() {
            return;
        }
        sleep(rt, Duration::from_millis(LOOK_MILLIS));
    }
}
