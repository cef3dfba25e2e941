// How long a server runs.
ghost use Rattle.std.specs.Prelude.{◌⊎◌, IfSome};
ghost use Rattle.app_storage.specs.Faults.{IsJournalFault, IsStopFault};

use crate::glancing::{GLANCE_MILLIS, Seen};
use crate::kicking::KickFile;
use crate::kicks::Kicks;
use crate::own_document::Tenure;
use crate::stopping::StopFile;
use app_faults::Fault;
use app_listener::Shared;
use app_storage::Refused;
use canvas_folder::SpaceRefusal;
use std::sync::Wait;
use std::sync::atomic::Ordering;
use std::thread::sleep;
use std::time::{Clock, Duration};

// For how many looks answers may be under way once the journal has failed: a second.
const GRACE_LOOKS: u32 = 10;

// For how many looks a server that stops waits for what is being kept, and how long each takes.
const STILL_LOOKS: u32 = 100;

const STILL_MILLIS: u64 = 10;

// How long the last answers may take to leave.
const LEAVE_MILLIS: u64 = 50;

/// What ends a server, beside its journal, or connections of it.
pub(crate) struct Ends {
    /// The file that stops it.
    pub(crate) stop: StopFile,
    /// The file that names connections to end.
    pub(crate) kick: KickFile,
    /// What it holds of a document in an etcd, if it has one.
    pub(crate) tenure: Option<Tenure>,
}

impl Drop for Ends {
    fn drop(self) {
        let Ends {
            stop: _,
            kick: _,
            tenure: _,
        } = self;
    }
}

/// Looks ten times a second whether the server must end, and says why then: the lease of its document has ended, or it wasn't renewed in
/// ten seconds; the file that stops it has come; or the journal has failed. It never waits for the writer or for an etcd. Logs a checkpoint of the
/// document of this name that isn't made, once until one is. Looks as often which connections an operator ends.
pub(crate) fn watch<R: Wait + Clock + AllocGlobal>(
    rt: &R,
    shared: &Shared,
    seen: &Seen,
    kicks: &Kicks,
    ends: &Ends,
    name: &str,
) -> Fault
    ensures { IsJournalFault result ⊎ IsStopFault ends.now.stop.path result }
{
    let mut grace = GRACE_LOOKS;
    let mut told = None;
    for _ in rt.forever() {
        if let Some(fault) = ended(rt, ends) {
            still(rt, shared, seen, fault);
            return fault;
        }
        if seen.has_failed.load(Ordering::SeqCst) {
            if grace == 0 {
                return failed(shared, ends);
            }
            grace -= 1;
        }
        ends.kick.look(rt, &shared.log, kicks);
        let refusal = shared.figures.refusal();
        if told.is_none() {
            tell_refusal(rt, shared, name, refusal);
        }
        told = refusal;
        sleep(rt, Duration::from_millis(GLANCE_MILLIS));
    }
    unreachable!()
}

// Logs why a checkpoint isn't made, if it isn't.
fn tell_refusal<R: Wait + AllocGlobal>(
    rt: &R,
    shared: &Shared,
    dir: &str,
    refusal: Option<SpaceRefusal>,
) {
    if let Some(refusal) = refusal {
        let refused = Refused { refusal, dir };
        if let Ok(line) = format!(in rt.alloc(); "{refused}") {
            shared.log.tell(rt, line);
        }
    }
}

// Why the server must end although its journal hasn't failed, if it must.
fn ended<R: Clock>(rt: &R, ends: &Ends) -> Option<Fault>
    ensures { IfSome result (λ fault. IsJournalFault fault ⊎ IsStopFault ends.now.stop.path fault) }
{
    match &ends.tenure {
        Some(tenure) if !tenure.lease.is_alive(rt) => Some(Fault::LeaseEnded),
        _ if ends.stop.has_come() => Some(Fault::Stopped),
        _ => None,
    }
}

// Has nothing judged any more. A server that is stopped waits a while for what is being kept, and for its answers.
fn still<R: Clock>(rt: &R, shared: &Shared, seen: &Seen, fault: Fault) {
    shared.has_ended.store(true, Ordering::SeqCst);
    if fault != Fault::Stopped {
        return;
    }
    for _ in 0..STILL_LOOKS {
        if seen.is_still.load(Ordering::SeqCst) {
            sleep(rt, Duration::from_millis(LEAVE_MILLIS));
            return;
        }
        sleep(rt, Duration::from_millis(STILL_MILLIS));
    }
}

// What it is that the journal has failed.
fn failed(shared: &Shared, ends: &Ends) -> Fault
    ensures { IsJournalFault result }
{
    let call = shared.figures.failed_call();
    match &ends.tenure {
        Some(tenure) => Fault::StoreFailed {
            call,
            why: tenure.causes.last(),
        },
        None => Fault::JournalFailed { call },
    }
}
