// What a server counts while it runs.
ghost use Rattle.std.specs.Prelude.{◌≡◌, ◌↔◌, IsTrue};
ghost use Rattle.app_listener.specs.Figures.{IsDue, bytes_kept, entries_kept};

use crate::noes::NoCounts;
use app_metrics::{Meter, Numbers};
use canvas_folder::{Space, SpaceRefusal};
use canvas_judge::NoReason;
use disk_integrity::{Notes, ShelfCall};
use std::alloc::Global;
use std::sync::Arc;
use std::sync::atomic::{AtomicU64, Ordering};

/// What a server counts while it runs. Each number may be written while others are read.
#[derive(Drop)]
pub struct Figures {
    meter: Arc<Meter, Global>,
    published: AtomicU64,
    objects: AtomicU64,
    past_floor: AtomicU64,
    clients: AtomicU64,
    connections: AtomicU64,
    turned_away: AtomicU64,
    live: AtomicU64,
    pushes: AtomicU64,
    requests: AtomicU64,
    noes: NoCounts,
    notes: Notes,
    // The refused checkpoints, if the document is in a folder; how many of them were seen, and the version before which no other is tried.
    space: Option<Space>,
    seen_refused: AtomicU64,
    held_until: AtomicU64,
}

impl Figures {
    /// Nothing is counted yet, but what the journal's meter says, and what is noted of its shelf, and of its folder, if it is in one. What
    /// the journal opened with is published.
    pub fn new(meter: Arc<Meter, Global>, notes: Notes, space: Option<Space>) -> Figures {
        let opened = meter.version();
        Figures {
            meter,
            published: AtomicU64::new(opened),
            objects: AtomicU64::new(0),
            past_floor: AtomicU64::new(0),
            clients: AtomicU64::new(0),
            connections: AtomicU64::new(0),
            turned_away: AtomicU64::new(0),
            live: AtomicU64::new(0),
            pushes: AtomicU64::new(0),
            requests: AtomicU64::new(0),
            noes: NoCounts::new(),
            notes,
            space,
            seen_refused: AtomicU64::new(0),
            held_until: AtomicU64::new(0),
        }
    }

    /// The published document stands at this version, has so many objects, and stands so many entries past its floor.
    pub fn stands(&self, published: u64, objects: u64, past_floor: u64) {
        self.published.store(published, Ordering::SeqCst);
        self.objects.store(objects, Ordering::SeqCst);
        self.past_floor.store(past_floor, Ordering::SeqCst);
    }

    /// The version up to which entries were let go of, a tenth of a second ago.
    pub fn floor(&self) -> u64 {
        let past_floor = self.past_floor.load(Ordering::SeqCst);
        self.published
            .load(Ordering::SeqCst)
            .saturating_sub(past_floor)
    }

    /// The least version of a copy that is worth to be sent once more: whoever is sent it is told the entries after it, and they aren't many.
    pub fn least_copy(&self) -> u64 {
        self.published
            .load(Ordering::SeqCst)
            .saturating_sub(self.tail_entries())
            .max(self.floor())
    }

    /// The most entries that a checkpoint keeps: as many as there are objects, and at least 256.
    pub fn tail_entries(&self) -> u64 {
        entries_kept(self.objects.load(Ordering::SeqCst))
    }

    /// The most bytes of the texts of these entries: as many as the last checkpoint took, but at least 1 MiB and at most 16 MiB.
    pub fn tail_bytes(&self) -> u64 {
        bytes_kept(self.notes.counts().checkpoint_bytes)
    }

    /// Returns how many bytes the last checkpoint took: about as many as the text of a copy.
    pub fn checkpoint_bytes(&self) -> u64 {
        self.notes.counts().checkpoint_bytes
    }

    /// Checks whether a checkpoint is due: the entries after the last one take as many bytes as it did, and are 256 or take 1 MiB. One that
    /// was refused is tried again after as many further entries as a checkpoint may keep.
    pub fn is_checkpoint_due(&self) -> bool {
        let version = self.meter.version();
        let refused = self.refused();
        if self.seen_refused.swap(refused, Ordering::SeqCst) != refused {
            let until = version.saturating_add(self.tail_entries());
            self.held_until.store(until, Ordering::SeqCst);
        }
        let until = self.held_until.load(Ordering::SeqCst);
        let last = self.meter.checkpoint_version();
        let counts = self.notes.counts();
        is_due(
            version,
            until,
            last,
            counts.bytes_since,
            counts.checkpoint_bytes,
        )
    }

    // How many checkpoints were refused.
    fn refused(&self) -> u64 {
        self.space.as_ref().map_or(0, |space| space.refused())
    }

    /// Why the last checkpoint that was to be made wasn't, if it is known; None if it was made.
    pub fn refusal(&self) -> Option<SpaceRefusal> {
        self.space.as_ref()?.last()
    }

    /// A client has connected. Answers how many have, with this one.
    pub fn begin(&self) -> u64 {
        self.clients.fetch_add(1, Ordering::SeqCst);
        self.connections
            .fetch_add(1, Ordering::SeqCst)
            .wrapping_add(1)
    }

    /// A connection has ended.
    pub fn end(&self) {
        self.clients.fetch_sub(1, Ordering::SeqCst);
    }

    /// A client is told unasked from now on.
    pub fn begin_live(&self) {
        self.live.fetch_add(1, Ordering::SeqCst);
    }

    /// A client that was told unasked is gone.
    pub fn end_live(&self) {
        self.live.fetch_sub(1, Ordering::SeqCst);
    }

    /// A client was told something unasked.
    pub fn push(&self) {
        self.pushes.fetch_add(1, Ordering::SeqCst);
    }

    /// A client was turned away.
    pub(crate) fn turn_away(&self) {
        self.turned_away.fetch_add(1, Ordering::SeqCst);
    }

    /// A request of another kind was answered.
    pub(crate) fn answer(&self) {
        self.requests.fetch_add(1, Ordering::SeqCst);
    }

    /// A message was answered by a No.
    pub fn refuse(&self, reason: NoReason) {
        self.noes.count(reason);
    }

    /// The first call of the folder that failed, if one did.
    pub fn failed_call(&self) -> Option<ShelfCall> {
        self.notes.failed()
    }

    /// What is counted so far.
    pub(crate) fn numbers(&self) -> Numbers {
        Numbers {
            version: self.meter.version(),
            published: self.published.load(Ordering::SeqCst),
            floor: self.meter.checkpoint_version(),
            objects: self.objects.load(Ordering::SeqCst),
            clients: self.clients.load(Ordering::SeqCst),
            connections: self.connections.load(Ordering::SeqCst),
            live: self.live.load(Ordering::SeqCst),
            turned_away: self.turned_away.load(Ordering::SeqCst),
            pushes: self.pushes.load(Ordering::SeqCst),
            requests: self.requests.load(Ordering::SeqCst),
            edits: self.meter.edits(),
            refusals: self.meter.refusals(),
            noes: self.noes.numbers(),
            entries: self.meter.entries(),
            syncs: self.meter.syncs(),
            checkpoints: self.meter.checkpoints(),
            checkpoints_refused: self.refused(),
            checkpoint_micros: self.meter.checkpoint_micros(),
            checkpoint_bytes: self.notes.counts().checkpoint_bytes,
        }
    }
}

// Checks whether a checkpoint is due at a version, after so many bytes of entries since the last one, which stood at the version `last`
// and took so many bytes: so the bytes that are written for checkpoints are no more than those of the entries. None is due before the
// version `until`.
fn is_due(version: u64, until: u64, last: u64, bytes: u64, last_bytes: u64) -> bool
    ensures { IsTrue result ↔ IsDue version until last bytes last_bytes }
{
    let entries = version.saturating_sub(last);
    version >= until && bytes >= last_bytes && (entries >= 256 || bytes >= 1_048_576)
}

// The most entries that a checkpoint of a document of so many objects keeps.
fn entries_kept(objects: u64) -> u64
    ensures { result ≡ entries_kept objects }
{
    objects.max(256)
}

// The most bytes of their texts, where the last checkpoint took `last` bytes.
fn bytes_kept(last: u64) -> u64
    ensures { result ≡ bytes_kept last }
{
    last.max(1_048_576).min(16_777_216)
}
