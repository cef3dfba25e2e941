// What was counted.

use crate::{Judgement, Refusals};
use canvas_model::Reason;
use std::sync::atomic::{AtomicU64, Ordering};
use std::time::Duration;

/// What a keeper was given, and did. Each number may be read by other threads while it is written.
#[derive(Drop)]
pub struct Meter {
    opening: u64,
    entries: AtomicU64,
    edits: AtomicU64,
    refused: Refused,
    syncs: AtomicU64,
    checkpoints: AtomicU64,
    checkpoint_micros: AtomicU64,
    checkpoint_version: AtomicU64,
}

// How many edits were refused, by the reason.
#[derive(Drop)]
struct Refused {
    is_root: AtomicU64,
    bad_id: AtomicU64,
    gone: AtomicU64,
    parent_gone: AtomicU64,
    bad_parent: AtomicU64,
    cycle: AtomicU64,
    crowded: AtomicU64,
    too_deep: AtomicU64,
}

impl Refused {
    fn new() -> Refused {
        Refused {
            is_root: AtomicU64::new(0),
            bad_id: AtomicU64::new(0),
            gone: AtomicU64::new(0),
            parent_gone: AtomicU64::new(0),
            bad_parent: AtomicU64::new(0),
            cycle: AtomicU64::new(0),
            crowded: AtomicU64::new(0),
            too_deep: AtomicU64::new(0),
        }
    }

    // Where this reason is counted.
    fn of(&self, reason: Reason) -> &AtomicU64 {
        match reason {
            Reason::IsRoot => &self.is_root,
            Reason::BadId => &self.bad_id,
            Reason::Gone => &self.gone,
            Reason::ParentGone => &self.parent_gone,
            Reason::BadParent => &self.bad_parent,
            Reason::Cycle => &self.cycle,
            Reason::Crowded => &self.crowded,
            Reason::TooDeep => &self.too_deep,
        }
    }
}

impl Meter {
    /// Nothing was counted yet, of a room that opens at this version.
    pub fn new(opening: u64) -> Meter {
        Meter {
            opening,
            entries: AtomicU64::new(0),
            edits: AtomicU64::new(0),
            refused: Refused::new(),
            syncs: AtomicU64::new(0),
            checkpoints: AtomicU64::new(0),
            checkpoint_micros: AtomicU64::new(0),
            checkpoint_version: AtomicU64::new(opening),
        }
    }

    // A request was judged so.
    pub(crate) fn count(&self, judged: Judgement) {
        self.entries.fetch_add(1, Ordering::SeqCst);
        if judged != Judgement::Joined {
            self.edits.fetch_add(1, Ordering::SeqCst);
        }
        if let Judgement::Refused(reason) = judged {
            self.refused.of(reason).fetch_add(1, Ordering::SeqCst);
        }
    }

    // A request that was counted so isn't kept.
    pub(crate) fn take_back(&self, judged: Judgement) {
        self.entries.fetch_sub(1, Ordering::SeqCst);
        if judged != Judgement::Joined {
            self.edits.fetch_sub(1, Ordering::SeqCst);
        }
        if let Judgement::Refused(reason) = judged {
            self.refused.of(reason).fetch_sub(1, Ordering::SeqCst);
        }
    }

    // Entries were synced.
    pub(crate) fn sync(&self) {
        self.syncs.fetch_add(1, Ordering::SeqCst);
    }

    // A checkpoint was made of this version, in this time.
    pub(crate) fn checkpoint(&self, version: u64, took: Duration) {
        self.checkpoint_version.store(version, Ordering::SeqCst);
        let micros = u64::try_from(took.as_micros()).unwrap_or(u64::MAX);
        self.checkpoint_micros.fetch_add(micros, Ordering::SeqCst);
        self.checkpoints.fetch_add(1, Ordering::SeqCst);
    }

    /// How many edits the rules refused, by the reason.
    pub fn refusals(&self) -> Refusals {
        let Refused {
            is_root,
            bad_id,
            gone,
            parent_gone,
            bad_parent,
            cycle,
            crowded,
            too_deep,
        } = &self.refused;
        Refusals {
            is_root: is_root.load(Ordering::SeqCst),
            bad_id: bad_id.load(Ordering::SeqCst),
            gone: gone.load(Ordering::SeqCst),
            parent_gone: parent_gone.load(Ordering::SeqCst),
            bad_parent: bad_parent.load(Ordering::SeqCst),
            cycle: cycle.load(Ordering::SeqCst),
            crowded: crowded.load(Ordering::SeqCst),
            too_deep: too_deep.load(Ordering::SeqCst),
        }
    }

    /// How many edits were judged: those that the rules let pass, and those that they refused.
    pub fn edits(&self) -> u64 {
        self.edits.load(Ordering::SeqCst)
    }

    /// How many requests were judged: Joins and edits.
    pub fn entries(&self) -> u64 {
        self.entries.load(Ordering::SeqCst)
    }

    /// The version that they led to.
    pub fn version(&self) -> u64 {
        self.opening.wrapping_add(self.entries())
    }

    /// How often entries were synced.
    pub fn syncs(&self) -> u64 {
        self.syncs.load(Ordering::SeqCst)
    }

    /// The version of the last checkpoint; that of the opening, which is written as one, if there was no other.
    pub fn checkpoint_version(&self) -> u64 {
        self.checkpoint_version.load(Ordering::SeqCst)
    }

    /// How many checkpoints were made.
    pub fn checkpoints(&self) -> u64 {
        self.checkpoints.load(Ordering::SeqCst)
    }

    /// How many microseconds they took together.
    pub fn checkpoint_micros(&self) -> u64 {
        self.checkpoint_micros.load(Ordering::SeqCst)
    }
}
