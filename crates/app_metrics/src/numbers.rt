// What a server has counted, and how it is told.
ghost use Rattle.std.specs.Prelude.{◌≡◌, IfOk, string_bytes};
ghost use Rattle.app_metrics.specs.Numbers.{health_line, metrics_text};

use crate::text::{HealthLine, MetricsText};
use std::alloc::{AllocError, Global};

/// What a server has counted. What is counted at all is counted since its start.
#[derive(Clone, Copy, Debug, PartialEq, Eq)]
pub struct Numbers {
    /// The version of the document: how many entries are kept.
    pub version: u64,
    /// How many of them are published, so that clients are told of them.
    pub published: u64,
    /// The version of the last checkpoint.
    pub floor: u64,
    /// How many objects the document has.
    pub objects: u64,
    /// How many clients are connected.
    pub clients: u64,
    /// How many of them are told unasked what is published.
    pub live: u64,
    /// How many clients have connected.
    pub connections: u64,
    /// How many clients were turned away, as all seats were taken.
    pub turned_away: u64,
    /// How often a client was told something unasked.
    pub pushes: u64,
    /// How many requests that aren't a client's were answered.
    pub requests: u64,
    /// How many edits were judged.
    pub edits: u64,
    /// How many of them the rules refused, by the reason.
    pub refusals: Refusals,
    /// How many messages were answered by a No, by the reason.
    pub noes: Noes,
    /// How many entries were kept.
    pub entries: u64,
    /// How often the journal was synced for entries.
    pub syncs: u64,
    /// How many checkpoints were made.
    pub checkpoints: u64,
    /// How many checkpoints were to be made, and had no room or no open file.
    pub checkpoints_refused: u64,
    /// How many microseconds they took together.
    pub checkpoint_micros: u64,
    /// How many bytes the last of them has.
    pub checkpoint_bytes: u64,
}

/// A number for each reason by which the rules refuse an edit.
#[derive(Clone, Copy, Debug, PartialEq, Eq)]
pub struct Refusals {
    /// The root was to be made, moved or deleted.
    pub is_root: u64,
    /// The new object's id isn't its author's, or not above those used.
    pub bad_id: u64,
    /// The object isn't there.
    pub gone: u64,
    /// The new parent isn't there.
    pub parent_gone: u64,
    /// The kind may not stand there.
    pub bad_parent: u64,
    /// The new parent is the object, or stands below it.
    pub cycle: u64,
    /// No position is free.
    pub crowded: u64,
    /// It would stand too deep.
    pub too_deep: u64,
}

/// A number for each reason of a No.
#[derive(Clone, Copy, Debug, PartialEq, Eq)]
pub struct Noes {
    /// No client has the id.
    pub stranger: u64,
    /// The edit was judged before.
    pub repeat: u64,
    /// An edit of a lower number is missing.
    pub gap: u64,
    /// No version or no id is left.
    pub full: u64,
    /// The device failed.
    pub device: u64,
    /// The device had failed before.
    pub failed: u64,
    /// Memory ran out.
    pub memory: u64,
    /// The edit is too large.
    pub too_large: u64,
    /// The bytes are no message that a client sends.
    pub not_read: u64,
}

impl Numbers {
    /// One line for a person or a supervisor: what is published, and how many clients are connected. Errors: out of memory.
    pub fn health(&self, alloc: Global) -> Result<String, AllocError>
        ensures { IfOk result (λ line. string_bytes line ≡ health_line self.now) }
    {
        let line = HealthLine(self);
        format!(in alloc; "{line}")
    }

    /// All numbers, in the text form of Prometheus ("Exposition formats"). Errors: out of memory.
    pub fn metrics(&self, alloc: Global) -> Result<String, AllocError>
        ensures { IfOk result (λ text. string_bytes text ≡ metrics_text self.now) }
    {
        let text = MetricsText(self);
        format!(in alloc; "{text}")
    }
}
