// How many messages were answered by a No.

use app_metrics::Noes;
use canvas_judge::NoReason;
use std::sync::atomic::{AtomicU64, Ordering};

/// How many messages were answered by a No, by the reason.
#[derive(Drop)]
pub(crate) struct NoCounts {
    stranger: AtomicU64,
    repeat: AtomicU64,
    gap: AtomicU64,
    full: AtomicU64,
    device: AtomicU64,
    failed: AtomicU64,
    memory: AtomicU64,
    too_large: AtomicU64,
    not_read: AtomicU64,
}

impl NoCounts {
    /// None was yet.
    pub(crate) fn new() -> NoCounts {
        NoCounts {
            stranger: AtomicU64::new(0),
            repeat: AtomicU64::new(0),
            gap: AtomicU64::new(0),
            full: AtomicU64::new(0),
            device: AtomicU64::new(0),
            failed: AtomicU64::new(0),
            memory: AtomicU64::new(0),
            too_large: AtomicU64::new(0),
            not_read: AtomicU64::new(0),
        }
    }

    // Where this reason is counted.
    fn of(&self, reason: NoReason) -> &AtomicU64 {
        match reason {
            NoReason::Stranger => &self.stranger,
            NoReason::Repeat => &self.repeat,
            NoReason::Gap => &self.gap,
            NoReason::Full => &self.full,
            NoReason::Device => &self.device,
            NoReason::Failed => &self.failed,
            NoReason::Memory => &self.memory,
            NoReason::TooLarge => &self.too_large,
            NoReason::NotRead => &self.not_read,
        }
    }

    /// A message was answered so.
    pub(crate) fn count(&self, reason: NoReason) {
        self.of(reason).fetch_add(1, Ordering::SeqCst);
    }

    /// What is counted so far.
    pub(crate) fn numbers(&self) -> Noes {
        let NoCounts {
            stranger,
            repeat,
            gap,
            full,
            device,
            failed,
            memory,
            too_large,
            not_read,
        } = self;
        Noes {
            stranger: stranger.load(Ordering::SeqCst),
            repeat: repeat.load(Ordering::SeqCst),
            gap: gap.load(Ordering::SeqCst),
            full: full.load(Ordering::SeqCst),
            device: device.load(Ordering::SeqCst),
            failed: failed.load(Ordering::SeqCst),
            memory: memory.load(Ordering::SeqCst),
            too_large: too_large.load(Ordering::SeqCst),
            not_read: not_read.load(Ordering::SeqCst),
        }
    }
}
