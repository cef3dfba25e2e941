// Whether a peer takes what waits for it.
ghost use Rattle.std.specs.Prelude.{◌≡◌, ◌⊎◌, ◌↔◌, ◌<◌, ◌≤◌, ◌-◌, None, Some, IsTrue};
ghost use Rattle.net_outbox.specs.Patience.{IsOver, IsSlow, TakesTooLittle};

use crate::MUCH_WAITS;

// How long a span is.
const SPAN_MILLIS: u64 = 8000;

// When a span began, how many bytes had left by then, and how many waited.
#[derive(Clone, Copy, Debug)]
struct Span {
    at: u64,
    taken: u64,
    waiting: usize,
}

/// How long a peer is waited for that doesn't take what waits for it: spans of 8 seconds, which begin once something waits.
#[derive(Clone, Copy, Debug)]
pub struct Patience {
    span: Option<Span>,
}

impl Patience {
    /// Nothing waits yet.
    pub fn new() -> Patience
        ensures { result.span ≡ None }
    {
        Patience { span: None }
    }

    /// Checks whether a peer is too slow at this millisecond, when `taken` bytes have left and `waiting` wait: within a span it took nothing, or
    /// fewer than `least` bytes though more than 256 KiB waited at its beginning and wait at its end.
    pub fn ends(&mut self, now: u64, taken: u64, waiting: usize, least: u64) -> bool
        ensures slow { IsTrue result ↔ IsSlow self.old.span now taken waiting least }
        ensures rests { waiting ≡ 0 → self.new.span ≡ None }
        ensures begins { 0 < waiting → IsOver self.old.span now → self.new.span ≡ Some (record { at = now; taken = taken; waiting = waiting }) }
        ensures stays { 0 < waiting → (IsOver self.old.span now → ⊥) → self.new.span ≡ self.old.span }
    {
        if waiting == 0 {
            self.span = None;
            return false;
        }
        let Some(span) = self.span else {
            self.span = Some(Span {
                at: now,
                taken,
                waiting,
            });
            return false;
        };
        if now.saturating_sub(span.at) < SPAN_MILLIS {
            return false;
        }
        self.span = Some(Span {
            at: now,
            taken,
            waiting,
        });
        span.is_slow(taken, waiting, least)
    }
}

impl Span {
    // Checks whether too few bytes have left since it began.
    fn is_slow(&self, taken: u64, waiting: usize, least: u64) -> bool
        ensures { IsTrue result ↔ TakesTooLittle self.now taken waiting least }
    {
        let took = taken.saturating_sub(self.taken);
        took == 0 || (took < least && self.waiting > MUCH_WAITS && waiting > MUCH_WAITS)
    }
}
