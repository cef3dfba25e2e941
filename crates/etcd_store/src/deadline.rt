// Moments until which something may take.
ghost use Rattle.std.specs.Prelude.{◌≡◌, ◌<◌, ◌/◌, min};
ghost use Rattle.std.specs.Duration.{as_nanos};

use crate::error::StoreError;
use std::time::{Clock, Duration, Instant};

// The most seconds that one endpoint may take to be connected, to read a request and to answer it, all together.
const REQUEST_SECONDS: u64 = 5;

// A moment of the monotonic clock.
#[derive(Clone, Copy)]
pub(crate) struct Deadline {
    end: Instant,
}

impl Deadline {
    // The moment after so long. `Unanswered` without a clock.
    pub(crate) fn after<R: Clock>(clock: &R, limit: Duration) -> Result<Deadline, StoreError> {
        match Instant::now(clock)?.checked_add(limit) {
            Some(end) => Ok(Deadline { end }),
            None => Err(StoreError::Unanswered),
        }
    }

    // How long it is until then, which is more than nothing. `Unanswered` where it has passed, or without a clock.
    pub(crate) fn left<R: Clock>(self, clock: &R) -> Result<Duration, StoreError> {
        let left = self.end.duration_since(Instant::now(clock)?);
        if left.is_zero() {
            Err(StoreError::Unanswered)
        } else {
            Ok(left)
        }
    }
}

// How long one endpoint may take, if so long is left for so many: its share, and 5 seconds at most. So each of them is asked.
pub(crate) fn share_of(left: Duration, endpoints: u32) -> Duration
    ensures some { 0 < endpoints → as_nanos result ≡ min (as_nanos left / endpoints) 5000000000 }
    ensures none { endpoints ≡ 0 → as_nanos result ≡ min (as_nanos left) 5000000000 }
{
    let share = left.checked_div(endpoints).unwrap_or(left);
    share.min(Duration::from_secs(REQUEST_SECONDS))
}
