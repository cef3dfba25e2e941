// When a connection goes on that rests.

use canvas_turns::{Waits, Woken};
use net_outbox::Patience;

// How often it is looked whether a peer takes what waits for it.
const LOOK_MILLIS: u64 = 1_000;

// After how long it is looked again for something to tell that couldn't be told.
const HELD_MILLIS: u64 = 20;

// How often a client that is told unasked is pinged.
const PING_MILLIS: u64 = 30_000;

/// What holds for all connections of a worker in one step.
#[derive(Clone, Copy, Debug)]
pub(crate) struct Moment {
    /// The millisecond.
    pub(crate) now: u64,
    /// How many bytes a slow peer must take in 8 seconds.
    pub(crate) least: u64,
    /// How long a client that was told something unasked is told nothing more, unless something is said to it.
    pub(crate) rest: u64,
    /// Whether clients are told something unasked now, or once all messages that have come are answered.
    pub(crate) tells: bool,
    /// The number up to which it is whispered what clients tell of themselves.
    pub(crate) heard: u64,
}

/// What is known of the peer of a connection, which may be silent so long, and has to take what waits for it.
#[derive(Debug, Drop)]
pub(crate) struct Watch {
    idle_millis: u64,
    moment: Moment,
    // When the peer was last seen to be there, and how many bytes had left then.
    seen: u64,
    taken: u64,
    patience: Patience,
    // When it was pinged, and told something unasked, if it is.
    pinged: Option<u64>,
    told: Option<u64>,
    // Whether it goes on once something is published, and whether there is something that couldn't be told.
    listens: bool,
    is_held: bool,
    // Whether it is to be told something once all messages are answered, and whether something was said to it that it waits for.
    is_late: bool,
    has_said: bool,
    // When it goes on at the latest, and before when it doesn't, as its last step took long.
    due: u64,
    tired: u64,
}

impl Watch {
    /// A connection begins.
    pub(crate) fn new(moment: Moment, idle_seconds: u64) -> Watch {
        Watch {
            idle_millis: idle_seconds.saturating_mul(1_000),
            moment,
            seen: moment.now,
            taken: 0,
            patience: Patience::new(),
            pinged: None,
            told: None,
            listens: false,
            is_held: false,
            is_late: false,
            has_said: false,
            due: moment.now,
            tired: 0,
        }
    }

    /// A step begins. It is told whether the peer has sent something.
    pub(crate) fn begin(&mut self, moment: Moment, has_come: bool) {
        self.moment = moment;
        self.listens = false;
        self.is_late = false;
        if has_come {
            self.seen = moment.now;
        }
    }

    /// Checks whether it goes on once something is published.
    pub(crate) fn is_listening(&self) -> bool {
        self.listens
    }

    /// Checks whether it is to go on once all messages that have come are answered.
    pub(crate) fn is_late(&self) -> bool {
        self.is_late
    }

    /// The millisecond at which it goes on at the latest.
    pub(crate) fn due(&self) -> u64 {
        self.due
    }

    /// Has it go on at this millisecond, and not before: its last step took long.
    pub(crate) fn tire(&mut self, until: u64) {
        self.tired = until;
        self.due = until;
    }

    /// Has it go on a moment later: it took no step, since its client's copy is being written.
    pub(crate) fn hold(&mut self, now: u64) {
        self.due = now.saturating_add(HELD_MILLIS);
    }

    /// Checks whether it doesn't go on yet.
    pub(crate) fn is_tired(&self, now: u64) -> bool {
        now < self.tired
    }

    // How long it rests at most. None where its peer was silent too long.
    fn left(&self, waiting: usize) -> Option<u64> {
        let silent = self.moment.now.saturating_sub(self.seen);
        let left = self.idle_millis.saturating_sub(silent);
        if left == 0 {
            return None;
        }
        let most = if waiting > 0 {
            LOOK_MILLIS
        } else {
            self.left_live().unwrap_or(left)
        };
        Some(left.min(most))
    }

    // How long it rests, if its client is told unasked: until the next ping, unless there may be something to tell before.
    fn left_live(&self) -> Option<u64> {
        let pinged = self.pinged?;
        if self.listens {
            let passed = self.moment.now.saturating_sub(pinged);
            return Some(self.ping_millis().saturating_sub(passed));
        }
        if self.is_held {
            return Some(HELD_MILLIS);
        }
        Some(self.left_of_rest().unwrap_or(0))
    }

    // How often the client is pinged, if it is told unasked.
    fn ping_millis(&self) -> u64 {
        PING_MILLIS.min(self.idle_millis / 2)
    }

    // How many milliseconds it is told nothing yet, if it was told something a moment ago.
    fn left_of_rest(&self) -> Option<u64> {
        let passed = self.moment.now.saturating_sub(self.told?);
        if passed < self.moment.rest {
            Some(self.moment.rest.saturating_sub(passed))
        } else {
            None
        }
    }

    // Checks whether the peer is to be pinged.
    fn pings(&mut self, waiting: usize) -> bool {
        let now = self.moment.now;
        let is_due = match self.pinged {
            Some(pinged) => { waiting == 0 && now.saturating_sub(pinged) >= self.ping_millis() }
            None => false,
        };
        if is_due {
            self.pinged = Some(now);
        }
        is_due
    }
}

impl Waits for Watch {
    // A peer that takes some of what waits for it isn't silent.
    fn wait(&mut self, taken: u64, waiting: usize) -> Woken {
        let now = self.moment.now;
        if waiting > 0 && taken != self.taken {
            self.seen = now;
        }
        self.taken = taken;
        if self.patience.ends(now, taken, waiting, self.moment.least) {
            return Woken::Slow;
        }
        if self.pings(waiting) {
            return Woken::Pings;
        }
        match self.left(waiting) {
            Some(left) => {
                self.due = now.saturating_add(left);
                Woken::Rests
            }
            None => Woken::Silent,
        }
    }

    // From the first call on the client is told unasked.
    fn listens(&mut self, _version: u64, has_said: bool) -> bool {
        if self.pinged.is_none() {
            self.pinged = Some(self.moment.now);
        }
        if !self.moment.tells {
            self.is_late = true;
            self.has_said = self.has_said || has_said;
            return false;
        }
        self.is_held = false;
        let is_asked = has_said || std::mem::replace(&mut self.has_said, false);
        self.listens = is_asked || self.left_of_rest().is_none();
        self.listens
    }

    fn told(&mut self, count: usize) {
        if count == 0 {
            self.is_held = true;
            self.listens = false;
        } else {
            self.told = Some(self.moment.now);
        }
    }
}
