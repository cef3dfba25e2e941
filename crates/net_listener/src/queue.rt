// What waits, in the order in which it came, and until when.
ghost use Rattle.std.specs.Prelude.{◌≡◌, ◌<◌, ◌≤◌, length};
ghost use Rattle.std.specs.List.Sorted.{IsNonDecreasingBy};
ghost use Rattle.std.specs.VecDeque.{deque_capacity};

use std::alloc::{AllocError, Global};
use std::collections::VecDeque;

/// What waits: the number by which it is found, and the millisecond from which on it is due.
#[derive(Drop)]
pub struct Waiting<T> {
    /// The number of its connection.
    pub number: u64,
    /// When it is due, in milliseconds.
    pub until: u64,
    /// What waits.
    pub item: T,
}

/// A queue of at most so many, each of which may wait for the same time. The one that came first is at the front, and goes if there is no room
/// for another.
#[derive(Drop)]
pub struct Queue<T> {
    waiting: VecDeque<Waiting<T>>,
    most: usize,
    millis: u64,
    ghost positive: { 0 < most },
    ghost roomy: { most < deque_capacity waiting },
    ghost within: { length waiting.items ≤ most },
    ghost ordered: { IsNonDecreasingBy (λ w. w.until) waiting.items },
}

impl<T> Queue<T> {
    ghost use Rattle.std.specs.Prelude.{◌+◌, ◌^◌, ◌++◌, ◌∷◌, [], IfNone, IfOk, MatchOption, position};
    ghost use Rattle.std.specs.Option.{option_copied, option_to_list};
    ghost use Rattle.net_listener.specs.Queues.{Accounts, EndsFirst, IsNextDue, KeepsLimits, LosesNone, Puts, Shows, Takes, coming, has_number, last_until, place_of, waiting_of};

    /// Returns an empty queue of at most `most`, each of which may wait for so many milliseconds. Errors: out of memory.
    pub fn new(alloc: Global, most: usize, millis: u64) -> Result<Queue<T>, AllocError>
        requires positive { 0 < most }
        requires small { most < 2 ^ 32 }
        ensures empty { IfOk result (λ q. waiting_of q ≡ []) }
        ensures most { IfOk result (λ q. q.most ≡ most) }
        ensures millis { IfOk result (λ q. q.millis ≡ millis) }
        ensures loses_none { IfOk result LosesNone }
    {
        let waiting = VecDeque::with_capacity(alloc, most + 1)?;
        Ok(Queue {
            waiting,
            most,
            millis,
        })
    }

    /// Returns how many wait.
    pub fn len(&self) -> usize
        ensures { result ≡ length (waiting_of self.now) }
    {
        self.waiting.len()
    }

    // Returns when the last one is due; 0 if none waits.
    fn last_until(&self) -> u64
        ensures { result ≡ last_until (waiting_of self.now) }
    {
        match self.waiting.back() {
            Some(last) => last.until,
            None => 0,
        }
    }

    /// Puts another one at the back, which is found by this number and comes at this millisecond. If there is no room, returns the first, which
    /// has left.
    #[tactic(auto, using(crate::proofs::QueueLemmas::ordered_push, crate::proofs::QueueLemmas::accounts_front))]
    pub fn put(&mut self, now: u64, number: u64, item: T) -> Option<Waiting<T>>
        ensures limits { KeepsLimits self.old self.new }
        ensures puts { Puts self.old self.new (coming self.old now number item) result }
        ensures accounts { Accounts self.old (coming self.old now number item ∷ []) self.new (option_to_list result) }
    {
        let until = now.saturating_add(self.millis).max(self.last_until());
        self.waiting.push_back_reserved(Waiting {
            number,
            until,
            item,
        });
        if self.waiting.len() > self.most {
            self.waiting.pop_front()
        } else {
            None
        }
    }

    // Returns the place of the first with this number, if one waits.
    fn position(&self, number: u64) -> Option<usize>
        ensures { result ≡ position (has_number number) (waiting_of self.now) }
    {
        self.waiting.iter().position(|w| w.number == number)
    }

    // Returns the place of the first with this number, or how many wait.
    fn place_of(&self, number: u64) -> usize
        ensures { result ≡ place_of number (waiting_of self.now) }
    {
        self.position(number).unwrap_or(self.len())
    }

    /// Returns the first with this number, if one waits.
    pub fn get(&self, number: u64) -> Option<&T>
        ensures { Shows self.now number (option_copied result) }
    {
        match self.waiting.get(self.place_of(number)) {
            Some(waiting) => Some(&waiting.item),
            None => None,
        }
    }

    /// Takes the first with this number out, if one waits.
    pub fn take(&mut self, number: u64) -> Option<Waiting<T>>
        ensures limits { KeepsLimits self.old self.new }
        ensures takes { Takes self.old self.new number result }
        ensures accounts { Accounts self.old [] self.new (option_to_list result) }
    {
        let place = self.place_of(number);
        self.waiting.remove(place)
    }

    /// Takes the first out, if one waits.
    #[tactic(auto, using(crate::proofs::QueueLemmas::accounts_first))]
    pub fn pop_first(&mut self) -> Option<Waiting<T>>
        ensures limits { KeepsLimits self.old self.new }
        ensures first { waiting_of self.old ≡ option_to_list result ++ waiting_of self.new }
        ensures none { IfNone result (waiting_of self.old ≡ []) }
        ensures accounts { Accounts self.old [] self.new (option_to_list result) }
    {
        self.waiting.pop_front()
    }

    /// Takes the first out if it is due at this millisecond. If it isn't, none is.
    #[tactic(auto, using(crate::proofs::QueueLemmas::accounts_first))]
    pub fn pop_due(&mut self, now: u64) -> Option<Waiting<T>>
        ensures limits { KeepsLimits self.old self.new }
        ensures ends { EndsFirst self.old self.new now result }
        ensures accounts { Accounts self.old [] self.new (option_to_list result) }
    {
        if self.next_due()? <= now {
            self.waiting.pop_front()
        } else {
            None
        }
    }

    /// Returns the millisecond at which the first is due, if one waits. None is due before.
    pub fn next_due(&self) -> Option<u64>
        ensures { MatchOption result (waiting_of self.now ≡ []) (IsNextDue (waiting_of self.now)) }
    {
        match self.waiting.front() {
            Some(first) => Some(first.until),
            None => None,
        }
    }
}

impl<T: Drop> Queue<T> {
    ghost use Rattle.std.specs.Prelude.{drop, min};
    ghost use Rattle.net_listener.specs.Queues.{DropsDue, KeepsLimits, waiting_of};

    /// Drops the first `count`, or all if fewer wait. Returns how many it dropped.
    #[tactic(auto, using(crate::proofs::QueueLemmas::dropped_more, crate::proofs::QueueLemmas::dropped_all))]
    pub fn drop_first(&mut self, count: usize) -> usize
        ensures limits { KeepsLimits self.old self.new }
        ensures count { result ≡ min count (length (waiting_of self.old)) }
        ensures rest { waiting_of self.new ≡ drop result (waiting_of self.old) }
    {
        for dropped in 0..count {
            let Some(_first) = self.pop_first() else {
                return dropped;
            };
        }
        count
    }

    /// Drops all that are due at this millisecond. Returns how many.
    #[tactic(auto, using(crate::proofs::QueueLemmas::none_left))]
    pub fn drop_due(&mut self, now: u64) -> usize
        ensures limits { KeepsLimits self.old self.new }
        ensures drops { DropsDue self.old self.new now result }
    {
        let count = self.len();
        for dropped in 0..count {
            let Some(_first) = self.pop_due(now) else {
                return dropped;
            };
        }
        count
    }
}
