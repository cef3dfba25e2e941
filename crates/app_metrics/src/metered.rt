// A keeper that counts what it keeps.
ghost use Rattle.std.specs.Prelude.{◌≡◌};

use crate::{Judgement, Meter, how_judged};
use canvas_forms::SharedEntry;
use canvas_journal::{KeepError, Keeper};
use canvas_judge::{Entry, State};
use std::alloc::Global;
use std::marker::Model;
use std::sync::Arc;
use std::time::{Clock, Duration, Instant};

/// Keeps what another keeper does, and counts that, by a clock. Contracts see it as that other.
pub struct Metered<K: Keeper, C: Clock> {
    keeper: K,
    clock: C,
    meter: Arc<Meter, Global>,
    last: Option<Judgement>,
    staged: u64,
}

impl<K: Keeper + Drop, C: Clock + Drop> Drop for Metered<K, C> {
    fn drop(self) {
        let Metered {
            keeper: _,
            clock: _,
            meter: _,
            last: _,
            staged: _,
        } = self;
    }
}

impl<K: Keeper, C: Clock> Model for Metered<K, C> {
    ghost Value = { K };

    ghost view = { λ m. m.keeper };
}

impl<K: Keeper, C: Clock> Metered<K, C> {
    /// Keeps what this keeper does, and counts it here.
    pub fn new(keeper: K, clock: C, meter: Arc<Meter, Global>) -> Metered<K, C>
        ensures { result ≡ keeper }
    {
        Metered {
            keeper,
            clock,
            meter,
            last: None,
            staged: 0,
        }
    }

    // An entry was taken in.
    fn count(&mut self, entry: &Entry)
        ensures { self.new ≡ self.old }
    {
        let judged = how_judged(entry);
        self.meter.count(judged);
        self.last = Some(judged);
        self.staged = self.staged.saturating_add(1);
    }

    // The last entry that was taken in is dropped.
    fn take_back(&mut self)
        ensures { self.new ≡ self.old }
    {
        if let Some(judged) = self.last.take() {
            self.meter.take_back(judged);
            self.staged = self.staged.saturating_sub(1);
        }
    }

    // What was taken in is synced.
    fn count_sync(&mut self)
        ensures { self.new ≡ self.old }
    {
        if self.staged > 0 {
            self.meter.sync();
            self.staged = 0;
            self.last = None;
        }
    }

    // A checkpoint of this version was made since this time.
    fn count_checkpoint(&self, version: u64, begun: Option<Instant>) {
        let took = begun.and_then(|begun| begun.elapsed(&self.clock).ok());
        self.meter
            .checkpoint(version, took.unwrap_or(Duration::ZERO));
    }
}

impl<K: Keeper, C: Clock> Keeper for Metered<K, C> {
    ghost honest = { K.honest };

    ghost failed = { K.failed };

    ghost keeps = { K.keeps };

    ghost moment = { K.moment };

    ghost left_since = { K.left_since };

    ghost finds = { K.finds };

    ghost failure_count = { K.failure_count };

    ghost is_spent = { K.is_spent };

    fn append(&mut self, alloc: Global, entry: &SharedEntry) -> Result<(), KeepError> {
        self.keeper.append(alloc, entry)?;
        self.count(entry.entry());
        Ok(())
    }

    fn sync(&mut self) -> Result<(), KeepError> {
        self.keeper.sync()?;
        self.count_sync();
        Ok(())
    }

    fn checkpoint(&mut self, alloc: Global, state: &State, version: u64) -> Result<(), KeepError> {
        let begun = Instant::now(&self.clock).ok();
        self.keeper.checkpoint(alloc, state, version)?;
        self.count_checkpoint(version, begun);
        Ok(())
    }

    fn stage(&mut self, alloc: Global, entry: &SharedEntry) -> Result<(), KeepError> {
        self.keeper.stage(alloc, entry)?;
        self.count(entry.entry());
        Ok(())
    }

    fn unstage(&mut self) {
        self.keeper.unstage();
        self.take_back();
    }

    fn commit(&mut self) -> Result<(), KeepError> {
        self.keeper.commit()?;
        self.count_sync();
        Ok(())
    }

    fn failures(&self) -> u64 {
        self.keeper.failures()
    }
}
