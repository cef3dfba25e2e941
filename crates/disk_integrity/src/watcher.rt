// Who notes what a shelf did, and shows it to a witness.
ghost use Rattle.std.specs.Prelude.{◌≡◌, IsErr, IsErrOf, MatchResult};
ghost use Rattle.disk_integrity.specs.Changes.{Sees, segment_made, bytes_added, segment_synced, segment_retired};
ghost use Rattle.disk_integrity.specs.Noting.{NotesFailure, first_failed};

use crate::call::ShelfCall;
use crate::notes::Notes;
use crate::witness::Witness;
use canvas_shelf::{CreateError, DeviceFailed};

// The notes, and the witness. After the first call that failed nothing more is shown or counted: what a segment holds isn't known then.
pub(crate) struct Watcher<W: Witness> {
    pub(crate) witness: W,
    pub(crate) notes: Notes,
    // The first call that failed.
    pub(crate) failed: Option<ShelfCall>,
    // How many bytes the segment has that was made last, until it is synced.
    pub(crate) fresh: Option<u64>,
}

impl<W: Witness + Drop> Drop for Watcher<W> {
    fn drop(self) {
        let Watcher {
            witness: _,
            notes: _,
            failed: _,
            fresh: _,
        } = self;
    }
}

impl<W: Witness> Watcher<W> {
    // A call failed.
    pub(crate) fn fail(&mut self, call: ShelfCall)
        ensures failed { self.new.failed ≡ first_failed self.old.failed call }
        ensures witness { self.new.witness ≡ self.old.witness }
    {
        match self.failed {
            None => self.failed = Some(self.notes.fail(call)),
            Some(_) => {}
        }
    }

    // A segment was to be made.
    pub(crate) fn create(&mut self, number: u32, made: &Result<(), CreateError>)
        ensures not_made { IsErrOf made.now CreateError.NotMade → self.new ≡ self.old }
        ensures noted { NotesFailure (ShelfCall.Create number) self.old.failed self.new.failed (IsErrOf made.now CreateError.Device) }
        ensures shown { MatchResult made.now
            (λ _. Sees W.sees self.old.failed (segment_made number) self.old.witness self.new.witness)
            (λ _. self.new.witness ≡ self.old.witness) }
    {
        match made {
            Ok(()) => self.made(number),
            Err(CreateError::NotMade) => {}
            Err(CreateError::Device) => self.fail(ShelfCall::Create(number)),
        }
    }

    // A segment was made.
    fn made(&mut self, number: u32)
        ensures failed { self.new.failed ≡ self.old.failed }
        ensures shown { Sees W.sees self.old.failed (segment_made number) self.old.witness self.new.witness }
    {
        match self.failed {
            None => {
                self.fresh = Some(0);
                self.witness.created(number);
            }
            Some(_) => {}
        }
    }

    // Bytes were to be put at the end of a segment.
    pub(crate) fn append(&mut self, number: u32, bytes: &[u8], done: &Result<(), DeviceFailed>)
        ensures noted { NotesFailure (ShelfCall.Append number) self.old.failed self.new.failed (IsErr done.now) }
        ensures shown { MatchResult done.now
            (λ _. Sees W.sees self.old.failed (bytes_added number bytes.now) self.old.witness self.new.witness)
            (λ _. self.new.witness ≡ self.old.witness) }
    {
        match done {
            Ok(()) => self.appended(number, bytes),
            Err(_) => self.fail(ShelfCall::Append(number)),
        }
    }

    // Bytes were put at the end of a segment.
    fn appended(&mut self, number: u32, bytes: &[u8])
        ensures failed { self.new.failed ≡ self.old.failed }
        ensures shown { Sees W.sees self.old.failed (bytes_added number bytes.now) self.old.witness self.new.witness }
    {
        match self.failed {
            None => {
                let size = bytes.len() as u64;
                self.fresh = self.fresh.map(|fresh| fresh.saturating_add(size));
                self.notes.append(size);
                self.witness.appended(number, bytes);
            }
            Some(_) => {}
        }
    }

    // A segment was to be synced.
    pub(crate) fn sync(&mut self, number: u32, done: &Result<(), DeviceFailed>)
        ensures noted { NotesFailure (ShelfCall.Sync number) self.old.failed self.new.failed (IsErr done.now) }
        ensures shown { MatchResult done.now
            (λ _. Sees W.sees self.old.failed (segment_synced number) self.old.witness self.new.witness)
            (λ _. self.new.witness ≡ self.old.witness) }
    {
        match done {
            Ok(()) => self.synced(number),
            Err(_) => self.fail(ShelfCall::Sync(number)),
        }
    }

    // A segment was synced.
    fn synced(&mut self, number: u32)
        ensures failed { self.new.failed ≡ self.old.failed }
        ensures shown { Sees W.sees self.old.failed (segment_synced number) self.old.witness self.new.witness }
    {
        match self.failed {
            None => {
                self.count_sync();
                self.witness.synced(number);
            }
            Some(_) => {}
        }
    }

    // Counts a sync, and a checkpoint where the segment was new.
    fn count_sync(&mut self)
        ensures failed { self.new.failed ≡ self.old.failed }
        ensures witness { self.new.witness ≡ self.old.witness }
    {
        self.notes.sync();
        if let Some(bytes) = self.fresh.take() {
            self.notes.checkpoint(bytes);
        }
    }

    // A segment was to be taken off the list.
    pub(crate) fn retire(&mut self, number: u32, done: &Result<(), DeviceFailed>)
        ensures noted { NotesFailure (ShelfCall.Retire number) self.old.failed self.new.failed (IsErr done.now) }
        ensures shown { MatchResult done.now
            (λ _. Sees W.sees self.old.failed (segment_retired number) self.old.witness self.new.witness)
            (λ _. self.new.witness ≡ self.old.witness) }
    {
        match done {
            Ok(()) => self.retired(number),
            Err(_) => self.fail(ShelfCall::Retire(number)),
        }
    }

    // A segment was taken off the list.
    fn retired(&mut self, number: u32)
        ensures failed { self.new.failed ≡ self.old.failed }
        ensures shown { Sees W.sees self.old.failed (segment_retired number) self.old.witness self.new.witness }
    {
        match self.failed {
            None => self.witness.retired(number),
            Some(_) => {}
        }
    }
}
