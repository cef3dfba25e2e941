// What a client shows and what waits, with the count of their changes.
ghost use Rattle.std.specs.Prelude.{◌≡◌, ◌≤◌, ◌+◌, [], ◌∷◌, ◌++◌, true, false, IfOk, OnOk, OnErr, cond, drop, length};
ghost use Rattle.std.specs.List.{list_any};
ghost use Rattle.canvas_model.specs.Numbered.{nth};
ghost use Rattle.canvas_model.specs.Document.{blank};
ghost use Rattle.canvas_model.specs.Ids.{root};
ghost use Rattle.canvas_model.specs.Overlay.{lay, over};
ghost use Rattle.canvas_model.specs.Receive.{IsEdit, staying};
ghost use Rattle.canvas_model.specs.View.{creates_it, refreshed};
ghost use Rattle.canvas_judge.specs.Seen.{seen_outcome};
ghost use Rattle.canvas_client.specs.Counted.{changes_of};
ghost use Rattle.canvas_client.specs.Follow.{LeavesRoot};
ghost use Rattle.canvas_client.specs.Rise.{IsRise, removed};

use crate::Changes;
use crate::fields::follow;
use crate::overlay::overlaid;
use crate::shown::Shown;
use canvas_doc::{Change, Doc};
use canvas_judge::{Entry, Outcome};
use canvas_pending::Pending;
use std::alloc::{AllocError, Allocator, Global};

/// What a client shows, and its edits that wait, which are laid over it. Each change of the view and of the counts of what waits is
/// counted, and how many the last taken entry made is kept.
pub struct Merged<A: Allocator = Global> {
    pub(crate) waiting: Pending<A>,
    pub(crate) counted: Changes,
    pub(crate) shown: Shown<A>,
    pub(crate) last: u64,
}

impl<A: Allocator> Drop for Merged<A> {
    fn drop(self) {
        let Merged {
            waiting: _,
            counted: _,
            shown: _,
            last: _,
        } = self;
    }
}

impl<A: Allocator> Merged<A> {
    /// What is shown.
    pub fn view(&self) -> &Doc<A>
        ensures { result.now ≡ self.now.shown.doc }
    {
        &self.shown.doc
    }

    /// How many changes the last entry made, 0 after anything else was taken.
    pub fn last_changes(&self) -> u64
        ensures { result ≡ self.now.last }
    {
        self.last
    }
}

impl<A: Allocator + Copy> Merged<A> {
    // The root alone, and no edits.
    pub(crate) fn new(alloc: A) -> Result<Self, AllocError>
        ensures waiting { IfOk result (λ merged. merged.waiting ≡ []) }
        ensures view { IfOk result (λ merged. merged.shown.doc ≡ blank) }
    {
        let doc = Doc::new(alloc)?;
        Ok(Merged {
            waiting: Pending::new(alloc),
            counted: Changes::new(),
            shown: Shown {
                doc,
                changes: Changes::new(),
            },
            last: 0,
        })
    }

    // These edits, and this view, under which they are laid already.
    pub(crate) fn of(waiting: Pending<A>, doc: Doc<A>) -> Self
        ensures waiting { result.waiting ≡ waiting }
        ensures view { result.shown.doc ≡ doc }
    {
        Merged {
            waiting,
            counted: Changes::new(),
            shown: Shown {
                doc,
                changes: Changes::new(),
            },
            last: 0,
        }
    }

    /// Brings the view up to an entry; `own` says that it is of the first edit that waits, which is then taken out. It makes at most
    /// four changes more than the entry removes ids, and `last_changes` answers how many. Fails only if memory runs out, or
    /// where the entry removes `usize::MAX` ids, which no memory holds; then nothing has changed.
    pub fn take<B: Allocator>(&mut self, own: bool, entry: &Entry<B>) -> Result<(), AllocError>
        requires first { own ≡ true → IsEdit entry.now.what (nth self.old.waiting 1) }
        requires no_root { list_any (creates_it root) self.old.waiting ≡ false }
        ensures view { OnOk result (LeavesRoot entry.now → self.new.shown.doc ≡ refreshed own (staying own self.old.waiting) entry.now.what entry.now.outcome self.old.shown.doc) }
        ensures waiting { OnOk result (self.new.waiting ≡ drop (cond own 1 0) self.old.waiting) }
        ensures changes { OnOk result (IsRise (removed entry.now.outcome + 4) (changes_of self.old) (changes_of self.new) self.new.last) }
        ensures err { OnErr result (self.new ≡ self.old) }
    {
        if removed(&entry.outcome) == usize::MAX {
            return Err(AllocError);
        }
        let alloc = self.waiting.allocator();
        let made = follow(alloc, &mut self.shown, &self.waiting, own, entry)?;
        if !own {
            self.last = made;
            return Ok(());
        }
        self.waiting.drop_first(1);
        self.counted = self.counted.raised();
        self.last = made + 1;
        Ok(())
    }

    // Takes a document, of which so many edits that wait are part, and lays the others over it. The counts of changes begin anew.
    pub(crate) fn lay_anew<B: Allocator + Copy>(
        &mut self,
        doc: &Doc<B>,
        count: usize,
    ) -> Result<(), AllocError>
        requires { count ≤ length self.old.waiting }
        ensures view { OnOk result (self.new.shown.doc ≡ over doc.now (drop count self.old.waiting)) }
        ensures waiting { OnOk result (self.new.waiting ≡ drop count self.old.waiting) }
        ensures err { OnErr result (self.new ≡ self.old) }
    {
        let alloc = self.waiting.allocator();
        let doc = overlaid(alloc, doc, &self.waiting, count)?;
        self.shown = Shown {
            doc,
            changes: Changes::new(),
        };
        self.counted = Changes::new();
        self.waiting.drop_first(count);
        self.last = 0;
        Ok(())
    }

    // Adds an edit to those that wait, and lays it over the view. If memory runs out, nothing has changed.
    pub(crate) fn add(&mut self, change: Change<A>) -> Result<(), AllocError>
        ensures waiting { OnOk result (self.new.waiting ≡ self.old.waiting ++ change ∷ []) }
        ensures view { OnOk result (self.new.shown.doc ≡ lay self.old.shown.doc change) }
        ensures err { OnErr result (self.new ≡ self.old) }
    {
        self.waiting.push(change)?;
        let last = self.waiting.get(self.waiting.len() - 1).unwrap();
        if self.shown.overlay(last).is_err() {
            self.waiting.pop_last();
            return Err(AllocError);
        }
        self.counted = self.counted.raised();
        Ok(())
    }
}

// How many ids the outcome removes.
fn removed<A: Allocator>(outcome: &Outcome<A>) -> usize
    ensures { result ≡ removed (seen_outcome outcome.now) }
{
    match outcome {
        Outcome::Removed(ids) => ids.len(),
        _ => 0,
    }
}
