// The edits of a client that wait.
ghost use Rattle.std.specs.Prelude.{◌≡◌, ◌≤◌, ◌<◌, ◌-◌, ◌++◌, ◌∷◌, [], OnOk, OnErr, cond, drop, length, nat_lt, slice_get, take};
ghost use Rattle.std.specs.List.{list_any};
ghost use Rattle.std.specs.Option.{option_copied};
ghost use Rattle.canvas_model.specs.Receive.{staying};
ghost use Rattle.canvas_model.specs.View.{deletes_it, moves_it, sets_it};

use crate::tallies::Tallies;
use crate::writes::{deletes, moves, sets};
use crate::{objects, props, tallies};
use canvas_doc::{Change, Name, ObjId};
use std::alloc::{AllocError, Allocator, Global};
use std::collections::VecDeque;
use std::marker::Model;

/// The edits of a client that wait to be judged, the oldest first. Beside them stands for each field how many of them write it, so
/// that whether one of them does is asked in one look-up. A contract sees them as their list.
pub struct Pending<A: Allocator = Global> {
    changes: VecDeque<Change<A>, A>,
    tallies: Tallies<A>,
}

impl<A: Allocator> Drop for Pending<A> {
    fn drop(self) {
        let Pending {
            changes: _,
            tallies: _,
        } = self;
    }
}

impl<A: Allocator> Model for Pending<A> {
    ghost use Rattle.std.specs.Prelude.{List};
    ghost use Rattle.std.specs.Coded.{codes};
    ghost use Rattle.canvas_model.specs.Change as change;
    ghost use Rattle.canvas_model.specs.Codes.{value_code};

    ghost Value = { List change.Change };

    ghost coded = { Prim.hlevel (codes, value_code) };

    ghost use Rattle.canvas_pending.specs.Tallies.{AreTalliesOf};

    ghost view = { λ p. p.changes.items };

    ghost invariant = { λ p. AreTalliesOf p.changes.items p.tallies };
}

impl<A: Allocator> Pending<A> {
    /// How many edits wait.
    pub fn len(&self) -> usize
        ensures { result ≡ length self.now }
    {
        self.changes.len()
    }

    /// The edit at this index, or none from the end on.
    pub fn get(&self, index: usize) -> Option<&Change<A>>
        ensures { option_copied result ≡ slice_get self.now index }
    {
        self.changes.get(index)
    }

    /// Checks whether an edit moves the object, which isn't the root; with `own`, whether one after the first does.
    pub fn some_moves(&self, own: bool, id: ObjId) -> bool
        ensures { result ≡ list_any (moves_it id) (staying own self.now) }
    {
        let first = own && self.first_moves(id);
        is_more(objects::count(&self.tallies.moves, id), first)
    }

    /// Checks whether an edit deletes the object, which isn't the root; with `own`, whether one after the first does.
    pub fn some_deletes(&self, own: bool, id: ObjId) -> bool
        ensures { result ≡ list_any (deletes_it id) (staying own self.now) }
    {
        let first = own && self.first_deletes(id);
        is_more(objects::count(&self.tallies.deletes, id), first)
    }

    /// Checks whether an edit sets or clears this property of the object; with `own`, whether one after the first does.
    pub fn some_sets<B: Allocator>(&self, own: bool, id: ObjId, name: &Name<B>) -> bool
        ensures { result ≡ list_any (sets_it id name.now) (staying own self.now) }
    {
        let first = own && self.first_sets(id, name);
        is_more(props::count(&self.tallies.sets, id, name), first)
    }

    // Checks whether the first edit moves the object, which isn't the root.
    fn first_moves(&self, id: ObjId) -> bool
        ensures { result ≡ list_any (moves_it id) (take 1 self.now) }
    {
        match self.get(0) {
            Some(change) => moves(change, id),
            None => false,
        }
    }

    // Checks whether the first edit deletes the object, which isn't the root.
    fn first_deletes(&self, id: ObjId) -> bool
        ensures { result ≡ list_any (deletes_it id) (take 1 self.now) }
    {
        match self.get(0) {
            Some(change) => deletes(change, id),
            None => false,
        }
    }

    // Checks whether the first edit sets or clears this property of the object.
    fn first_sets<B: Allocator>(&self, id: ObjId, name: &Name<B>) -> bool
        ensures { result ≡ list_any (sets_it id name.now) (take 1 self.now) }
    {
        match self.get(0) {
            Some(change) => sets(change, id, name),
            None => false,
        }
    }
}

impl<A: Allocator + Copy> Pending<A> {
    /// No edits. Takes no memory.
    pub fn new(alloc: A) -> Self
        ensures { result ≡ [] }
    {
        Pending {
            changes: VecDeque::new(alloc),
            tallies: tallies::new(alloc),
        }
    }

    /// The allocator under which they stand.
    pub fn allocator(&self) -> A {
        *self.changes.allocator()
    }

    /// Adds an edit at the end. If memory runs out, nothing has changed.
    pub fn push(&mut self, change: Change<A>) -> Result<(), AllocError>
        ensures ok { OnOk result (self.new ≡ self.old ++ change ∷ []) }
        ensures err { OnErr result (self.new ≡ self.old) }
    {
        self.changes.reserve(1)?;
        tallies::raise(&mut self.tallies, &change)?;
        self.changes.push_back_reserved(change);
        Ok(())
    }

    /// Takes the last edit out, if there is one. Takes no memory.
    pub fn pop_last(&mut self)
        ensures { self.new ≡ take (length self.old - 1) self.old }
    {
        if let Some(change) = self.changes.pop_back() {
            tallies::lower(&mut self.tallies, change);
        }
    }

    /// Takes the first edits out, so many of them; there must be as many. Takes no memory.
    pub fn drop_first(&mut self, count: usize)
        requires { count ≤ length self.old }
        ensures { self.new ≡ drop count self.old }
    {
        for _ in 0..count {
            self.pop_first();
        }
    }

    // Takes the first edit out, if there is one.
    fn pop_first(&mut self)
        ensures { self.new ≡ drop 1 self.old }
    {
        if let Some(change) = self.changes.pop_front() {
            tallies::lower(&mut self.tallies, change);
        }
    }
}

// Checks whether a field was counted, not counting the first edit where that writes it.
fn is_more(count: u64, first: bool) -> bool
    ensures { result ≡ cond first (nat_lt 1 count) (nat_lt 0 count) }
{
    if first { count > 1 } else { count > 0 }
}
