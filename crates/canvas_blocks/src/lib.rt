//! Long lists kept in blocks: an insertion or a removal moves the items of one block, and seldom the list of the blocks.
#![tactic(auto)]

ghost use Rattle.std.specs.Prelude.{◌≡◌, [], ◌∷◌, ◌++◌, OnOk, OnErr, drop, length, slice_get};
ghost use Rattle.std.specs.List.{insert, remove};
ghost use Rattle.std.specs.Option.{option_copied, option_map};
ghost use Rattle.std.specs.Fn.{FnReturnsAt};
ghost use Rattle.canvas_blocks.specs.Blocks.{IsEdge, moved, with_value};

use std::alloc::{AllocError, Allocator, Global};
use std::marker::Model;

mod blocks;
mod find;
mod iter;
mod moves;

use blocks::{insert_in, push_to, replace_value, take};
use find::find;
pub use iter::Iter;
use moves::{move_in, room_at};

/// A list in blocks of at most 512 items, which a contract sees as the plain list. A block that grows beyond that is split in
/// two, and one that is left without items is taken out; blocks aren't joined.
///
/// Items are found by a test, and no call asks for an index: how many items stand before a block is neither kept nor added up. An
/// edge of the list, for a test, is an index where the test passes at the item before it, if there is one, and fails at the item
/// there, if there is one. If all items that pass stand first, it is where they end. Edges are found by bisection: the test is
/// made at few items.
#[derive(Debug, Drop)]
pub struct BlockList<T, A: Allocator = Global> {
    len: usize,
    blocks: Vec<Vec<T, A>, A>,
}

impl<T, A: Allocator> Model for BlockList<T, A> {
    ghost use Rattle.std.specs.Prelude.{◌≡◌, ◌<◌, List, length};
    ghost use Rattle.std.specs.Coded.{coded_list};

    ghost Value = { List T };

    ghost coded = { coded_list T.code };

    ghost use Rattle.canvas_blocks.specs.Blocks.{flat, NoneEmpty};

    ghost view = { λ l. flat l.blocks.items };

    ghost invariant = { λ l. record { len : l.len ≡ length (flat l.blocks.items); fits : l.len < 18446744073709551616; none_empty : NoneEmpty l.blocks.items } };
}

impl<T, A: Allocator> BlockList<T, A> {
    /// The empty list. Takes no memory.
    pub fn new(alloc: A) -> Self
        ensures { result ≡ [] }
    {
        BlockList {
            len: 0,
            blocks: Vec::new(alloc),
        }
    }

    /// The allocator under which the list stands.
    pub fn allocator(&self) -> A
    where
        A: Copy,
    {
        *self.blocks.allocator()
    }

    /// How many items there are.
    pub fn len(&self) -> usize
        ensures { result ≡ length self.now }
    {
        self.len
    }

    /// The item at an edge, or none at the end of the list.
    pub fn after_edge<P: Fn(&T) -> bool>(&self, before: P) -> Option<&T>
        requires { P.IsAlwaysCallable before }
        ensures { (i : _) × IsEdge (FnReturnsAt P.Fn before) self.now i × (option_copied result ≡ slice_get self.now i) }
    {
        let (block, offset) = find(&self.blocks, &before)?;
        Some(&self.blocks[block][offset])
    }

    /// The items from an edge on.
    pub fn iter_from_edge<P: Fn(&T) -> bool>(&self, before: P) -> Iter<'_, T, A>
        requires { P.IsAlwaysCallable before }
        ensures { (i : _) × IsEdge (FnReturnsAt P.Fn before) self.now i × (result ≡ drop i self.now) }
    {
        match find(&self.blocks, &before) {
            Some((block, offset)) => Iter::new(
                &self.blocks[block][offset..],
                &self.blocks[block + 1..],
                0,
                self.len,
            ),
            None => Iter::new(&[], &[], 0, 0),
        }
    }

    /// All items.
    pub fn iter(&self) -> Iter<'_, T, A>
        ensures { result ≡ self.now }
    {
        Iter::new(&[], &self.blocks, self.len, self.len)
    }

    /// Takes the item at an edge out of the list, if there is one. Takes no memory.
    pub fn remove_at_edge<P: Fn(&T) -> bool>(&mut self, before: P) -> Option<T>
    where
        T: Drop,
        requires { P.IsAlwaysCallable before }
        ensures { (i : _) × IsEdge (FnReturnsAt P.Fn before) self.old i × (result ≡ slice_get self.old i) × (self.new ≡ remove self.old i) }
    {
        let (block, offset) = find(&self.blocks, &before)?;
        self.len -= 1;
        Some(take(&mut self.blocks, block, offset))
    }
}

impl<T: Drop, A: Allocator + Copy> BlockList<T, A> {
    /// Adds an item at the end. Fails only if memory runs out, or if the list has `usize::MAX` items, which no memory
    /// holds; then nothing has changed.
    pub fn push(&mut self, item: T) -> Result<(), AllocError>
        ensures ok { OnOk result (self.new ≡ self.old ++ item ∷ []) }
        ensures err { OnErr result (self.new ≡ self.old) }
    {
        let Some(len) = self.len.checked_add(1) else {
            return Err(AllocError);
        };
        push_to(&mut self.blocks, item)?;
        self.len = len;
        Ok(())
    }

    /// Puts an item in at an edge, before the one there. Fails as `push` does, and then nothing has changed.
    pub fn insert_at_edge<P: Fn(&T) -> bool>(
        &mut self,
        before: P,
        item: T,
    ) -> Result<(), AllocError>
        requires { P.IsAlwaysCallable before }
        ensures ok { OnOk result ((i : _) × IsEdge (FnReturnsAt P.Fn before) self.old i × (self.new ≡ insert self.old i item)) }
        ensures err { OnErr result (self.new ≡ self.old) }
    {
        let Some(len) = self.len.checked_add(1) else {
            return Err(AllocError);
        };
        insert_in(&mut self.blocks, &before, item)?;
        self.len = len;
        Ok(())
    }
}

impl<K: Drop, V: Drop, A: Allocator + Copy> BlockList<(K, V), A> {
    /// Gives the pair at an edge another value, and gives its own back; where there is none, nothing changes. Takes no memory.
    pub fn replace_value_at_edge<P: Fn(&(K, V)) -> bool>(
        &mut self,
        before: P,
        value: V,
    ) -> Option<V>
        requires { P.IsAlwaysCallable before }
        ensures { (i : _) × IsEdge (FnReturnsAt P.Fn before) self.old i × (result ≡ option_map (λ pair. pair.1) (slice_get self.old i)) × (self.new ≡ with_value self.old i value) }
    {
        let (block, offset) = find(&self.blocks, &before)?;
        Some(replace_value(&mut self.blocks, block, offset, value))
    }
}

impl<T: Copy, A: Allocator + Copy> BlockList<T, A> {
    /// Takes the item at an edge for the test `from` out, and puts this one in where an edge for `to` was; where there is none for
    /// `from`, nothing changes. It never fails: if memory runs out, the items between move by one, one after another.
    pub fn move_to_edge<P: Fn(&T) -> bool, Q: Fn(&T) -> bool>(&mut self, from: P, to: Q, item: T)
        requires from { P.IsAlwaysCallable from }
        requires to { Q.IsAlwaysCallable to }
        ensures { (i : _) × (j : _) × IsEdge (FnReturnsAt P.Fn from) self.old i × IsEdge (FnReturnsAt Q.Fn to) self.old j × (self.new ≡ moved self.old i j item) }
    {
        let to = room_at(&mut self.blocks, &to);
        if let Some(from) = find(&self.blocks, &from) {
            move_in(&mut self.blocks, from, to, item);
        }
    }
}
