// The items of a list in blocks, one after another.
ghost use Rattle.std.specs.Prelude.{◌≡◌, ◌≤◌, ◌++◌, length};
ghost use Rattle.std.specs.Iterator.{YieldsFirstRef, item_count};
ghost use Rattle.canvas_blocks.specs.Blocks.{flat, NoneEmpty};

use std::alloc::{Allocator, Global};
use std::iter::FusedIterator;
use std::marker::Model;

/// The items of a list that are still to come. A contract sees them as their list.
#[derive(Drop)]
pub struct Iter<'a, T, A: Allocator = Global> {
    first: &'a [T],
    others: &'a [Vec<T, A>],
    // At least so many, and at most.
    least: usize,
    most: usize,
}

impl<'a, T, A: Allocator> Model for Iter<'a, T, A> {
    ghost use Rattle.std.specs.Prelude.{◌≤◌, List, ◌++◌, length};
    ghost use Rattle.std.specs.Coded.{coded_list};

    ghost Value = { List T };

    ghost coded = { coded_list T.code };

    ghost use Rattle.canvas_blocks.specs.Blocks.{flat, NoneEmpty};

    ghost view = { λ i. i.first.now ++ flat i.others.now };

    ghost invariant = { λ i. record { none_empty : NoneEmpty i.others.now; least : i.least ≤ length (i.first.now ++ flat i.others.now); most : length (i.first.now ++ flat i.others.now) ≤ i.most } };
}

impl<'a, T, A: Allocator> Iter<'a, T, A> {
    pub(crate) fn new(first: &'a [T], others: &'a [Vec<T, A>], least: usize, most: usize) -> Self
        requires none_empty { NoneEmpty others.now }
        requires least { least ≤ length (first.now ++ flat others.now) }
        requires most { length (first.now ++ flat others.now) ≤ most }
        ensures { result ≡ first.now ++ flat others.now }
    {
        Iter {
            first,
            others,
            least,
            most,
        }
    }
}

impl<'a, T, A: Allocator> Iterator for Iter<'a, T, A> {
    type Item = &'a T;

    ghost next_gives = { YieldsFirstRef (λ rest. rest) };

    ghost remaining = { item_count (λ rest. rest) };

    fn next(&mut self) -> Option<&'a T> {
        if let Some((item, rest)) = self.first.split_first() {
            self.first = rest;
            self.least = self.least.saturating_sub(1);
            self.most -= 1;
            return Some(item);
        }
        let (block, others) = self.others.split_first()?;
        let (item, rest) = block.split_first()?;
        self.first = rest;
        self.others = others;
        self.least = self.least.saturating_sub(1);
        self.most -= 1;
        Some(item)
    }

    fn size_hint(&self) -> (usize, Option<usize>) {
        (self.least, Some(self.most))
    }
}

impl<'a, T, A: Allocator> FusedIterator for Iter<'a, T, A> {}
