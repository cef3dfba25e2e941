//! An allocator for tests, which refuses one growth out of many.
//!
//! Code that is generic in its allocator can be run with each of its growths refused in turn: with the first, with the
//! second, and so on until a run ends with none refused.
#![tactic(auto)]

ghost use Rattle.std.specs.Prelude.{◌≡◌};
ghost use Rattle.refusing.specs.Count.{grown, RefusesThatOne};

use std::alloc::{AllocError, Allocator};
use std::cell::Cell;

/// Passes each call on to the allocator in it, but for one growth, which it refuses.
///
/// Each block that is asked for counts as a growth: the first one of a collection, and each to which it moves as it
/// grows or shrinks. A block that is given back doesn't count. [`after_growth`] is how it counts, and [`each_growth`] what
/// comes of that; that the cell with the count holds what was put there, no contract says.
pub struct Refusing<B: Allocator> {
    inner: B,
    left: Cell<u64>,
}

impl<B: Allocator> Refusing<B> {
    /// Refuses the growth of that number, the first being 1; where the number is 0, none.
    pub fn new(inner: B, number: u64) -> Refusing<B>
        ensures { result.inner ≡ inner }
    {
        Refusing {
            inner,
            left: Cell::new(number),
        }
    }

    /// Refuses from here on the growth of that number, the next one being 1; where the number is 0, none.
    pub fn refuse(&self, number: u64) {
        self.left.set(number);
    }

    /// How many growths are still to come up to the refused one, itself among them, so 0 once it has been refused.
    pub fn left(&self) -> u64 {
        self.left.get()
    }
}

impl<B: Allocator> Drop for Refusing<B> {
    fn drop(self) {
        let Self { inner: _, left: _ } = self;
    }
}

/// What is left of the count after one more growth, and whether that growth is the one to be refused.
pub fn after_growth(left: u64) -> (u64, bool)
    ensures { result ≡ grown left }
{
    (left.saturating_sub(1), left == 1)
}

/// Counted so from a number on, the growth of that number is refused and no other; from 0, none is. It does nothing when it runs.
pub fn each_growth()
    ensures { RefusesThatOne }
{}

// Counts a growth, and says whether it is the one to be refused.
fn counts_to_refusal(left: &Cell<u64>) -> bool {
    let (rest, is_refused) = after_growth(left.get());
    left.set(rest);
    is_refused
}

unsafe impl<B: Allocator> Allocator for Refusing<B> {
    ghost dealloc_token = { λ heap ty ptr. B.dealloc_token heap.inner ty ptr };

    fn allocate(&self, size: usize, align: usize) -> Result<*mut u8, AllocError> {
        if counts_to_refusal(&self.left) {
            return Err(AllocError);
        }
        self.inner.allocate(size, align)
    }

    unsafe fn deallocate(&self, ptr: *mut u8, size: usize, align: usize) {
        self.inner.deallocate(ptr, size, align);
    }
}
