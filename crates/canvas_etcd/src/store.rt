// A document's segments in a store of keys, as the calls of a store see them.
ghost use Rattle.std.specs.Prelude.{◌≡◌, ◌⊎◌, ◌≤◌, [], List, ℕ, Bool, true, Option, None, length, map, IsTrue, IsErr, IfOk, OnOk, MatchResult, IsErrOf};
ghost use Rattle.canvas_shelf.specs.Moments.{CountsFailure};
ghost use Rattle.canvas_etcd.specs.Stores.{Stored, Puts, Removes, PassesStored, IsFresh, IsSoundStore, segment_bytes, size_at, answered, left_open, noted, may_be};
ghost use Rattle.canvas_etcd.specs.Listed.{listed_in};

use crate::change::ShelfChange;
use canvas_shelf::{DeviceFailed, ShelfError};
use std::alloc::{Allocator, Global};

/// The most bytes of a chunk. A transaction puts one chunk, so that it fits the limits of a store that wasn't told otherwise.
pub const CHUNK: usize = 524288;

/// A segment that stands in a store.
#[derive(Clone, Copy, Debug, PartialEq, Eq)]
pub struct Standing {
    /// Its number.
    pub number: u32,
    /// How many bytes its chunks have.
    pub size: u64,
}

/// A document's segments in a store of keys, by the calls that a shelf makes of it. A segment's bytes are its chunks in order; a chunk's
/// key has the segment's number and how many bytes stand in front of it, so a chunk that is put where an empty one stands takes its
/// place.
///
/// A handle owns the document from its `take_over` until another's. Each transaction is under the compare that the handle that makes it
/// still owns the document, and is refused where it doesn't: a transaction that was answered stands, one that was refused never does,
/// and one that wasn't answered may have been done and may be done yet, until another takes the document over.
///
/// Contracts see what stands as `value`: what is found by whoever takes the document over now or, where another has, what he found. That
/// is changed by this handle's transactions alone. What it was before each call that may have changed it is `past`.
///
/// A shelf notes what it became by each of its calls, so that contracts can speak of every moment of it. A store of a network does
/// nothing with it.
///
/// All that is said of what stands is said of an honest store alone; no call makes an honest one of another, nor the other way round. A
/// call that answers that the device failed has raised the count of failures, and no other call has.
pub trait Store {
    /// What stands, and what may stand yet.
    ghost value: { Self → Stored };

    /// What it was before each call that may have changed it, since it was looked at, the oldest first.
    ghost past: { Self → List Stored };

    /// Whether the store holds what it was given.
    ghost honest: { Self → Bool };

    /// Whether this handle has taken the document over.
    ghost owner: { Self → Bool };

    /// How many calls have failed.
    ghost failure_count: { Self → ℕ };

    /// Takes the document over: writes an owner's number above all before, under the compare that no other did meanwhile. What the one
    /// before hadn't been answered is refused from here on. Tells whether it could; where it couldn't, another owns the document and its
    /// lease lives, and nothing has changed.
    ///
    /// Fails where the store didn't answer.
    fn take_over(&mut self) -> Result<bool, DeviceFailed>
        ensures owner { IfOk result (λ free. IsTrue (honest self.old) → owner self.new ≡ free) }
        ensures answered { IfOk result (λ free. IsTrue free → IsTrue (honest self.old) → (value self.new).unanswered ≡ None) }
        ensures honest { honest self.new ≡ honest self.old }
        ensures cause { CountsFailure (failure_count self.old) (failure_count self.new) (IsErr result) };

    /// Looks at what stands: from here on `list` and `read` give that, with what this handle puts and removes, and the shelf over it is
    /// that, all of it certain.
    ///
    /// Fails where the store didn't answer.
    fn look(&mut self) -> Result<(), DeviceFailed>
        requires { IsTrue (honest self.old) → (value self.old).unanswered ≡ None }
        ensures fresh { OnOk result (IsTrue (honest self.old) → IsFresh (value self.new)) }
        ensures past { OnOk result (IsTrue (honest self.old) → past self.new ≡ []) }
        ensures honest { honest self.new ≡ honest self.old }
        ensures owner { owner self.new ≡ owner self.old }
        ensures cause { CountsFailure (failure_count self.old) (failure_count self.new) (IsErr result) };

    /// The segments that stand, the highest number first.
    ///
    /// Answers Device where the store didn't answer, or another has taken the document over; and Memory if memory runs out.
    fn list(&mut self, alloc: Global) -> Result<Vec<Standing>, ShelfError>
        ensures listed { IfOk result (λ v. IsTrue (honest self.old) → v.items ≡ listed_in (value self.old).held) }
        ensures same { IsTrue (honest self.old) → (value self.new ≡ value self.old) × (past self.new ≡ past self.old) }
        ensures honest { honest self.new ≡ honest self.old }
        ensures owner { owner self.new ≡ owner self.old }
        ensures cause { CountsFailure (failure_count self.old) (failure_count self.new) (IsErrOf result ShelfError.Device) };

    /// All bytes of a segment that stands, where each transaction was answered.
    ///
    /// Answers Device where the store didn't answer, or another has taken the document over; and Memory if memory runs out.
    fn read<A: Allocator>(&mut self, alloc: A, number: u32) -> Result<Vec<u8, A>, ShelfError>
        requires answered { IsTrue (honest self.old) → (value self.old).unanswered ≡ None }
        requires stands { IsTrue (honest self.old) → size_at number (value self.old).held ≡ None → ⊥ }
        ensures bytes { IfOk result (λ v. IsTrue (honest self.old) → v.items ≡ segment_bytes number (value self.old).held) }
        ensures same { IsTrue (honest self.old) → (value self.new ≡ value self.old) × (past self.new ≡ past self.old) }
        ensures honest { honest self.new ≡ honest self.old }
        ensures owner { owner self.new ≡ owner self.old }
        ensures cause { CountsFailure (failure_count self.old) (failure_count self.new) (IsErrOf result ShelfError.Device) };

    /// Puts a chunk behind the others of a segment, of which `at` bytes stand, by one transaction. If none stands, the segment does
    /// from here on.
    ///
    /// Fails where another has taken the document over, or if it wasn't answered.
    fn put(&mut self, number: u32, at: u64, bytes: &[u8]) -> Result<(), DeviceFailed>
        requires owner { IsTrue (honest self.old) → owner self.old ≡ true }
        requires answered { IsTrue (honest self.old) → (value self.old).unanswered ≡ None }
        requires behind { IsTrue (honest self.old) → at ≡ length (segment_bytes number (value self.old).held) }
        requires short { length bytes.now ≤ 524288 }
        ensures value { IsTrue (honest self.old) → MatchResult result
            (λ _. value self.new ≡ answered (Puts number bytes.now) (value self.old))
            (λ _. (value self.new ≡ value self.old) ⊎ (value self.new ≡ left_open (Puts number bytes.now) (value self.old))) }
        ensures past { IsTrue (honest self.old) → PassesStored (past self.old) (value self.old) (answered (Puts number bytes.now) (value self.old)) (past self.new) (value self.new) }
        ensures honest { honest self.new ≡ honest self.old }
        ensures owner { owner self.new ≡ owner self.old }
        ensures cause { CountsFailure (failure_count self.old) (failure_count self.new) (IsErr result) };

    /// Deletes a segment's chunks, by one transaction.
    ///
    /// Fails where another has taken the document over, or if it wasn't answered.
    fn remove(&mut self, number: u32) -> Result<(), DeviceFailed>
        requires owner { IsTrue (honest self.old) → owner self.old ≡ true }
        requires answered { IsTrue (honest self.old) → (value self.old).unanswered ≡ None }
        ensures value { IsTrue (honest self.old) → MatchResult result
            (λ _. value self.new ≡ answered (Removes number) (value self.old))
            (λ _. (value self.new ≡ value self.old) ⊎ (value self.new ≡ left_open (Removes number) (value self.old))) }
        ensures past { IsTrue (honest self.old) → PassesStored (past self.old) (value self.old) (answered (Removes number) (value self.old)) (past self.new) (value self.new) }
        ensures honest { honest self.new ≡ honest self.old }
        ensures owner { owner self.new ≡ owner self.old }
        ensures cause { CountsFailure (failure_count self.old) (failure_count self.new) (IsErr result) };

    /// Notes what the shelf over it became: by which change, of which segment, and by which bytes, where it got any. Touches nothing that
    /// stands.
    ///
    /// Fails where it couldn't be noted.
    fn note(&mut self, change: ShelfChange, number: u32, bytes: &[u8]) -> Result<(), DeviceFailed>
        requires { IsTrue (honest self.old) → may_be change number (value self.old).disk ≡ true }
        ensures value { IsTrue (honest self.old) → MatchResult result
            (λ _. value self.new ≡ noted change number bytes.now (value self.old))
            (λ _. value self.new ≡ value self.old) }
        ensures past { IsTrue (honest self.old) → PassesStored (past self.old) (value self.old) (noted change number bytes.now (value self.old)) (past self.new) (value self.new) }
        ensures honest { honest self.new ≡ honest self.old }
        ensures owner { owner self.new ≡ owner self.old }
        ensures cause { CountsFailure (failure_count self.old) (failure_count self.new) (IsErr result) };

    /// How many calls have failed. At `u64::MAX` it stays.
    fn failures(&self) -> u64
        ensures { result ≡ failure_count self.now };

    /// A number names one segment, and what was synced of the shelf's stands in front.
    ghost sound: { (store : Self) → IsTrue (honest store) → IsSoundStore (value store) };
}
