//! The positions of an object's children: fractions strictly between 0 and 1, and the fraction half
//! way between two of them.
//!
//! A position is the digits of its fraction in base 95, after the point: the bytes from space to
//! `~` stand for 0 to 94. It doesn't end in a 0, so a fraction has one spelling, and the order of
//! the bytes is the order of the fractions. The article "Realtime editing of ordered sequences"
//! (2017) publishes this order, with fractions of any length in base 95; here a position has at
//! most 128 bytes.
#![tactic(auto)]

ghost use Rattle.std.specs.Prelude.{◌≡◌, ◌↔◌, ℕ, ◌+◌, ◌*◌, ◌^◌, ◌<◌, ◌≤◌, length, nat_eq, refl, All};
ghost use Rattle.std.specs.Prelude.{IfOk, IfErr, IfSome, IfNone, IsTrue, Some};
ghost use Rattle.std.specs.Option.{option_copied};
ghost use Rattle.std.specs.Ordering.{nat_cmp};
ghost use Rattle.std.specs.Cmp.{partial_equiv_from_equiv};
ghost use Rattle.std.specs.Cmp.Lexicographic.{pointwise, slice_cmp, nat_list_eq_equiv};
ghost use Rattle.std.specs.Cmp.Lexicographic.{nat_list_cmp_total, texts_po, texts_ties};
ghost use Rattle.std.specs.Cmp.Rules.{hashing};
ghost use Rattle.std.specs.Fmt.{debug_str};
ghost use Rattle.std.specs.Hash as fed;
ghost use Rattle.std.proofs.Common.{rules};
ghost use Rattle.canvas_model.specs.Position.{digit, num, IsDigitByte, IsPosition};
ghost use Rattle.canvas_model.specs.Middle.{AreInOrder, IsShut, Middle};
ghost use Rattle.canvas_model.specs.Order.{AreApart, FitsBetween};
ghost use Rattle.canvas_pos.specs.Digits.{first_digits, FirstDigitsDecide};
ghost use Rattle.canvas_pos.specs.Ends.{IsEnd, greatest_before, least_after, Opens};
ghost use Rattle.canvas_pos.specs.Fault.{IsFault};
ghost use Rattle.canvas_pos.specs.Laws.{ComparesAsFractions, IsOnlyMiddle, NoneFits};
ghost use Rattle.canvas_pos.specs.Laws.{BytesCompareAsFractions, BeforeIffSmaller, ApartIffInOrder};
ghost use Rattle.canvas_pos.specs.Laws.{FitsIffInside, SmallerIsTransitive, EachMiddleIsPosition};
ghost use Rattle.canvas_pos.specs.Laws.{EachMiddleIsInside, EachMiddleIsOnly, EachMiddleIsShort};
ghost use Rattle.canvas_pos.specs.Laws.{ShutEndsHoldNone, MiddleOfAll};

mod step;

use std::alloc::{AllocError, Allocator, Global};
use std::cmp::Ordering;
use std::hash::{Hash, Hasher};
use std::marker::Model;
use std::{fmt, str};
pub use step::{every_step_beside, step_after, step_before};
use thiserror::Error;

/// The most bytes that a position has.
pub const MAX_LEN: usize = 128;

/// Why [`Pos::read`] gives no position: the first case that holds, in this order.
#[derive(Clone, Copy, Debug, PartialEq, Eq, Error)]
pub enum PosError {
    /// There are no bytes.
    #[error("a position has at least one byte")]
    Empty,
    /// There are more than 128 bytes.
    #[error("a position has at most 128 bytes")]
    TooLong,
    /// The byte at this index, counted from 0, is the first that isn't from space to `~`.
    #[error("byte {0} of a position isn't printable ASCII")]
    BadByte(usize),
    /// The last byte is a space, the digit 0.
    #[error("a position doesn't end in a space")]
    TrailingZero,
    /// The bytes are a position, and the memory for them was refused.
    #[error("out of memory")]
    Memory,
}

/// Where an object stands among its siblings: a fraction strictly between 0 and 1.
///
/// A contract sees it as its bytes.
pub struct Pos<A: Allocator = Global> {
    bytes: Vec<u8, A>,
}

impl<A: Allocator> Drop for Pos<A> {
    fn drop(self) {
        let Pos { bytes: _ } = self;
    }
}

impl<A: Allocator> Model for Pos<A> {
    ghost use Rattle.std.specs.Prelude.{ℕ, List};

    ghost Value = { List ℕ };

    ghost use Rattle.canvas_model.specs.Position.{IsPosition};

    ghost view = { λ p. p.bytes.items };

    ghost invariant = { λ p. IsPosition p.bytes.items };
}

impl<A: Allocator> Pos<A> {
    /// Reads a position, as a copy of the bytes.
    ///
    /// It accepts exactly the positions: 1 to 128 bytes from space to `~`, the last of which isn't
    /// a space. Of anything else it gives the first of `Empty`, `TooLong`, `BadByte` and
    /// `TrailingZero` that holds. `Memory` comes only if the bytes are a position and memory was
    /// refused.
    pub fn read(alloc: A, bytes: &[u8]) -> Result<Pos<A>, PosError>
        ensures ok { IfOk result (λ p. p ≡ bytes.now) }
        ensures position { IfOk result IsPosition }

        // A position fails only if memory runs out.
        ensures only_memory { IsPosition bytes.now → IfErr result (λ e. e ≡ PosError.Memory) }
        ensures fault { IfErr result (IsFault bytes.now) }
    {
        if bytes.is_empty() {
            return Err(PosError::Empty);
        }
        if bytes.len() > MAX_LEN {
            return Err(PosError::TooLong);
        }
        for (i, b) in bytes.iter().enumerate() {
            if *b < b' ' || *b > b'~' {
                return Err(PosError::BadByte(i));
            }
        }
        if bytes[bytes.len() - 1] == b' ' {
            return Err(PosError::TrailingZero);
        }
        match Vec::from_slice(alloc, bytes) {
            Ok(bytes) => Ok(Pos { bytes }),
            Err(AllocError) => Err(PosError::Memory),
        }
    }

    /// The bytes of the position: 1 to 128, from space to `~`.
    pub fn bytes(&self) -> &[u8]
        ensures value { result.now ≡ self.now }
        ensures position { IsPosition self.now }
    {
        self.bytes.as_slice()
    }

    /// The bytes as text, which is printable ASCII.
    pub fn as_str(&self) -> &str
        ensures { result.now ≡ self.now }
    {
        match str::from_utf8(self.bytes()) {
            Ok(text) => text,
            Err(_) => unreachable!(),
        }
    }

    /// The same position under another allocator. The error is that memory ran out.
    pub fn copy<B: Allocator>(&self, alloc: B) -> Result<Pos<B>, AllocError>
        ensures { IfOk result (λ p. p ≡ self.now) }
    {
        let bytes = Vec::from_slice(alloc, self.bytes())?;
        Ok(Pos { bytes })
    }

    /// Checks whether two positions are the same, whichever allocators hold them. It takes no memory.
    pub fn same<B: Allocator>(&self, other: &Pos<B>) -> bool
        ensures { IsTrue result ↔ (self.now ≡ other.now) }
    {
        self.bytes() == other.bytes()
    }

    /// The order of two positions, whichever allocators hold them. It takes no memory.
    pub fn compare<B: Allocator>(&self, other: &Pos<B>) -> Ordering
        ensures value { result ≡ slice_cmp nat_cmp self.now other.now }
        ensures order { ComparesAsFractions result self.now other.now }
    {
        self.bytes().cmp(other.bytes())
    }

    /// The number that the first nine digits are, where 0 stands for a digit that is missing. Of
    /// two positions the one with the lesser number is the smaller; two with the same number have
    /// to be compared.
    pub fn first_digits(&self) -> u64
        ensures { result ≡ first_digits self.now }
    {
        digits_number(self.bytes(), 9)
    }
}

impl<A: Allocator> PartialEq for Pos<A> {
    ghost eq = { pointwise nat_eq };

    ghost laws = { partial_equiv_from_equiv nat_list_eq_equiv };

    fn eq(&self, other: &Pos<A>) -> bool
        ensures value { result ≡ pointwise nat_eq self.now other.now }
        ensures same { IsTrue result ↔ (self.now ≡ other.now) }
    {
        self.same(other)
    }
}

impl<A: Allocator> Eq for Pos<A> {
    ghost laws = { nat_list_eq_equiv };
}

impl<A: Allocator> PartialOrd for Pos<A> {
    ghost partial_cmp = { λ p q. Some (slice_cmp nat_cmp p q) };

    ghost laws = { texts_po };

    fn partial_cmp(&self, other: &Pos<A>) -> Option<Ordering> {
        Some(self.cmp(other))
    }
}

impl<A: Allocator> Ord for Pos<A> {
    ghost cmp = { slice_cmp nat_cmp };

    ghost total = { nat_list_cmp_total };

    ghost matches_partial_cmp = { λ p q. refl };

    ghost matches_eq = { texts_ties };

    fn cmp(&self, other: &Pos<A>) -> Ordering
        ensures value { result ≡ slice_cmp nat_cmp self.now other.now }
        ensures order { ComparesAsFractions result self.now other.now }
    {
        self.compare(other)
    }
}

impl<A: Allocator> Hash for Pos<A> {
    ghost hash_input = { fed.slice fed.u8 };

    ghost respects_eq = { Prim.search (hashing, rules) };

    fn hash<H: Hasher>(&self, state: &mut H) {
        self.bytes().hash(state);
    }
}

/// Prints the bytes as they are.
impl<A: Allocator> fmt::Display for Pos<A> {
    ghost output = { λ p. Some p };

    fn fmt<W: fmt::Write>(&self, f: &mut fmt::Formatter<W>) -> fmt::Result {
        f.pad(self.as_str())
    }
}

/// Prints the bytes as a text in quotes.
impl<A: Allocator> fmt::Debug for Pos<A> {
    ghost debug_output = { debug_str };

    fn fmt<W: fmt::Write>(&self, f: &mut fmt::Formatter<W>) -> fmt::Result {
        fmt::Debug::fmt(self.as_str(), f)
    }
}

/// The laws of the order: bytes decide it as the fractions do, for positions and for ends that may
/// be missing. It does nothing when it runs: call it where a proof needs the laws.
pub fn byte_order()
    ensures compare { BytesCompareAsFractions }
    ensures less { BeforeIffSmaller }
    ensures apart { ApartIffInOrder }
    ensures fits { FitsIffInside }
    ensures transitive { SmallerIsTransitive }
{}

/// The law of the first digits: where those of two positions differ, they decide the order. It does
/// nothing when it runs: call it where a proof needs the law.
pub fn digit_order()
    ensures { FirstDigitsDecide }
{}

/// The laws of the middle between two ends: it is a position strictly between them, the only
/// middle, and at most one byte longer than the longer end; and if there is none, no position is
/// strictly between them. It does nothing when it runs: call it where a proof needs the laws.
pub fn every_middle()
    ensures position { EachMiddleIsPosition }
    ensures inside { EachMiddleIsInside }
    ensures only { EachMiddleIsOnly }
    ensures short { EachMiddleIsShort }
    ensures none { ShutEndsHoldNone }
    ensures alone { MiddleOfAll }
{}

/// The position half way between two ends, where a missing lower end is 0 and a missing upper end
/// is 1. The lower end has to be smaller than the upper.
///
/// Of the fractions between the ends that have the fewest digits, it is half way between the least
/// and the greatest, rounded down. So it is at most one byte longer than the longer end. It is
/// `None` only if no position lies between the ends, since a position has at most 128 bytes.
///
/// The time is linear in the longer end. Memory is asked for once, for the answer, and not at all
/// where that is `None`; the error is that it was refused.
pub fn between<A: Allocator, B: Allocator, C: Allocator>(
    alloc: A,
    lo: Option<&Pos<B>>,
    hi: Option<&Pos<C>>,
) -> Result<Option<Pos<A>>, AllocError>
    requires { AreApart (option_copied lo) (option_copied hi) }
    ensures middle { IfOk result (Middle (option_copied lo.entry) (option_copied hi.entry)) }
    ensures only { IfOk result
        (λ r. IfSome r (IsOnlyMiddle (option_copied lo.entry) (option_copied hi.entry))) }
    ensures fits { IfOk result
        (λ r. IfSome r (FitsBetween (option_copied lo.entry) (option_copied hi.entry))) }
    ensures none { IfOk result
        (λ r. IfNone r (NoneFits (option_copied lo.entry) (option_copied hi.entry))) }
{
    let lo = bytes_of(lo);
    let hi = bytes_of(hi);
    let Some(gap) = first_gap(lo, hi) else {
        return Ok(None);
    };
    let middle = half_way(alloc, lo, gap)?;
    Ok(Some(middle))
}

// Where something first lies between two ends: what is half way there is so many of the lower end's
// digits, and then one more.
#[derive(Clone, Copy)]
struct Gap {
    before: usize,
    last: u8,
    ghost short: { before < 128 },
    ghost positive: { 0 < last },
    ghost is_digit: { last < 95 },
}

// The bytes of an end that is there.
fn bytes_of<A: Allocator>(end: Option<&Pos<A>>) -> Option<&[u8]>
    ensures same { option_copied result ≡ option_copied end.entry }
    ensures position { IsEnd (option_copied result) }
{
    match end {
        Some(p) => Some(p.bytes()),
        None => None,
    }
}

// The gap between the ends, or `None` where nothing of at most 128 digits lies between them.
fn first_gap(lo: Option<&[u8]>, hi: Option<&[u8]>) -> Option<Gap>
    requires low { IsEnd (option_copied lo) }
    requires high { IsEnd (option_copied hi) }
    requires order { AreInOrder (option_copied lo) (option_copied hi) }
    ensures shut { IfNone result
        ((n : ℕ) → n ≤ 128 → IsShut (option_copied lo.entry) (option_copied hi.entry) n) }
    ensures opens { IfSome result
        (λ gap. Opens (option_copied lo.entry) (option_copied hi.entry) gap.before gap.last) }
{
    for i in 0..MAX_LEN {
        let low = low_digit(lo, i);
        let high = high_digit(hi, i);
        if low + 1 < high {
            return Some(Gap {
                before: i,
                last: (low + high) / 2,
            });
        }
    }
    None
}

// The digit of the lower end at an index.
fn low_digit(lo: Option<&[u8]>, i: usize) -> u8
    requires { IsEnd (option_copied lo) }
    ensures value { greatest_before (option_copied lo.entry) (i + 1)
        ≡ 95 * greatest_before (option_copied lo.entry) i + result }
    ensures range { result < 95 }
{
    match lo {
        Some(s) => digit(s, i),
        None => 0,
    }
}

// The digit of the upper end at an index, and one more where it has digits after it.
fn high_digit(hi: Option<&[u8]>, i: usize) -> u8
    requires index { i < 128 }
    requires end { IsEnd (option_copied hi) }
    ensures value { least_after (option_copied hi.entry) (i + 1) + 95
        ≡ 95 * least_after (option_copied hi.entry) i + result }
    ensures range { result ≤ 95 }
{
    match hi {
        Some(t) => {
            if i + 1 < t.len() {
                digit(t, i) + 1
            } else if i + 1 == t.len() {
                digit(t, i)
            } else {
                95
            }
        }
        None => 95,
    }
}

// The digit at an index, which is 0 past the end.
fn digit(bytes: &[u8], i: usize) -> u8
    requires { IsPosition bytes.now }
    ensures value { result ≡ digit bytes.now i }
    ensures range { result < 95 }
{
    match bytes.get(i) {
        Some(b) => *b - b' ',
        None => 0,
    }
}

// The number that so many first digits are, nine at most.
fn digits_number(bytes: &[u8], count: usize) -> u64
    requires position { IsPosition bytes.now }
    requires few { count ≤ 9 }
    ensures value { result ≡ num bytes.now count }
    ensures range { result < 95 ^ count }
{
    let mut number = 0;
    for i in 0..count {
        number = 95 * number + u64::from(digit(bytes, i));
    }
    number
}

// The lower end's first digits, and then the gap's.
fn half_way<A: Allocator>(alloc: A, lo: Option<&[u8]>, gap: Gap) -> Result<Pos<A>, AllocError>
    requires { IsEnd (option_copied lo) }
    ensures len { IfOk result (λ p. length p ≡ gap.before + 1) }
    ensures digits { IfOk result (All IsDigitByte) }
    ensures position { IfOk result IsPosition }
    ensures value { IfOk result (λ p. num p (gap.before + 1)
        ≡ 95 * greatest_before (option_copied lo.entry) gap.before + gap.last) }
{
    let mut bytes = Vec::with_capacity(alloc, gap.before + 1)?;
    for i in 0..gap.before {
        bytes.push(b' ' + low_digit(lo, i))?;
    }
    bytes.push(b' ' + gap.last)?;
    Ok(Pos { bytes })
}
