// The small steps behind a position and before it.
ghost use Rattle.std.specs.Prelude.{◌≡◌, ℕ, ◌+◌, ◌-◌, ◌*◌, ◌<◌, ◌≤◌, length, IfOk, IfSome, IfNone, Some, None};
ghost use Rattle.canvas_model.specs.Position.{IsPosition, num};
ghost use Rattle.canvas_model.specs.Middle.{IsGreatest, IsLeast, LiesBetween};
ghost use Rattle.canvas_model.specs.Order.{FitsBetween};
ghost use Rattle.canvas_pos.specs.Ends.{IsNarrow, least_after};
ghost use Rattle.canvas_pos.specs.Laws.{NoneFits};
ghost use Rattle.canvas_pos.specs.Step.{AreFewest, HoldNoStep, StepAfter, StepBefore};
ghost use Rattle.canvas_pos.specs.Step.{EachStepAfterFits, EachStepAfterIsOnly, IsOnlyStepAfter};
ghost use Rattle.canvas_pos.specs.Step.{EachStepBeforeFits, EachStepBeforeIsOnly, IsOnlyStepBefore};
ghost use Rattle.canvas_pos.specs.Step.{MillionsFitAfter, StepsAfterGoOn, StepsAfterStayShort};
ghost use Rattle.canvas_pos.specs.Step.{MillionsFitBefore, StepsBeforeGoOn, StepsBeforeStayShort};

use crate::{Gap, MAX_LEN, Pos, digit, digits_number, half_way, high_digit};
use std::alloc::{AllocError, Allocator};

// The digits of a step where it needs no more.
const DIGITS: usize = 4;

// How many such steps there are from 0 to 1.
const STEPS: u64 = 81_450_625;

/// The laws of the small steps: a step behind a position is the only one and lies after it, and
/// from a position on steps go on one after the other, with four bytes each, as long as the number
/// of its first four digits leaves room; behind `O` that are 41 million. The same holds before a
/// position. It does nothing when it runs: call it where a proof needs the laws.
pub fn every_step_beside()
    ensures after { EachStepAfterFits }
    ensures only_after { EachStepAfterIsOnly }
    ensures before { EachStepBeforeFits }
    ensures only_before { EachStepBeforeIsOnly }
    ensures go_on_after { StepsAfterGoOn }
    ensures go_on_before { StepsBeforeGoOn }
    ensures short_after { StepsAfterStayShort }
    ensures short_before { StepsBeforeStayShort }
    ensures millions_after { MillionsFitAfter }
    ensures millions_before { MillionsFitBefore }
{}

/// The position a small step behind `last`: the smallest fraction of four digits that is greater
/// than `last`, or of as few more digits as such a fraction needs.
///
/// Who puts one object behind the other takes this in place of the middle of `last` and the end: a
/// parent takes 41 million so, and 896 by middles. It is `None` only if no position lies behind
/// `last`.
///
/// The time is linear in `last`. Memory is asked for once, for the answer, and not at all where
/// that is `None`; the error is that it was refused.
pub fn step_after<A: Allocator, B: Allocator>(
    alloc: A,
    last: &Pos<B>,
) -> Result<Option<Pos<A>>, AllocError>
    ensures step { IfOk result (StepAfter last.now) }
    ensures only { IfOk result (λ r. IfSome r (IsOnlyStepAfter last.now)) }
    ensures fits { IfOk result (λ r. IfSome r (FitsBetween (Some last.now) None)) }
    ensures none { IfOk result (λ r. IfNone r (NoneFits (Some last.now) None)) }
{
    let bytes = last.bytes();
    let next = digits_number(bytes, DIGITS) + 1;
    if next < STEPS {
        let step = short_position(alloc, next)?;
        return Ok(Some(step));
    }
    let Some(gap) = gap_after(bytes) else {
        return Ok(None);
    };
    let step = half_way(alloc, Some(bytes), gap)?;
    Ok(Some(step))
}

/// The position a small step before `first`: the greatest fraction of four digits that is less than
/// `first`, or of as few more digits as such a fraction needs.
///
/// Who puts one object before the other takes this in place of the middle of the beginning and
/// `first`. It is `None` only if no position lies before `first`.
///
/// The time is linear in `first`. Memory is asked for once, for the answer, and not at all where
/// that is `None`; the error is that it was refused.
pub fn step_before<A: Allocator, B: Allocator>(
    alloc: A,
    first: &Pos<B>,
) -> Result<Option<Pos<A>>, AllocError>
    ensures step { IfOk result (StepBefore first.now) }
    ensures only { IfOk result (λ r. IfSome r (IsOnlyStepBefore first.now)) }
    ensures fits { IfOk result (λ r. IfSome r (FitsBetween None (Some first.now))) }
    ensures none { IfOk result (λ r. IfNone r (NoneFits None (Some first.now))) }
{
    let bytes = first.bytes();
    let end = steps_to(bytes);
    if end > 1 {
        let step = short_position(alloc, end - 1)?;
        return Ok(Some(step));
    }
    let Some(gap) = gap_before(bytes) else {
        return Ok(None);
    };
    let step = half_way(alloc, None, gap)?;
    Ok(Some(step))
}

// The least number of steps from 0 that doesn't lie before a position.
fn steps_to(first: &[u8]) -> u64
    requires { IsPosition first.now }
    ensures value { result ≡ least_after (Some first.now) 4 }
    ensures some { 0 < result }
    ensures few { result ≤ 81450625 }
{
    let steps = digits_number(first, DIGITS);
    if first.len() > DIGITS {
        steps + 1
    } else {
        steps
    }
}

// The position of at most four digits that is so many steps from 0.
fn short_position<A: Allocator>(alloc: A, steps: u64) -> Result<Pos<A>, AllocError>
    requires some { 0 < steps }
    requires few { steps < 81450625 }
    ensures value { IfOk result (λ p. num p 4 ≡ steps) }
    ensures short { IfOk result (λ p. length p ≤ 4) }
    ensures position { IfOk result IsPosition }
{
    let mut bytes = Vec::with_capacity(alloc, DIGITS)?;
    let mut rest = steps;
    for _ in 0..DIGITS {
        if rest == 0 {
            break;
        }
        let scaled = 95 * rest;
        bytes.push(b' ' + (scaled / STEPS) as u8)?;
        rest = scaled % STEPS;
    }
    Ok(Pos { bytes })
}

// The gap of the step behind a position whose first four digits are the greatest, or `None` where
// nothing of at most 128 digits lies after it.
fn gap_after(last: &[u8]) -> Option<Gap>
    requires position { IsPosition last.now }
    requires narrow { IsNarrow (Some last.now) None 4 }
    ensures shut { IfNone result (HoldNoStep (Some last.now) None) }
    ensures fewest { IfSome result (λ gap. AreFewest (Some last.now) None (gap.before + 1)) }
    ensures least { IfSome result (λ gap. IsLeast (LiesBetween (Some last.now) None (gap.before + 1))
        (95 * num last.now gap.before + gap.last)) }
{
    for i in DIGITS..MAX_LEN {
        let low = digit(last, i);
        if low < 94 {
            return Some(Gap {
                before: i,
                last: low + 1,
            });
        }
    }
    None
}

// The gap of the step before a position that no position of four digits lies before, or `None`
// where nothing of at most 128 digits lies before it.
fn gap_before(first: &[u8]) -> Option<Gap>
    requires position { IsPosition first.now }
    requires narrow { IsNarrow None (Some first.now) 4 }
    ensures shut { IfNone result (HoldNoStep None (Some first.now)) }
    ensures fewest { IfSome result (λ gap. AreFewest None (Some first.now) (gap.before + 1)) }
    ensures greatest { IfSome result
        (λ gap. IsGreatest (LiesBetween None (Some first.now) (gap.before + 1)) gap.last) }
{
    for i in DIGITS..MAX_LEN {
        let high = high_digit(Some(first), i);
        if high > 1 {
            return Some(Gap {
                before: i,
                last: high - 1,
            });
        }
    }
    None
}
