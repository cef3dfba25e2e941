// Positions, the steps beside them, and the middles between them.
use crate::saying::{said, unreadable};
use canvas_model::words::cut;
use canvas_pos::{Pos, PosError, between, step_after, step_before};
use std::alloc::{AllocError, Allocator, Global};
use std::cmp::Ordering;

fn position_again<A: Allocator + Copy>(
    heap: Global,
    alloc: A,
    position: &Pos<A>,
) -> Result<Vec<u8>, AllocError> {
    let copy = position.copy(alloc)?;
    said(heap, copy.bytes())
}

/// What is said of a position.
pub fn position<A: Allocator + Copy>(
    heap: Global,
    alloc: A,
    text: &[u8],
) -> Result<Vec<u8>, AllocError> {
    match Pos::read(alloc, text) {
        Ok(position) => position_again(heap, alloc, &position),
        Err(PosError::Memory) => Err(AllocError),
        Err(fault) => Ok(format!(in heap; "{fault:?}")?.into_bytes()),
    }
}

/// What is printed of a position: as it is, in four columns, and as a text in quotes. Of another text, what is printed of its fault.
pub fn printed<A: Allocator>(heap: Global, alloc: A, text: &[u8]) -> Result<Vec<u8>, AllocError> {
    let shown = match Pos::read(alloc, text) {
        Ok(position) => format!(in heap; "[{position}] [{position:>4}] {position:?}")?,
        Err(PosError::Memory) => return Err(AllocError),
        Err(fault) => format!(in heap; "{fault}")?,
    };
    Ok(shown.into_bytes())
}

// Adds a step, or that there is none.
fn add_step<A: Allocator>(step: Option<Pos<A>>, out: &mut Vec<u8>) -> Result<(), AllocError> {
    match step {
        Some(step) => out.extend_from_slice(step.bytes()),
        None => out.extend_from_slice(b"none"),
    }
}

// The steps behind a position and before it, with a tab between them.
fn steps_beside<A: Allocator + Copy>(
    heap: Global,
    alloc: A,
    position: &Pos<A>,
) -> Result<Vec<u8>, AllocError> {
    let mut text = Vec::new(heap);
    add_step(step_after(alloc, position)?, &mut text)?;
    text.push(b'\t')?;
    add_step(step_before(alloc, position)?, &mut text)?;
    Ok(text)
}

/// The steps behind a position and before it, with a tab between them.
pub fn steps<A: Allocator + Copy>(
    heap: Global,
    alloc: A,
    text: &[u8],
) -> Result<Vec<u8>, AllocError> {
    match Pos::read(alloc, text) {
        Ok(position) => steps_beside(heap, alloc, &position),
        Err(PosError::Memory) => Err(AllocError),
        Err(_) => unreadable(heap),
    }
}

// The end that a text spells: an empty one is no end.
fn end<A: Allocator + Copy>(alloc: A, text: &[u8]) -> Result<Option<Pos<A>>, PosError> {
    if text.is_empty() {
        Ok(None)
    } else {
        Ok(Some(Pos::read(alloc, text)?))
    }
}

// What is said of the middle between two ends.
fn middle_of<A: Allocator + Copy>(
    heap: Global,
    alloc: A,
    lower: Option<&Pos<A>>,
    upper: Option<&Pos<A>>,
) -> Result<Vec<u8>, AllocError> {
    if let (Some(lower), Some(upper)) = (lower, upper) {
        if lower.compare(upper) != Ordering::Less {
            return Vec::from_slice(heap, b"out of order");
        }
    }
    match between(alloc, lower, upper)? {
        Some(middle) => said(heap, middle.bytes()),
        None => Vec::from_slice(heap, b"none"),
    }
}

// What is said of the middle above an end, up to the end that a text spells.
fn middle_above<A: Allocator + Copy>(
    heap: Global,
    alloc: A,
    lower: Option<&Pos<A>>,
    upper: &[u8],
) -> Result<Vec<u8>, AllocError> {
    match end(alloc, upper) {
        Ok(upper) => middle_of(heap, alloc, lower, upper.as_ref()),
        Err(PosError::Memory) => Err(AllocError),
        Err(_) => unreadable(heap),
    }
}

/// What is said of the middle between two ends, with a tab between them.
pub fn middle<A: Allocator + Copy>(
    heap: Global,
    alloc: A,
    text: &[u8],
) -> Result<Vec<u8>, AllocError> {
    let Some((lower, upper)) = cut(text, b'\t') else {
        return unreadable(heap);
    };
    match end(alloc, lower) {
        Ok(lower) => middle_above(heap, alloc, lower.as_ref(), upper),
        Err(PosError::Memory) => Err(AllocError),
        Err(_) => unreadable(heap),
    }
}
