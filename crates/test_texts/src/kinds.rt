// The kinds of texts.
use crate::documents::{above, all_below, fits};
use crate::positions::{middle, position, printed, steps};
use crate::reading::{checkpoint, entry, head, message, name, row, value};
use canvas_model::Rule;
use std::alloc::{AllocError, Allocator, Global};

/// What a text is meant to be.
#[derive(Clone, Copy)]
pub enum Kind {
    Message,
    Entry,
    /// A checkpoint of the first form: which texts are written of it today?
    Checkpoint,
    Head,
    Row,
    Value,
    Name,
    Position,
    /// A position: what is printed of it?
    Printed,
    /// A position: which are the steps beside it?
    Steps,
    /// Two ends, of which each may be empty: what is their middle?
    Between,
    /// A checkpoint and an entry: may it come next?
    Fits,
    /// A checkpoint and an entry: could it come next by the first rule, which journals of the first form follow?
    Fitted,
    /// A copy and two ids: does the first one stand above the second one, or is it that one?
    Above,
    /// A copy and an id: which objects stand below it?
    Below,
}

// The word of each kind.
const WORDS: &[(&str, Kind)] = &[
    ("message", Kind::Message),
    ("entry", Kind::Entry),
    ("checkpoint", Kind::Checkpoint),
    ("head", Kind::Head),
    ("row", Kind::Row),
    ("value", Kind::Value),
    ("name", Kind::Name),
    ("position", Kind::Position),
    ("printed", Kind::Printed),
    ("steps", Kind::Steps),
    ("between", Kind::Between),
    ("fits", Kind::Fits),
    ("fitted", Kind::Fitted),
    ("above", Kind::Above),
    ("below", Kind::Below),
];

/// The kind of this word.
pub fn kind_of(word: &[u8]) -> Option<Kind> {
    for (name, kind) in WORDS {
        if name.as_bytes() == word {
            return Some(*kind);
        }
    }
    None
}

/// What is said of a text that is read under an allocator.
pub fn said_of<A: Allocator + Copy>(
    heap: Global,
    alloc: A,
    kind: Kind,
    text: &[u8],
) -> Result<Vec<u8>, AllocError> {
    match kind {
        Kind::Message => message(heap, alloc, text),
        Kind::Entry => entry(heap, alloc, text),
        Kind::Checkpoint => checkpoint(heap, alloc, text),
        Kind::Head => head(heap, alloc, text),
        Kind::Row => row(heap, alloc, text),
        Kind::Value => value(heap, alloc, text),
        Kind::Name => name(heap, alloc, text),
        Kind::Position => position(heap, alloc, text),
        Kind::Printed => printed(heap, alloc, text),
        Kind::Steps => steps(heap, alloc, text),
        Kind::Between => middle(heap, alloc, text),
        Kind::Fits => fits(heap, alloc, Rule::Two, text),
        Kind::Fitted => fits(heap, alloc, Rule::One, text),
        Kind::Above => above(heap, alloc, text),
        Kind::Below => all_below(heap, alloc, text),
    }
}
