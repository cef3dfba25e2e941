// Questions about documents: entries that may come next, and chains of parents.
use crate::saying::{refused, unreadable};
use canvas_doc::{Doc, ObjId};
use canvas_judge::{Entry, Message, State, below, is_above};
use canvas_model::Rule;
use canvas_model::words::cut;
use canvas_wire::{decode, decode_checkpoint, decode_entry};
use std::alloc::{AllocError, Allocator, Global};

// Checks whether an entry may come next by this rule.
fn may_follow<A: Allocator + Copy>(
    alloc: A,
    rule: Rule,
    state: &State<A>,
    entry: &Entry<A>,
) -> Result<bool, AllocError> {
    match rule {
        Rule::One => state.fits_under(alloc, Rule::One, entry),
        Rule::Two => state.fits(alloc, entry),
    }
}

// Checks whether the entry that a text spells may come next.
fn fits_after<A: Allocator + Copy>(
    heap: Global,
    alloc: A,
    rule: Rule,
    state: &State<A>,
    text: &[u8],
) -> Result<Vec<u8>, AllocError> {
    let entry = match decode_entry(heap, alloc, text) {
        Ok(entry) => entry,
        Err(fault) => return refused(heap, fault),
    };
    if may_follow(alloc, rule, state, &entry)? {
        Vec::from_slice(heap, b"fits")
    } else {
        Vec::from_slice(heap, b"does not fit")
    }
}

/// Checks whether an entry may come after a checkpoint of the first form by this rule, with a tab between the two.
pub fn fits<A: Allocator + Copy>(
    heap: Global,
    alloc: A,
    rule: Rule,
    text: &[u8],
) -> Result<Vec<u8>, AllocError> {
    let Some((checkpoint, entry)) = cut(text, b'\t') else {
        return unreadable(heap);
    };
    match decode_checkpoint(heap, alloc, checkpoint) {
        Ok((state, _)) => fits_after(heap, alloc, rule, &state, entry),
        Err(fault) => refused(heap, fault),
    }
}

// The document of a copy.
fn doc_of<A: Allocator>(message: &Message<A>) -> Option<&Doc<A>> {
    match message {
        Message::Copy(copy) => Some(&copy.doc),
        _ => None,
    }
}

// Checks whether one object stands above another in a document.
fn above_in<A: Allocator>(
    heap: Global,
    doc: &Doc<A>,
    upper: &[u8],
    lower: &[u8],
) -> Result<Vec<u8>, AllocError> {
    match (ObjId::try_from(upper), ObjId::try_from(lower)) {
        (Ok(upper), Ok(lower)) => {
            let answer: &[u8] = if is_above(doc, upper, lower) {
                b"above"
            } else {
                b"not above"
            };
            Vec::from_slice(heap, answer)
        }
        _ => unreadable(heap),
    }
}

/// Checks whether one object stands above another, or is that one: a copy and their ids, with tabs between them.
pub fn above<A: Allocator + Copy>(
    heap: Global,
    alloc: A,
    text: &[u8],
) -> Result<Vec<u8>, AllocError> {
    let Some((copy, ids)) = cut(text, b'\t') else {
        return unreadable(heap);
    };
    let Some((upper, lower)) = cut(ids, b'\t') else {
        return unreadable(heap);
    };
    match decode(heap, alloc, copy) {
        Ok(message) => match doc_of(&message) {
            Some(doc) => above_in(heap, doc, upper, lower),
            None => unreadable(heap),
        },
        Err(fault) => refused(heap, fault),
    }
}

// The ids, with a blank before each.
fn listed(heap: Global, ids: &[ObjId]) -> Result<Vec<u8>, AllocError> {
    let mut text = Vec::from_slice(heap, b"below:")?;
    for id in ids {
        text.extend_from_slice(format!(in heap; " {id}")?.as_bytes())?;
    }
    Ok(text)
}

// The objects below one in a document.
fn below_in<A: Allocator + Copy>(
    heap: Global,
    alloc: A,
    doc: &Doc<A>,
    id: &[u8],
) -> Result<Vec<u8>, AllocError> {
    match ObjId::try_from(id) {
        Ok(id) => {
            let ids = below(alloc, doc, id)?;
            listed(heap, &ids)
        }
        Err(_) => unreadable(heap),
    }
}

/// The objects below one: a copy and its id, with a tab between them.
pub fn all_below<A: Allocator + Copy>(
    heap: Global,
    alloc: A,
    text: &[u8],
) -> Result<Vec<u8>, AllocError> {
    let Some((copy, id)) = cut(text, b'\t') else {
        return unreadable(heap);
    };
    match decode(heap, alloc, copy) {
        Ok(message) => match doc_of(&message) {
            Some(doc) => below_in(heap, alloc, doc, id),
            None => unreadable(heap),
        },
        Err(fault) => refused(heap, fault),
    }
}
