// What texts are read as. What is said of one is written of a copy, where there is a call that copies.
use crate::saying::{refused, said};
use canvas_codec::{JsonFault, from_json, json_text};
use canvas_doc::{ObjId, Object};
use canvas_judge::{Entry, Message, State};
use canvas_value::{Name, NameError, Value};
use canvas_wire::{
    CheckpointHead, decode, decode_checkpoint, decode_entry, decode_head, decode_row, encode,
    encode_entry, encode_head, encode_row,
};
use serde_json::Value as Json;
use std::alloc::{AllocError, Allocator, Global};

fn message_again<A: Allocator + Copy>(
    heap: Global,
    alloc: A,
    message: &Message<A>,
) -> Result<Vec<u8>, AllocError> {
    let copy = message.copy_in(alloc)?;
    let text = encode(heap, &copy)?;
    said(heap, &text)
}

/// What is said of a message.
pub fn message<A: Allocator + Copy>(
    heap: Global,
    alloc: A,
    text: &[u8],
) -> Result<Vec<u8>, AllocError> {
    match decode(heap, alloc, text) {
        Ok(message) => message_again(heap, alloc, &message),
        Err(fault) => refused(heap, fault),
    }
}

fn entry_again<A: Allocator + Copy>(
    heap: Global,
    alloc: A,
    entry: &Entry<A>,
) -> Result<Vec<u8>, AllocError> {
    let copy = entry.copy_in(alloc)?;
    let text = encode_entry(heap, &copy)?;
    said(heap, &text)
}

/// What is said of an entry.
pub fn entry<A: Allocator + Copy>(
    heap: Global,
    alloc: A,
    text: &[u8],
) -> Result<Vec<u8>, AllocError> {
    match decode_entry(heap, alloc, text) {
        Ok(entry) => entry_again(heap, alloc, &entry),
        Err(fault) => refused(heap, fault),
    }
}

// The text of a head, and then that of each object's row, with a blank between them.
fn checkpoint_again<A: Allocator + Copy>(
    heap: Global,
    alloc: A,
    state: &State<A>,
    version: u64,
) -> Result<Vec<u8>, AllocError> {
    let copy = state.copy_in(alloc)?;
    let doc = copy.doc();
    let mut text = encode_head(heap, copy.clients(), version, doc.len() as u64)?;
    for row in doc.objects() {
        text.push(b' ')?;
        text.extend_from_slice(&encode_row(heap, row)?)?;
    }
    said(heap, &text)
}

/// What is said of a checkpoint of the first form, which is one text: the texts that are written of its state today.
pub fn checkpoint<A: Allocator + Copy>(
    heap: Global,
    alloc: A,
    text: &[u8],
) -> Result<Vec<u8>, AllocError> {
    match decode_checkpoint(heap, alloc, text) {
        Ok((state, version)) => checkpoint_again(heap, alloc, &state, version),
        Err(fault) => refused(heap, fault),
    }
}

fn head_again<A: Allocator>(heap: Global, head: &CheckpointHead<A>) -> Result<Vec<u8>, AllocError> {
    let text = encode_head(heap, &head.clients, head.version, head.count)?;
    said(heap, &text)
}

/// What is said of the head of a checkpoint.
pub fn head<A: Allocator + Copy>(
    heap: Global,
    alloc: A,
    text: &[u8],
) -> Result<Vec<u8>, AllocError> {
    match decode_head(heap, alloc, text) {
        Ok(head) => head_again(heap, &head),
        Err(fault) => refused(heap, fault),
    }
}

fn row_again<A: Allocator + Copy>(
    heap: Global,
    alloc: A,
    id: ObjId,
    object: &Object<A>,
) -> Result<Vec<u8>, AllocError> {
    let copy = object.copy_in(alloc)?;
    let text = encode_row(heap, &(id, copy))?;
    said(heap, &text)
}

/// What is said of an object's row.
pub fn row<A: Allocator + Copy>(
    heap: Global,
    alloc: A,
    text: &[u8],
) -> Result<Vec<u8>, AllocError> {
    match decode_row(heap, alloc, text) {
        Ok((id, object)) => row_again(heap, alloc, id, &object),
        Err(fault) => refused(heap, fault),
    }
}

fn value_again<A: Allocator + Copy>(
    heap: Global,
    alloc: A,
    value: &Value<A>,
) -> Result<Vec<u8>, AllocError> {
    let copy = value.copy_in(alloc)?;
    let text = json_text(heap, &copy)?;
    said(heap, text.as_bytes())
}

// The value of a JSON tree, and whether it may be kept.
fn value_of<A: Allocator + Copy>(
    heap: Global,
    alloc: A,
    json: &Json,
) -> Result<Vec<u8>, AllocError> {
    match from_json(alloc, json) {
        Ok(value) => match value.check() {
            Ok(()) => value_again(heap, alloc, &value),
            Err(_) => Vec::from_slice(heap, b"TooDeep"),
        },
        Err(JsonFault::NotAValue) => Vec::from_slice(heap, b"NotAValue"),
        Err(JsonFault::OutOfRange) => Vec::from_slice(heap, b"OutOfRange"),
        Err(JsonFault::Memory) => Err(AllocError),
    }
}

/// What is said of a value.
pub fn value<A: Allocator + Copy>(
    heap: Global,
    alloc: A,
    text: &[u8],
) -> Result<Vec<u8>, AllocError> {
    match Json::from_slice(heap, text) {
        Ok(json) => value_of(heap, alloc, &json),
        Err(error) if error.is_memory() => Err(AllocError),
        Err(_) => Vec::from_slice(heap, b"NotJson"),
    }
}

fn name_again<A: Allocator + Copy>(
    heap: Global,
    alloc: A,
    name: &Name<A>,
) -> Result<Vec<u8>, AllocError> {
    let copy = name.copy_in(alloc)?;
    let text = format!(in heap; "{copy}")?;
    said(heap, text.as_bytes())
}

/// What is said of a name.
pub fn name<A: Allocator + Copy>(
    heap: Global,
    alloc: A,
    text: &[u8],
) -> Result<Vec<u8>, AllocError> {
    match Name::read(alloc, text) {
        Ok(name) => name_again(heap, alloc, &name),
        Err(NameError::Memory) => Err(AllocError),
        Err(fault) => Ok(format!(in heap; "{fault:?}")?.into_bytes()),
    }
}
