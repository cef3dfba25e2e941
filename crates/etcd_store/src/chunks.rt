// The chunks of a document, by their names and as they are read.
ghost use Rattle.std.specs.Prelude.{◌≡◌, ◌<◌, ◌≤◌, IfSome, IsTrue, length};
ghost use Rattle.etcd_store.specs.Chunks.{FitsInOne, ends_at, is_next};

use crate::error::StoreError;
use canvas_etcd::CHUNK;
use etcd_gateway::{ChunkPlace, Found, Keys, place_of};
use std::alloc::{AllocError, Allocator};

// How many bytes of chunks are asked for at once, if more than one is: an etcd's own gateway takes 4 MiB of its etcd.
const BATCH_BYTES: u64 = 1048576;

// How many chunks are asked for at once.
const BATCH_CHUNKS: usize = 4096;

// How many chunks are asked for at once of a segment whose further chunks begin at these bytes: one, or as many as have 1 MiB together.
pub(crate) fn batch_of(starts: &[u64]) -> usize
    ensures within { result ≤ length starts.now }
    ensures some { 0 < length starts.now → 0 < result }
    ensures fits { 1 < result → FitsInOne result starts.now }
{
    let most = starts.len().min(BATCH_CHUNKS);
    for count in 1..most {
        if !fits(starts, count + 1) {
            return count;
        }
    }
    most
}

// Checks whether the first so many chunks have 1 MiB together at most.
fn fits(starts: &[u64], count: usize) -> bool
    requires { 0 < length starts.now }
    ensures { IsTrue result → FitsInOne count starts.now }
{
    match end_of(starts, count) {
        Some(end) => end.saturating_sub(starts[0]) <= BATCH_BYTES,
        None => false,
    }
}

// Where the first so many chunks end: where the next one begins, or 512 KiB behind where the last one does.
fn end_of(starts: &[u64], count: usize) -> Option<u64>
    requires { 0 < length starts.now }
    ensures { IfSome result (λ end. end ≡ ends_at count starts.now) }
{
    if count < starts.len() {
        return Some(starts[count]);
    }
    let last = starts[starts.len() - 1];
    last.checked_add(CHUNK as u64)
}

// Notes the last chunk of each segment, of what was found of a document's keys in their order. Tells whether there are more. `Damaged` where
// a key is none of a chunk's.
pub(crate) fn note_last(
    name: &[u8],
    found: &Found,
    keys: &mut Keys,
    last: &mut Vec<ChunkPlace>,
) -> Result<bool, StoreError> {
    for pair in &found.pairs {
        let place = place_of(name, &pair.key).ok_or(StoreError::Damaged)?;
        let again = last.last().is_some_and(|it| it.segment == place.segment);
        if again {
            last.pop();
        }
        last.push(place)?;
    }
    Ok(step(keys, found)?)
}

// Notes where each chunk of a segment begins, of what was found of its keys in their order. Tells whether there are more. `Damaged` where a
// key is none of a chunk's of the segment.
pub(crate) fn note_starts(
    name: &[u8],
    segment: u32,
    found: &Found,
    keys: &mut Keys,
    starts: &mut Vec<u64>,
) -> Result<bool, StoreError> {
    for pair in &found.pairs {
        match place_of(name, &pair.key) {
            Some(place) if place.segment == segment => starts.push(place.chunk)?,
            _ => return Err(StoreError::Damaged),
        }
    }
    Ok(step(keys, found)?)
}

// Puts the chunks that were found behind the bytes of a segment. `Damaged` where they aren't those that begin at these bytes, each behind
// those before it.
pub(crate) fn join_found<A: Allocator>(
    name: &[u8],
    found: &Found,
    segment: u32,
    starts: &[u64],
    bytes: &mut Vec<u8, A>,
) -> Result<(), StoreError> {
    if found.pairs.len() != starts.len() {
        return Err(StoreError::Damaged);
    }
    for (pair, start) in found.pairs.iter().zip(starts.iter()) {
        let place = place_of(name, &pair.key);
        if !is_next(place, segment, *start, bytes.len() as u64) {
            return Err(StoreError::Damaged);
        }
        bytes.extend_from_slice(&pair.value)?;
    }
    Ok(())
}

// Checks whether a chunk is the one of this segment that begins here, where so many bytes stand before it.
fn is_next(place: Option<ChunkPlace>, segment: u32, start: u64, before: u64) -> bool
    ensures { result ≡ is_next place segment start before }
{
    match place {
        Some(place) => start == before && place.segment == segment && place.chunk == before,
        None => false,
    }
}

// Goes on behind what was found, and tells whether there is more.
fn step(keys: &mut Keys, found: &Found) -> Result<bool, AllocError> {
    let Some(last) = found.pairs.last() else {
        return Ok(false);
    };
    keys.from.clear();
    keys.from.extend_from_slice(&last.key)?;
    keys.from.push(0)?;
    Ok(found.more)
}
