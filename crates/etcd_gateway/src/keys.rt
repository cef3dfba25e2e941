// The keys of a document in the store.
ghost use Rattle.std.specs.Prelude.{◌≡◌, ◌≢◌, ◌^◌, ◌<◌, ◌++◌, ℕ, [], List, codes, length, IfOk, IfSome, IfNone};
ghost use Rattle.std.specs.List.{fold, list_all};
ghost use Rattle.etcd_gateway.specs.Keys.{EachKeyIsOneChunk, chunk_key, end_key, first_behind, first_below, identity_key, is_document_name, is_document_name_byte, owner_key, segment_key, segments_key};
ghost use Rattle.canvas_decimals.specs.Decimals.{ten_digits};

use canvas_decimals::{read_ten_digits, ten_digits};
use std::alloc::{AllocError, Global};

// What all keys begin with.
const ROOT: &[u8] = b"lugcurrant/";

// What stands behind a document's name in the keys of its chunks.
const SEGMENT: &[u8] = b"/segment";

/// Keys in the order of their bytes: those from `from` on, up to `to`, which isn't one of them.
#[derive(Debug, Drop)]
pub struct Keys {
    /// The first key.
    pub from: Vec<u8>,
    /// The first key after them.
    pub to: Vec<u8>,
}

/// A chunk of a segment, by its numbers.
#[derive(Clone, Copy, Debug, PartialEq, Eq)]
pub struct ChunkPlace {
    /// The segment's number.
    pub segment: u32,
    /// The chunk's number in the segment, below 10000000000.
    pub chunk: u64,
}

/// Checks whether a document may have this name in the store: 1 to 64 bytes, each a letter or digit of ASCII, `-`, `.` or `_`, and the
/// first no `-`. So no document's keys lie among another's, and no name is taken for an option.
pub fn is_name(name: &[u8]) -> bool
    ensures { result ≡ is_document_name name.now }
{
    !name.is_empty() && name.len() <= 64 && !name.starts_with(b"-") && are_name_bytes(name)
}

// Checks whether each byte may stand in a name.
fn are_name_bytes(name: &[u8]) -> bool
    ensures { result ≡ list_all is_document_name_byte name.now }
{
    name.iter().all(|b| is_name_byte(*b))
}

// Checks whether the byte may stand in a name.
fn is_name_byte(b: u8) -> bool
    ensures { result ≡ is_document_name_byte b }
{
    b.is_ascii_alphanumeric() || b == b'-' || b == b'.' || b == b'_'
}

/// The key of the owner of the document of this name.
///
/// Errors: out of memory.
pub fn owner_key(alloc: Global, name: &[u8]) -> Result<Vec<u8>, AllocError>
    ensures { IfOk result (λ key. key.items ≡ owner_key name.now) }
{
    join(alloc, &[ROOT, name, b"/owner"])
}

/// The key of the identity of the document of this name.
///
/// Errors: out of memory.
pub fn identity_key(alloc: Global, name: &[u8]) -> Result<Vec<u8>, AllocError>
    ensures { IfOk result (λ key. key.items ≡ identity_key name.now) }
{
    join(alloc, &[ROOT, name, b"/identity"])
}

/// The key of where the last chunk ends that was put of the document of this name.
///
/// Errors: out of memory.
pub fn end_key(alloc: Global, name: &[u8]) -> Result<Vec<u8>, AllocError>
    ensures { IfOk result (λ key. key.items ≡ end_key name.now) }
{
    join(alloc, &[ROOT, name, b"/end"])
}

/// The key of this chunk of the document of this name. Each number stands in ten decimal digits, so the order of the keys is that of
/// the segments, and in a segment that of the chunks.
///
/// Errors: out of memory.
pub fn chunk_key(alloc: Global, name: &[u8], place: ChunkPlace) -> Result<Vec<u8>, AllocError>
    requires { place.chunk < 10 ^ 10 }
    ensures { IfOk result (λ key. key.items ≡ chunk_key name.now place.segment place.chunk) }
{
    let segment = ten_digits(u64::from(place.segment));
    let chunk = ten_digits(place.chunk);
    join(alloc, &[ROOT, name, SEGMENT, b"/", &segment, b"/", &chunk])
}

/// The keys of all chunks of the document of this name.
///
/// Errors: out of memory.
pub fn all_chunks(alloc: Global, name: &[u8]) -> Result<Keys, AllocError>
    ensures from { IfOk result (λ keys. keys.from.items ≡ first_below (segments_key name.now)) }
    ensures to { IfOk result (λ keys. keys.to.items ≡ first_behind (segments_key name.now)) }
{
    let key = segments_key(alloc, name)?;
    below(alloc, key)
}

/// The keys of all chunks of this segment of the document of this name.
///
/// Errors: out of memory.
pub fn chunks_of(alloc: Global, name: &[u8], segment: u32) -> Result<Keys, AllocError>
    ensures from { IfOk result (λ keys. keys.from.items ≡ first_below (segment_key name.now segment)) }
    ensures to { IfOk result (λ keys. keys.to.items ≡ first_behind (segment_key name.now segment)) }
{
    let key = segment_key(alloc, name, segment)?;
    below(alloc, key)
}

/// This key alone, of those of documents: the keys from it on up to the same bytes with a `0` after them.
///
/// Errors: out of memory.
pub fn one_key(alloc: Global, key: Vec<u8>) -> Result<Keys, AllocError>
    ensures from { IfOk result (λ keys. keys.from.items ≡ key.items) }
    ensures to { IfOk result (λ keys. keys.to.items ≡ first_behind key.items) }
{
    let mut to = Vec::from_slice(alloc, &key)?;
    to.extend_from_slice(b"0")?;
    Ok(Keys { from: key, to })
}

// The keys that begin with this key and a slash.
fn below(alloc: Global, key: Vec<u8>) -> Result<Keys, AllocError>
    ensures from { IfOk result (λ keys. keys.from.items ≡ first_below key.items) }
    ensures to { IfOk result (λ keys. keys.to.items ≡ first_behind key.items) }
{
    let Keys { mut from, to } = one_key(alloc, key)?;
    from.extend_from_slice(b"/")?;
    Ok(Keys { from, to })
}

// These parts, one behind the other.
fn join(alloc: Global, parts: &[&[u8]]) -> Result<Vec<u8>, AllocError>
    ensures { IfOk result (λ key. key.items ≡ fold (λ front part. front ++ part.now) [] parts.now) }
{
    let mut key = Vec::new(alloc);
    for part in parts {
        key.extend_from_slice(part)?;
    }
    Ok(key)
}

// What the keys of a document's chunks begin with.
fn segments_key(alloc: Global, name: &[u8]) -> Result<Vec<u8>, AllocError>
    ensures { IfOk result (λ key. key.items ≡ segments_key name.now) }
{
    join(alloc, &[ROOT, name, SEGMENT])
}

// What the keys of a segment's chunks begin with.
fn segment_key(alloc: Global, name: &[u8], segment: u32) -> Result<Vec<u8>, AllocError>
    ensures { IfOk result (λ key. key.items ≡ segment_key name.now segment) }
{
    let segment = ten_digits(u64::from(segment));
    join(alloc, &[ROOT, name, SEGMENT, b"/", &segment])
}

/// The chunk of which this is the key, if it is one of a chunk of the document of this name.
pub fn place_of(name: &[u8], key: &[u8]) -> Option<ChunkPlace>
    ensures some { IfSome result (λ place. key.now ≡ chunk_key name.now place.segment place.chunk) }
    ensures none { IfNone result ((segment : ℕ) (chunk : ℕ) → segment < 2 ^ 32 → chunk < 10 ^ 10 → key.now ≢ chunk_key name.now segment chunk) }
{
    let digits = behind_segments(name, key)?;
    place_in(digits)
}

/// The numbers of a chunk, each in ten decimal digits, with a slash between.
///
/// Errors: out of memory.
pub fn place_digits(alloc: Global, place: ChunkPlace) -> Result<Vec<u8>, AllocError>
    requires { place.chunk < 10 ^ 10 }
    ensures { IfOk result (λ digits. digits.items ≡ ten_digits place.segment ++ codes "/" ++ ten_digits place.chunk) }
{
    let segment = ten_digits(u64::from(place.segment));
    let chunk = ten_digits(place.chunk);
    join(alloc, &[&segment, b"/", &chunk])
}

/// The chunk whose numbers stand here, with a slash between, if they do.
pub fn place_in(digits: &[u8]) -> Option<ChunkPlace>
    ensures some { IfSome result (λ place. digits.now ≡ ten_digits place.segment ++ codes "/" ++ ten_digits place.chunk) }
    ensures none { IfNone result ((segment : ℕ) (chunk : ℕ) → segment < 2 ^ 32 → chunk < 10 ^ 10 → digits.now ≢ ten_digits segment ++ codes "/" ++ ten_digits chunk) }
{
    if digits.len() != 21 {
        return None;
    }
    let (segment, rest) = digits.split_at(10);
    let chunk = rest.strip_prefix(b"/")?;
    let segment = segment_of(segment)?;
    let chunk = read_ten_digits(chunk)?;
    Some(ChunkPlace { segment, chunk })
}

// What stands behind `lugcurrant/NAME/segment/`.
fn behind_segments<'a>(name: &[u8], key: &'a [u8]) -> Option<&'a [u8]>
    ensures some { IfSome result (λ rest. key.now ≡ segments_key name.now ++ codes "/" ++ rest.now) }
    ensures none { IfNone result ((rest : List ℕ) → key.now ≢ segments_key name.now ++ codes "/" ++ rest) }
{
    let named = key.strip_prefix(b"lugcurrant/")?;
    let behind = named.strip_prefix(name)?;
    let rest = behind.strip_prefix(b"/segment/")?;
    Some(rest)
}

// The number of 32 bits whose ten digits these bytes are.
fn segment_of(text: &[u8]) -> Option<u32>
    ensures some { IfSome result (λ number. text.now ≡ ten_digits number) }
    ensures none { IfNone result ((number : ℕ) → number < 2 ^ 32 → text.now ≢ ten_digits number) }
{
    let number = read_ten_digits(text)?;
    if number > 4294967295 {
        return None;
    }
    Some(number as u32)
}

/// A law: different chunks of a document have different keys, while their numbers are below 10000000000.
pub fn every_chunk_key()
    ensures { EachKeyIsOneChunk }
{}
