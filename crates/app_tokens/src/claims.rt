// What a token says.
ghost use Rattle.std.specs.Prelude.{◌≡◌, IfOk, codes, option_and_then, option_map};
ghost use Rattle.std.specs.List.{list_all};
ghost use Rattle.serde_json.specs.View.{view};
ghost use Rattle.app_tokens.specs.Claims.{claims_in, is_hs256, is_subject, is_visible, json_in, json_of, names_hs256, number_at, right_named, seen_claims, subject_of, text_at};

use crate::rights::Right;
use base64::DecodeAllocError;
use base64::engine::general_purpose::URL_SAFE_NO_PAD;
use serde_json::Value as Json;
use std::alloc::{AllocError, Global};

/// What a payload claims.
#[derive(Clone, Copy)]
pub(crate) struct Claims<'a> {
    /// The name of the document, or `*` for all.
    pub(crate) document: &'a str,
    /// The user.
    pub(crate) subject: &'a str,
    /// What the user may do.
    pub(crate) right: Right,
    /// When the token ends, in seconds after 1970.
    pub(crate) until: u64,
}

/// Returns the JSON of a part of a token, if it is some. Errors: out of memory.
pub(crate) fn json_in(alloc: Global, part: &[u8]) -> Result<Option<Json>, AllocError>
    ensures { IfOk result (λ json. option_map view json ≡ json_in part.now) }
{
    match URL_SAFE_NO_PAD.decode(alloc, part) {
        Ok(bytes) => json_of(alloc, &bytes),
        Err(DecodeAllocError::OutOfMemory) => Err(AllocError),
        Err(DecodeAllocError::DecodeError(_)) => Ok(None),
    }
}

// Returns the JSON that bytes are, if they are some.
fn json_of(alloc: Global, bytes: &[u8]) -> Result<Option<Json>, AllocError>
    ensures { IfOk result (λ json. option_map view json ≡ json_of bytes.now) }
{
    match Json::from_slice(alloc, bytes) {
        Ok(json) => Ok(Some(json)),
        Err(e) => if e.is_memory() {
            Err(AllocError)
        } else {
            Ok(None)
        },
    }
}

/// Checks whether a token's header names HS256, and demands no extension. Errors: out of memory.
pub(crate) fn is_hs256(alloc: Global, header: &[u8]) -> Result<bool, AllocError>
    ensures { IfOk result (λ is. is ≡ is_hs256 (json_in header.now)) }
{
    match json_in(alloc, header)? {
        Some(header) => Ok(names_hs256(&header)),
        None => Ok(false),
    }
}

// Checks whether a header names HS256, and demands no extension.
fn names_hs256(header: &Json) -> bool
    ensures { result ≡ names_hs256 (view header.now) }
{
    match text_at(header, "alg") {
        Some(algorithm) => algorithm == "HS256" && header.get("crit").is_none(),
        None => false,
    }
}

/// Returns the claims of a payload, if each is there and is of its kind.
pub(crate) fn claims_in(payload: &Json) -> Option<Claims<'_>>
    ensures { option_map seen_claims result ≡ claims_in (view payload.now) }
{
    let document = text_at(payload, "doc")?;
    let subject = text_at(payload, "sub")?;
    if !is_subject(subject.as_bytes()) {
        return None;
    }
    let right = right_named(text_at(payload, "right")?)?;
    let until = number_at(payload, "exp")?;
    Some(Claims {
        document,
        subject,
        right,
        until,
    })
}

// Returns the text under this name.
fn text_at<'a>(json: &'a Json, name: &str) -> Option<&'a str>
    ensures { option_map (λ text. text.now) result ≡ text_at name.now (view json.now) }
{
    json.get(name)?.as_str()
}

// Returns the whole number under this name.
fn number_at(json: &Json, name: &str) -> Option<u64>
    ensures { result ≡ number_at name.now (view json.now) }
{
    json.get(name)?.as_u64()
}

// Returns the right of this name.
fn right_named(name: &str) -> Option<Right>
    ensures { result ≡ right_named name.now }
{
    match name {
        "read" => Some(Right::Read),
        "edit" => Some(Right::Edit),
        "admin" => Some(Right::Admin),
        _ => None,
    }
}

// Checks whether this may be a user's name: 1 to 128 printable bytes without spaces. So it fits into a line.
fn is_subject(text: &[u8]) -> bool
    ensures { result ≡ is_subject text.now }
{
    !text.is_empty() && text.len() <= 128 && are_visible(text)
}

// Checks whether each byte is printable, and no space.
fn are_visible(text: &[u8]) -> bool
    ensures { result ≡ list_all is_visible text.now }
{
    text.iter().all(|b| is_visible(*b))
}

// Checks whether the byte is printable, and no space.
fn is_visible(b: u8) -> bool
    ensures { result ≡ is_visible b }
{
    matches!(b, b'!'..=b'~')
}
