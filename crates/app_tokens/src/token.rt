// Tokens: what they grant, or why they grant nothing.
ghost use Rattle.std.specs.Prelude.{◌≡◌, ◌≢◌, Err, IfErr, IfOk, Ok};
ghost use Rattle.serde_json.specs.View.{view};
ghost use Rattle.app_tokens.specs.Claims.{claims_in, seen_claims};
ghost use Rattle.app_tokens.specs.Parts.{seen_parts};
ghost use Rattle.app_tokens.specs.Tokens.{IsOfKey, by_claims, by_payload, by_signed, covers, seen_grant, verdict};

use crate::claims::{Claims, claims_in, is_hs256, json_in};
use crate::hmac::is_signed;
use crate::keys::Key;
use crate::parts::{Parts, parts_of};
use crate::rights::Right;
use serde_json::Value as Json;
use std::alloc::{AllocError, Global};
use thiserror::Error;

/// The most bytes of a token.
pub const MOST_TOKEN_BYTES: usize = 8192;

/// What a token grants.
#[derive(Debug, Drop)]
pub struct Grant {
    /// The user.
    pub subject: String,
    /// What the user may do.
    pub right: Right,
    /// When the grant ends, in seconds after 1970.
    pub until: u64,
}

/// Why a token grants nothing: the first case that holds.
#[derive(Clone, Copy, Debug, PartialEq, Eq, Error)]
pub enum TokenError {
    /// It has more than 8,192 bytes.
    #[error("a token has at most 8192 bytes")]
    TooLong,
    /// It doesn't have three parts.
    #[error("a token has three parts")]
    NotThreeParts,
    /// No key has signed it.
    #[error("no key has signed the token")]
    NotSigned,
    /// Its header is no JSON, names another algorithm than HS256, or demands an extension.
    #[error("the token isn't of HS256 alone")]
    OtherHeader,
    /// Its payload is no JSON, or a claim is missing or isn't of its kind.
    #[error("a claim of the token is missing, or isn't of its kind")]
    NoClaims,
    /// Its time is over.
    #[error("the token has expired")]
    Expired,
    /// It is for another document.
    #[error("the token is for another document")]
    OtherDocument,
    /// Memory ran out.
    #[error("out of memory")]
    Memory,
}

impl From<AllocError> for TokenError {
    ghost use Rattle.app_tokens.specs.declared.token.TokenError.TheVariants.{Memory};

    ghost from_gives = { λ _ e. e ≡ Memory };

    fn from(_: AllocError) -> TokenError {
        TokenError::Memory
    }
}

/// Returns what a token grants on the document of this name at this second after 1970.
///
/// The errors come in the order of [`TokenError`]. `Memory` comes only for a token that a key has signed: a stranger's takes no memory, and
/// none of its JSON is read.
pub fn right_for(
    alloc: Global,
    keys: &[Key],
    token: &[u8],
    document: &[u8],
    now: u64,
) -> Result<Grant, TokenError>
    ensures granted { IfOk result (λ grant. verdict keys.now token.now document.now now ≡ Ok (seen_grant grant)) }
    ensures refused { IfErr result (λ e. e ≢ TokenError.Memory → verdict keys.now token.now document.now now ≡ Err e) }
    ensures memory { IfErr result (λ e. e ≡ TokenError.Memory → IsOfKey keys.now token.now) }
{
    if token.len() > MOST_TOKEN_BYTES {
        return Err(TokenError::TooLong);
    }
    let Some(parts) = parts_of(token) else {
        return Err(TokenError::NotThreeParts);
    };
    if !is_signed(keys, &parts) {
        return Err(TokenError::NotSigned);
    }
    by_signed(alloc, &parts, document, now)
}

// Returns what the parts of a token grant that a key has signed.
fn by_signed(
    alloc: Global,
    parts: &Parts<'_>,
    document: &[u8],
    now: u64,
) -> Result<Grant, TokenError>
    ensures granted { IfOk result (λ grant. by_signed (seen_parts parts.now) document.now now ≡ Ok (seen_grant grant)) }
    ensures refused { IfErr result (λ e. e ≢ TokenError.Memory → by_signed (seen_parts parts.now) document.now now ≡ Err e) }
{
    if !is_hs256(alloc, parts.header)? {
        return Err(TokenError::OtherHeader);
    }
    let Some(payload) = json_in(alloc, parts.payload)? else {
        return Err(TokenError::NoClaims);
    };
    by_payload(alloc, &payload, document, now)
}

// Returns what a payload grants.
fn by_payload(alloc: Global, payload: &Json, document: &[u8], now: u64) -> Result<Grant, TokenError>
    ensures granted { IfOk result (λ grant. by_payload (claims_in (view payload.now)) document.now now ≡ Ok (seen_grant grant)) }
    ensures refused { IfErr result (λ e. e ≢ TokenError.Memory → by_payload (claims_in (view payload.now)) document.now now ≡ Err e) }
{
    match claims_in(payload) {
        Some(claims) => by_claims(alloc, &claims, document, now),
        None => Err(TokenError::NoClaims),
    }
}

// Returns what claims grant.
fn by_claims(
    alloc: Global,
    claims: &Claims<'_>,
    document: &[u8],
    now: u64,
) -> Result<Grant, TokenError>
    ensures granted { IfOk result (λ grant. by_claims (seen_claims claims.now) document.now now ≡ Ok (seen_grant grant)) }
    ensures refused { IfErr result (λ e. e ≢ TokenError.Memory → by_claims (seen_claims claims.now) document.now now ≡ Err e) }
{
    if now >= claims.until {
        return Err(TokenError::Expired);
    }
    if !covers(claims, document) {
        return Err(TokenError::OtherDocument);
    }
    Ok(Grant {
        subject: String::from_str(alloc, claims.subject)?,
        right: claims.right,
        until: claims.until,
    })
}

// Checks whether claims are for the document of this name, or for all.
fn covers(claims: &Claims<'_>, document: &[u8]) -> bool
    ensures { result ≡ covers (seen_claims claims.now) document.now }
{
    let named = claims.document.as_bytes();
    named == b"*".as_slice() || named == document
}
