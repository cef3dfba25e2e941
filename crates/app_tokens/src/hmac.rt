// HMAC (RFC 2104) over SHA-256, as HS256 of RFC 7518 asks for it.
ghost use Rattle.std.specs.Prelude.{◌≡◌, ◌↔◌, ◌++◌, IsTrue, codes};
ghost use Rattle.std.specs.List.{list_any};
ghost use Rattle.sha2.specs.Sha256.{sha256};
ghost use Rattle.app_tokens.specs.Hmac.{hmac, mixed, signature};
ghost use Rattle.app_tokens.specs.Parts.{seen_parts};
ghost use Rattle.app_tokens.specs.Tokens.{is_signed, signed_text};

use crate::keys::Key;
use crate::parts::Parts;
use base64::engine::general_purpose::URL_SAFE_NO_PAD;
use sha2::{Digest, Sha256};

/// Checks whether one of the keys has signed a token of these parts. Each key is tried, and each byte of a code is looked at, so the branches
/// that are taken depend on no key and on no code.
pub(crate) fn is_signed(keys: &[Key], parts: &Parts<'_>) -> bool
    ensures { result ≡ is_signed keys.now (seen_parts parts.now) }
{
    let mut is_signed = false;
    for key in keys {
        is_signed |= is_same_code(&signature_of(key, parts), parts.code);
    }
    is_signed
}

// Returns the code of a token's first two parts under a key, in base64url without padding.
fn signature_of(key: &Key, parts: &Parts<'_>) -> [u8; 43]
    ensures { result ≡ signature key.now (signed_text (seen_parts parts.now)) }
{
    let code = code_of(key.digits(), parts);
    let mut text = [0; 43];
    match URL_SAFE_NO_PAD.encode_slice(&code, &mut text) {
        Ok(_) => text,
        Err(_) => unreachable!(),
    }
}

// Returns the code of a token's first two parts under a key.
fn code_of(key: &[u8; 64], parts: &Parts<'_>) -> [u8; 32]
    ensures { result ≡ hmac key.now (signed_text (seen_parts parts.now)) }
{
    outer_digest(key, &inner_digest(key, parts))
}

// Returns the digest of a key, mixed for the inner one, and of a token's first two parts.
fn inner_digest(key: &[u8; 64], parts: &Parts<'_>) -> [u8; 32]
    ensures { result ≡ sha256 (mixed 0x36 key.now ++ signed_text (seen_parts parts.now)) }
{
    let mut inner = Sha256::new();
    inner.update(&mixed(key, 0x36));
    inner.update(parts.header);
    inner.update(b".");
    inner.update(parts.payload);
    inner.finalize()
}

// Returns the digest of a key, mixed for the outer one, and of the inner digest.
fn outer_digest(key: &[u8; 64], inner: &[u8; 32]) -> [u8; 32]
    ensures { result ≡ sha256 (mixed 0x5c key.now ++ inner.now) }
{
    let mut outer = Sha256::new();
    outer.update(&mixed(key, 0x5c));
    outer.update(inner);
    outer.finalize()
}

// Returns a block with each byte mixed with this one.
fn mixed(block: &[u8; 64], pad: u8) -> [u8; 64]
    ensures { result ≡ mixed pad block.now }
{
    let mut mixed = [0; 64];
    for i in 0..64 {
        mixed[i] = block[i] ^ pad;
    }
    mixed
}

// Checks whether a text is this code. It looks at each byte of a text of that length, whatever the ones before were.
#[tactic(auto, using(crate::proofs::Codes::one_more))]
fn is_same_code(code: &[u8; 43], text: &[u8]) -> bool
    ensures { IsTrue result ↔ (code.now ≡ text.now) }
{
    if text.len() != 43 {
        return false;
    }
    let mut differing = 0;
    for i in 0..43 {
        differing |= code[i] ^ text[i];
    }
    differing == 0
}
