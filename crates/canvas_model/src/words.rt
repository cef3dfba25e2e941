//! How bytes are cut at a separator, and how a number is read.

ghost use Rattle.std.specs.Prelude.{◌≡◌, ℕ, ◌<◌, ◌^◌, ◌↔◌, length, slice_index, IfSome, IfNone};
ghost use Rattle.std.specs.Prelude.{IsTrue};
ghost use Rattle.std.specs.Fmt.{decimal};
ghost use Rattle.canvas_model.specs.declared.ObjId.{ObjId};
ghost use Rattle.canvas_model.specs.Ids.{IsId};
ghost use Rattle.canvas_model.specs.Text.{id_text};
ghost use Rattle.canvas_model.specs.Words.{IsCut, Lacks};

use crate::ObjId;

/// What stands before the first byte that is the separator, and what follows it. `None` where no byte
/// is.
pub fn cut(bytes: &[u8], separator: u8) -> Option<(&[u8], &[u8])>
    ensures parts { IfSome result (λ r. IsCut separator bytes.now r.0.now r.1.now) }
    ensures none { IfNone result (Lacks separator bytes.now) }
{
    for (at, byte) in bytes.iter().enumerate() {
        if *byte == separator {
            return Some((&bytes[..at], &bytes[at + 1..]));
        }
    }
    None
}

/// The number of 32 bits that is written as these decimal digits, without a sign or leading zeros.
pub fn read_number(bytes: &[u8]) -> Option<u32>
    ensures some { IfSome result (λ n. bytes.now ≡ decimal n) }
    ensures none { IfNone result ((n : ℕ) → n < 2 ^ 32 → bytes.now ≡ decimal n → ⊥) }
{
    if bytes.is_empty() {
        return None;
    }
    if bytes.len() > 10 {
        return None;
    }
    if has_leading_zero(bytes) {
        return None;
    }
    let mut value = 0u64;
    for byte in bytes {
        if *byte < b'0' {
            return None;
        }
        if *byte > b'9' {
            return None;
        }
        value = value * 10 + u64::from(*byte - b'0');
    }
    match u32::try_from(value) {
        Ok(value) => Some(value),
        Err(_) => None,
    }
}

// Checks whether a zero stands before other digits.
fn has_leading_zero(bytes: &[u8]) -> bool
    requires { 0 < length bytes.now }
    ensures { IsTrue result ↔ ((slice_index bytes.now 0 ≡ 48) × (1 < length bytes.now)) }
{
    bytes[0] == b'0' && bytes.len() > 1
}

// The id that is written as these bytes.
pub(crate) fn read_id(bytes: &[u8]) -> Option<ObjId>
    ensures some { IfSome result (λ id. IsId id × (bytes.now ≡ id_text id)) }
    ensures none { IfNone result ((id : ObjId) → IsId id → bytes.now ≡ id_text id → ⊥) }
{
    let (client, counter) = cut(bytes, b':')?;
    let client = read_number(client)?;
    let counter = read_number(counter)?;
    Some(ObjId { client, counter })
}
