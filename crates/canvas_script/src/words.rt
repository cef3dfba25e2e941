// The words of a line, and what they spell.
ghost use Rattle.std.specs.Prelude.{◌≡◌, ◌<◌, ◌↔◌, IfErr, IfOk, IsTrue, length, slice_index};
ghost use Rattle.canvas_lines.specs.Errors.{IsLineError};
ghost use Rattle.canvas_script.specs.Words.{SpellsCount, SpellsNode};

use crate::names::is_node_name;
use canvas_lines::LineError;

/// The most that a number of a line is.
const MAX_COUNT: u64 = 1 << 62;

/// The most digits that such a number has.
const MAX_DIGITS: usize = 19;

// The number from 0 to 2^62 that is written as these decimal digits, without a sign or leading zeros.
pub(crate) fn read_count(word: &[u8]) -> Result<u64, LineError>
    ensures ok { IfOk result (SpellsCount word.now) }
    ensures err { IfErr result (IsLineError (SpellsCount word.now)) }
{
    if word.is_empty() {
        return Err(LineError::Unreadable);
    }
    if word.len() > MAX_DIGITS {
        return Err(LineError::Unreadable);
    }
    if has_leading_zero(word) {
        return Err(LineError::Unreadable);
    }
    let mut value = 0u64;
    for byte in word {
        if *byte < b'0' {
            return Err(LineError::Unreadable);
        }
        if *byte > b'9' {
            return Err(LineError::Unreadable);
        }
        value = value * 10 + u64::from(*byte - b'0');
    }
    if value > MAX_COUNT {
        return Err(LineError::Unreadable);
    }
    Ok(value)
}

// Checks whether a zero stands before other digits.
fn has_leading_zero(word: &[u8]) -> bool
    ensures { IsTrue result ↔ ((slice_index word.now 0 ≡ 48) × (1 < length word.now)) }
{
    word.len() > 1 && word[0] == b'0'
}

// The word as a node's name.
pub(crate) fn read_node(word: &[u8]) -> Result<&[u8], LineError>
    ensures ok { IfOk result (λ name. SpellsNode word.now name.now) }
    ensures err { IfErr result (IsLineError (SpellsNode word.now)) }
{
    if is_node_name(word) {
        Ok(word)
    } else {
        Err(LineError::Unreadable)
    }
}
