// The text that names connections: their numbers, one a line.
ghost use Rattle.std.specs.Prelude.{◌≡◌, IfOk, string_bytes};
ghost use Rattle.app_server.specs.Kicks.{kick_text};

use std::alloc::{AllocError, Global};
use std::collections::BTreeSet;

/// The most bytes that it may have.
pub(crate) const MOST_KICK_BYTES: u64 = 64 * 1024;

/// Returns the text that names these connections. Errors: out of memory.
pub fn kick_text(alloc: Global, numbers: &[u64]) -> Result<String, AllocError>
    ensures { IfOk result (λ text. string_bytes text ≡ kick_text numbers.now) }
{
    let mut text = String::new(alloc);
    for number in numbers {
        write!(text, "{number}\n")?;
    }
    Ok(text)
}

/// Returns the numbers of the connections that a text names; `None` if it names none, or has something else. Each has a line feed after it:
/// a text that is cut short names none. Errors: out of memory.
pub(crate) fn numbers_in(alloc: Global, text: &[u8]) -> Result<Option<BTreeSet<u64>>, AllocError> {
    let mut numbers = BTreeSet::new(alloc);
    let Ok(text) = str::from_utf8(text) else {
        return Ok(None);
    };
    let Some(lines) = text.strip_suffix('\n') else {
        return Ok(None);
    };
    for line in lines.split('\n') {
        let Ok(number) = line.parse::<u64>() else {
            return Ok(None);
        };
        numbers.insert(number)?;
    }
    Ok(Some(numbers))
}
