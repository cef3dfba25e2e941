// The lines of sums.
ghost use Rattle.std.specs.Prelude.{◌≡◌, ◌<◌, ◌^◌, ◌++◌, ◌∷◌, ℕ, List, MatchOption};
ghost use Rattle.std.specs.Fmt.{decimal};
ghost use Rattle.disk_integrity.specs.Lines.{HasNoEnd, Names};

use itoa::Buffer;
use std::str;

// The first line, without its end, and what stands after it. None where no line ends.
pub(crate) fn first_line(bytes: &[u8]) -> Option<(&[u8], &[u8])>
    ensures { MatchOption result (HasNoEnd bytes.now) (λ p. (bytes.now ≡ p.0.now ++ 10 ∷ p.1.now) × HasNoEnd p.0.now) }
{
    let end = bytes.iter().position(|byte| *byte == b'\n')?;
    Some((&bytes[..end], &bytes[end + 1..]))
}

// The number of which this is the decimal text.
fn number_of(text: &[u8]) -> Option<usize>
    ensures { MatchOption result ((n : ℕ) → n < 2 ^ 64 → text.now ≡ decimal n → ⊥) (λ n. text.now ≡ decimal n) }
{
    let Ok(digits) = str::from_utf8(text) else {
        return None;
    };
    let Ok(number) = digits.parse::<usize>() else {
        return None;
    };
    let mut buffer = Buffer::new();
    if buffer.format(number).as_bytes() == text {
        Some(number)
    } else {
        None
    }
}

// The length that a line names, and the 64 bytes after it.
pub(crate) fn named(line: &[u8]) -> Option<(usize, &[u8])>
    ensures { MatchOption result ((n : ℕ) (digest : List ℕ) → Names line.now n digest → ⊥) (λ p. Names line.now p.0 p.1.now) }
{
    let size = line.len().checked_sub(65)?;
    let (front, behind) = line.split_at(size);
    let [b' ', digest @ ..] = behind else {
        return None;
    };
    let number = number_of(front)?;
    Some((number, digest))
}
