// The parts of a token.
ghost use Rattle.std.specs.Prelude.{◌≡◌, ◌<◌, IfSome, length, option_map};
ghost use Rattle.std.specs.List.{position};
ghost use Rattle.app_tokens.specs.Parts.{cut, is_one_of, parts_of, seen_parts};

/// The three parts of a token, each in base64url.
#[derive(Clone, Copy)]
pub(crate) struct Parts<'a> {
    /// What it is signed by, as JSON.
    pub(crate) header: &'a [u8],
    /// What it claims, as JSON.
    pub(crate) payload: &'a [u8],
    /// The code of the two.
    pub(crate) code: &'a [u8],
}

/// Returns the three parts of a token, if it has exactly two dots.
pub(crate) fn parts_of(token: &[u8]) -> Option<Parts<'_>>
    ensures { option_map seen_parts result ≡ parts_of token.now }
{
    let (header, rest) = cut(token, b".")?;
    let (payload, code) = cut(rest, b".")?;
    if cut(code, b".").is_some() {
        return None;
    }
    Some(Parts {
        header,
        payload,
        code,
    })
}

/// Returns what comes before the first of these bytes, and what comes after it.
pub(crate) fn cut<'a>(text: &'a [u8], gaps: &[u8]) -> Option<(&'a [u8], &'a [u8])>
    ensures cut { option_map (λ parts. (parts.0.now, parts.1.now)) result ≡ cut gaps.now text.now }
    ensures shorter { IfSome result (λ parts. length parts.1.now < length text.now) }
{
    match first_of(text, gaps) {
        Some(at) => Some((&text[..at], &text[at + 1..])),
        None => None,
    }
}

// Returns the place of the first of these bytes.
fn first_of(text: &[u8], gaps: &[u8]) -> Option<usize>
    ensures { result ≡ position (is_one_of gaps.now) text.now }
{
    text.iter().position(|b| is_one_of(gaps, *b))
}

// Checks whether the byte is one of these.
fn is_one_of(gaps: &[u8], byte: u8) -> bool
    ensures { result ≡ is_one_of gaps.now byte }
{
    gaps.iter().any(|gap| *gap == byte)
}
