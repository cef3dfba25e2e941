// What an origin is.
ghost use Rattle.std.specs.Prelude.{◌≡◌, ◌↔◌, ◌&&◌, IsTrue, codes, drop, nat_eq, not};
ghost use Rattle.std.specs.List.{list_all, position, starts_with};
ghost use Rattle.net_http.specs.Origins.{IsOrigin, IsSchemeAndHost, is_host_byte, is_scheme_byte, is_small};

/// Checks whether this text is an origin as browsers send it (RFC 6454, "The Web Origin Concept", section 6.2): `null`, or a scheme, `://`
/// and a host, which its port may follow behind a colon. Its letters are small, and nothing stands after it, not even a slash.
pub fn is_origin(text: &[u8]) -> bool
    ensures { IsTrue result ↔ IsOrigin text.now }
{
    text == b"null".as_slice() || is_scheme_and_host(text)
}

// Checks whether this is a scheme, `://` and a host.
fn is_scheme_and_host(text: &[u8]) -> bool
    ensures { IsTrue result ↔ IsSchemeAndHost text.now }
{
    match scheme_end(text) {
        Some(end) => end > 0 && is_host_behind(&text[end..]),
        None => false,
    }
}

// Where the first byte stands that may not stand in a scheme.
fn scheme_end(text: &[u8]) -> Option<usize>
    ensures { result ≡ position (λ b. not (is_scheme_byte b)) text.now }
{
    text.iter().position(|b| !is_scheme_byte(*b))
}

// Checks whether this is `://` and a host.
fn is_host_behind(text: &[u8]) -> bool
    ensures { result ≡ (starts_with nat_eq text.now (codes "://") && list_all is_host_byte (drop 3 text.now)) }
{
    text.starts_with(b"://") && are_host_bytes(&text[3..])
}

/// Checks whether each byte may stand in a host and its port.
pub(crate) fn are_host_bytes(text: &[u8]) -> bool
    ensures { result ≡ list_all is_host_byte text.now }
{
    text.iter().all(|b| is_host_byte(*b))
}

// Checks whether the byte may stand in a scheme.
fn is_scheme_byte(b: u8) -> bool
    ensures { result ≡ is_scheme_byte b }
{
    is_small(b) || matches!(b, b'+' | b'-' | b'.')
}

// Checks whether the byte may stand in a host and its port.
fn is_host_byte(b: u8) -> bool
    ensures { result ≡ is_host_byte b }
{
    is_small(b) || matches!(b, b'-' | b'.' | b':' | b'[' | b']' | b'_')
}

// Checks whether the byte is a small letter or a digit.
fn is_small(b: u8) -> bool
    ensures { result ≡ is_small b }
{
    matches!(b, b'a'..=b'z' | b'0'..=b'9')
}
