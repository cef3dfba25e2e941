// What a site is.
ghost use Rattle.std.specs.Prelude.{◌≡◌, ◌↔◌, IsTrue, string_bytes};
ghost use Rattle.std.specs.List.{list_all};
ghost use Rattle.net_http.specs.Identities.{IsIdentity, is_hex_digit};

/// A site: the server of one document, as its port sees it.
#[derive(Debug, Drop)]
pub struct Site {
    /// The hosts that are its own beside `localhost`, `127.0.0.1` and `[::1]`, each as a browser sends it: `example.org`, with its port or
    /// without.
    pub hosts: Vec<String>,
    /// The origins of pages that may connect beside those of the host that was asked, each as a browser sends it:
    /// `https://example.org`.
    pub origins: Vec<String>,
    /// Which document it is: 32 hex digits in lower case.
    pub identity: String,
    /// Whether it has a page.
    pub has_page: bool,
    pub ghost identified: { IsIdentity (string_bytes identity) },
}

/// Checks whether this text may be a document's identity: 32 hex digits in lower case.
pub fn is_identity(text: &[u8]) -> bool
    ensures { IsTrue result ↔ IsIdentity text.now }
{
    text.len() == 32 && are_hex_digits(text)
}

// Checks whether each byte is a hex digit in lower case.
fn are_hex_digits(text: &[u8]) -> bool
    ensures { result ≡ list_all is_hex_digit text.now }
{
    text.iter().all(|b| is_hex_digit(*b))
}

// Checks whether the byte is a hex digit in lower case.
fn is_hex_digit(b: u8) -> bool
    ensures { result ≡ is_hex_digit b }
{
    matches!(b, b'0'..=b'9' | b'a'..=b'f')
}
