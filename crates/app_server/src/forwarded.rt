// The address of a client that a proxy names.
ghost use Rattle.std.specs.Prelude.{◌≡◌, ◌↔◌, IfSome, IsTrue, string_bytes};
ghost use Rattle.std.specs.List.{list_all};
ghost use Rattle.app_server.specs.Addresses.{IsAddress, is_address_byte};

use http::HeaderMap;
use std::alloc::Global;

// The most bytes of an address.
const MOST_ADDRESS_BYTES: usize = 64;

/// Returns the address that a proxy names: the last one of the last field `X-Forwarded-For`. `None` if there is none, if it isn't written as
/// an address, or if memory runs out.
pub(crate) fn forwarded_by(alloc: Global, headers: &HeaderMap) -> Option<String>
    ensures { IfSome result (λ address. IsAddress (string_bytes address)) }
{
    let field = headers.get_all("x-forwarded-for").iter().last()?;
    let Ok(text) = field.to_str() else {
        return None;
    };
    let address = last_in(text);
    if !is_address(address.as_bytes()) {
        return None;
    }
    String::from_str(alloc, address).ok()
}

// Returns the last element of a list with commas, without the spaces around it.
fn last_in(list: &str) -> &str {
    let last = match list.rsplit_once(',') {
        Some((_, last)) => last,
        None => list,
    };
    last.trim_ascii()
}

// Checks whether a text is written as an address, maybe with a port. It has no space and no line feed then.
fn is_address(text: &[u8]) -> bool
    ensures { IsTrue result ↔ IsAddress text.now }
{
    !text.is_empty() && text.len() <= MOST_ADDRESS_BYTES && are_address_bytes(text)
}

// Checks whether each byte may be in an address.
fn are_address_bytes(text: &[u8]) -> bool
    ensures { result ≡ list_all is_address_byte text.now }
{
    text.iter().all(|b| is_address_byte(*b))
}

// Checks whether the byte may be in an address.
fn is_address_byte(b: u8) -> bool
    ensures { result ≡ is_address_byte b }
{
    b.is_ascii_alphanumeric() || matches!(b, b'-' | b'.' | b':' | b'[' | b']' | b'_')
}
