// What a handshake offers.
ghost use Rattle.std.specs.Prelude.{◌≡◌, ◌||◌, ◌==◌, length, All, codes};
ghost use Rattle.std.specs.List.{list_all};
ghost use Rattle.httparse.specs.Spans.{IsHeaderWithin};
ghost use Rattle.net_heads.specs.Fields.{seen_fields, values_named};
ghost use Rattle.net_http.specs.Offers.{has_upgrade, is_gap, is_key, is_key_end, is_offer, is_one, is_symbol, is_websocket, offered};

use crate::asked::{Endpoint, HttpRefusal};
use crate::routes::is_equal;
use net_heads::{Fields, Values, is_same_word};

/// What a handshake of HTTP/1.`minor` with these fields gets where its page may connect.
pub(crate) fn offered(minor: u8, fields: &Fields<'_>) -> Endpoint
    requires { All (IsHeaderWithin (length fields.now.bytes.now)) fields.now.spans.now }
    ensures { result ≡ offered minor (seen_fields fields.now) }
{
    let Values::One(version) = fields.find(b"sec-websocket-version") else {
        return Endpoint::Refused(HttpRefusal::BadRequest);
    };
    if !is_equal(version, b"13") {
        return Endpoint::Refused(HttpRefusal::OtherVersion);
    }
    if !is_offer(minor, fields) {
        return Endpoint::Refused(HttpRefusal::BadRequest);
    }
    Endpoint::Connection
}

// Checks whether all but the version is offered.
fn is_offer(minor: u8, fields: &Fields<'_>) -> bool
    requires { All (IsHeaderWithin (length fields.now.bytes.now)) fields.now.spans.now }
    ensures { result ≡ is_offer minor (seen_fields fields.now) }
{
    minor == 1 && asks_websocket(fields) && asks_upgrade(fields) && has_key(fields)
}

// Checks whether one field asks for WebSocket.
fn asks_websocket(fields: &Fields<'_>) -> bool
    requires { All (IsHeaderWithin (length fields.now.bytes.now)) fields.now.spans.now }
    ensures { result ≡ is_one is_websocket (values_named (codes "upgrade") (seen_fields fields.now)) }
{
    match fields.find(b"upgrade") {
        Values::One(value) => is_same_word(value, b"websocket"),
        Values::Nothing | Values::Several => false,
    }
}

// Checks whether one field asks for another protocol on this connection.
fn asks_upgrade(fields: &Fields<'_>) -> bool
    requires { All (IsHeaderWithin (length fields.now.bytes.now)) fields.now.spans.now }
    ensures { result ≡ is_one has_upgrade (values_named (codes "connection") (seen_fields fields.now)) }
{
    match fields.find(b"connection") {
        Values::One(words) => has_upgrade(words),
        Values::Nothing | Values::Several => false,
    }
}

// Checks whether one field has a key.
fn has_key(fields: &Fields<'_>) -> bool
    requires { All (IsHeaderWithin (length fields.now.bytes.now)) fields.now.spans.now }
    ensures { result ≡ is_one is_key (values_named (codes "sec-websocket-key") (seen_fields fields.now)) }
{
    match fields.find(b"sec-websocket-key") {
        Values::One(key) => is_key(key),
        Values::Nothing => false,
        Values::Several => false,
    }
}

// Checks whether one of the words between spaces and commas is `upgrade`.
fn has_upgrade(words: &[u8]) -> bool
    ensures { result ≡ has_upgrade words.now }
{
    words
        .split(|b| is_gap(*b))
        .any(|word| is_same_word(word, b"upgrade"))
}

// Checks whether the byte is a space or a comma.
fn is_gap(b: u8) -> bool
    ensures { result ≡ is_gap b }
{
    matches!(b, b' ' | b',')
}

// Checks whether the key is 16 bytes in base64.
fn is_key(key: &[u8]) -> bool
    ensures { result ≡ is_key key.now }
{
    if key.len() != 24 {
        return false;
    }
    let (symbols, end) = key.split_at(21);
    are_symbols(symbols) && is_key_end(end)
}

// Checks whether each byte is a symbol of base64.
fn are_symbols(text: &[u8]) -> bool
    ensures { result ≡ list_all is_symbol text.now }
{
    text.iter().all(|b| is_symbol(*b))
}

// Checks whether the byte is a symbol of base64.
fn is_symbol(b: u8) -> bool
    ensures { result ≡ is_symbol b }
{
    matches!(b, b'A'..=b'Z' | b'a'..=b'z' | b'0'..=b'9' | b'+' | b'/')
}

// Checks whether these are the last bytes of a key: a symbol of two bits, and two equals signs.
fn is_key_end(end: &[u8]) -> bool
    ensures { result ≡ is_key_end end.now }
{
    is_equal(end, b"A==") || is_equal(end, b"Q==") || is_equal(end, b"g==") || is_equal(end, b"w==")
}
