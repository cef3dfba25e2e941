// Whether the fields of a request's head ask for WebSocket.
ghost use Rattle.std.specs.Prelude.{◌≡◌, length, All};
ghost use Rattle.httparse.specs.Spans.{IsHeaderWithin, header_bytes};
ghost use Rattle.net_heads.specs.Fields.{seen_fields};
ghost use Rattle.net_http.specs.Fields.{asks_upgrade, is_handshake};

use httparse::spans::HeaderSpan;
use net_heads::{Fields, is_same_word};

/// Checks whether a field asks for WebSocket.
pub(crate) fn is_handshake(fields: &Fields<'_>) -> bool
    requires { All (IsHeaderWithin (length fields.now.bytes.now)) fields.now.spans.now }
    ensures { result ≡ is_handshake (seen_fields fields.now) }
{
    for span in fields.spans {
        if asks_upgrade(fields, span) {
            return true;
        }
    }
    false
}

// Checks whether the field that stands there asks for WebSocket.
fn asks_upgrade(fields: &Fields<'_>, span: &HeaderSpan) -> bool
    requires { IsHeaderWithin (length fields.now.bytes.now) span.now }
    ensures { result ≡ asks_upgrade (header_bytes fields.now.bytes.now span.now) }
{
    let name = span.name.of(fields.bytes);
    let value = span.value.of(fields.bytes);
    is_same_word(name, b"upgrade") && is_same_word(value, b"websocket")
}
