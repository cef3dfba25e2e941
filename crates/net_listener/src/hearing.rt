// What the bytes that have come of a head say.
ghost use Rattle.std.specs.Prelude.{◌≡◌, ◌++◌, ◌<◌, ℕ, List, Some, IfNone, IfSome, length};
ghost use Rattle.httparse.specs.Grammar.{HasNoRequest, MayBecomeRequest, RequestHead};
ghost use Rattle.net_http.specs.Heads.{Begins, request_of};
ghost use Rattle.net_http.specs.Sites.{seen_site};
ghost use Rattle.net_listener.specs.Hearing.{IsRequestIn};

use net_http::{Endpoint, HttpRefusal, HttpRequest, Site, read_head};

/// The most bytes that a head may have: 8 KiB.
pub const MOST_HEAD_BYTES: usize = 8 << 10;

/// Returns the request that these bytes begin with, however they came in pieces. Bytes that begin no request, or whose head isn't whole within
/// `MOST_HEAD_BYTES`, are a bad request. `None` if more bytes may make the head whole.
pub fn request_in(site: &Site, bytes: &[u8]) -> Option<HttpRequest>
    // Once the head is whole it is decided, whatever comes after it.
    ensures whole { (head : RequestHead) (piece more : List ℕ) → bytes.now ≡ piece ++ more → Begins piece head → result ≡ Some (request_of (seen_site site.now) head) }
    ensures some { IfSome result (IsRequestIn (seen_site site.now) bytes.now) }
    ensures none { IfNone result (HasNoRequest bytes.now × MayBecomeRequest bytes.now × (length bytes.now < MOST_HEAD_BYTES)) }
{
    match read_head(site, bytes) {
        Ok(Some(request)) => Some(request),
        Ok(None) if bytes.len() < MOST_HEAD_BYTES => None,
        Ok(None) | Err(_) => Some(HttpRequest {
            asked: Endpoint::Refused(HttpRefusal::BadRequest),
            wants_body: true,
            length: bytes.len(),
        }),
    }
}
