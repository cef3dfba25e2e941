// The head of a request, read.
ghost use Rattle.std.specs.Prelude.{◌≡◌, IfNone, IfOk, IfSome};
ghost use Rattle.httparse.specs.Grammar.{HasNoRequest, MayBecomeRequest, NeverHasRequest, RequestHead};
ghost use Rattle.httparse.specs.Spans.{IsRequestAt, IsRequestWithin, RequestExceeds, RequestOverflows};
ghost use Rattle.net_http.specs.Heads.{Begins, request_of};
ghost use Rattle.net_http.specs.Sites.{seen_site};

use crate::asked::Endpoint;
use crate::routes::{asked, is_equal};
use crate::site::Site;
use httparse::spans::{EMPTY_HEADER_SPAN, HeaderSpan, RequestSpans, parse_request};
use httparse::{Error as ParseError, Status as Parsed};
use net_heads::Fields;
use thiserror::Error;

/// The most fields that a request's head may have.
pub const MAX_FIELDS: usize = 64;

/// What a request is, by its head.
#[derive(Clone, Copy, Debug, PartialEq, Eq)]
pub struct HttpRequest {
    /// What it asks for.
    pub asked: Endpoint,
    /// Whether the answer has a body: that of HEAD has none.
    pub wants_body: bool,
    /// The head's length in bytes.
    pub length: usize,
}

/// Why bytes are no request that is answered. Both are answered by 400.
#[derive(Clone, Copy, Debug, PartialEq, Eq, Error)]
pub enum HeadError {
    /// No request begins so, whatever bytes follow.
    #[error("no request begins so")]
    NotRead,
    /// The head has more than 64 fields.
    #[error("too many fields")]
    TooManyFields,
}

// The request of a head that stands at these places.
fn request_at(site: &Site, bytes: &[u8], head: &RequestSpans, spans: &[HeaderSpan]) -> HttpRequest
    requires { IsRequestWithin bytes.now spans.now head.now }
    ensures { (said : RequestHead) → IsRequestAt bytes.now spans.now head.now said → result ≡ request_of (seen_site site.now) said }
{
    let method = head.method.of(bytes);
    let fields = Fields {
        bytes,
        spans: &spans[..head.headers],
    };
    HttpRequest {
        asked: asked(site, head.version, method, head.path.of(bytes), &fields),
        wants_body: !is_equal(method, b"HEAD"),
        length: head.len,
    }
}

/// What the request is whose head these bytes begin with. `None` where the head isn't whole yet.
pub fn read_head(site: &Site, bytes: &[u8]) -> Result<Option<HttpRequest>, HeadError>
    // A request is found exactly if the bytes begin with a head of at most 64 fields, and it is what the table says of that head.
    ensures found { (head : RequestHead) → Begins bytes.now head → result ≡ Ok (Some (request_of (seen_site site.now) head)) }
    ensures some { IfOk result (λ found. IfSome found (λ request. (head : RequestHead) × Begins bytes.now head × (request ≡ request_of (seen_site site.now) head))) }

    // No head is whole, and more bytes may make a request.
    ensures none { IfOk result (λ found. IfNone found (HasNoRequest bytes.now)) }
    ensures unfinished { IfOk result (λ found. IfNone found (MayBecomeRequest bytes.now)) }

    // No bytes make a request of at most 64 fields.
    ensures not_read { result ≡ Err HeadError.NotRead → NeverHasRequest bytes.now }
    ensures too_many { result ≡ Err HeadError.TooManyFields → RequestExceeds MAX_FIELDS bytes.now }
    ensures no_room { result ≡ Err HeadError.TooManyFields → RequestOverflows MAX_FIELDS bytes.now }
{
    let mut spans = [EMPTY_HEADER_SPAN; MAX_FIELDS];
    match parse_request(bytes, &mut spans) {
        Ok(Parsed::Complete(head)) => Ok(Some(request_at(site, bytes, &head, &spans))),
        Ok(Parsed::Partial) => Ok(None),
        Err(ParseError::TooManyHeaders) => Err(HeadError::TooManyFields),
        Err(_) => Err(HeadError::NotRead),
    }
}
