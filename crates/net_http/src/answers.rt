// The bytes of answers.
ghost use Rattle.std.specs.Prelude.{◌≡◌, [], IfOk, string_bytes};
ghost use Rattle.httparse.specs.Grammar.{ReadsResponse};
ghost use Rattle.net_http.specs.Answers.{answer_text, answer_head_text, sentence_text};
ghost use Rattle.net_http.specs.Responses.{response_of};
ghost use Rattle.net_http.specs.Sites.{seen_site};

use crate::site::Site;
use crate::texts::{ContentType, Status};
use std::alloc::{AllocError, Global};

/// The head of an answer of this status, whose body is of this type and length in bytes. The connection ends with the answer.
///
/// Errors: out of memory.
pub fn write_head(
    alloc: Global,
    site: &Site,
    status: Status,
    kind: ContentType,
    length: usize,
) -> Result<Vec<u8>, AllocError>
    ensures text { IfOk result (λ head. head.items ≡ answer_head_text (seen_site site.now) status kind length) }

    // A head of HTTP's grammar, with this status and these fields.
    ensures response { IfOk result (λ head. ReadsResponse head.items (response_of (seen_site site.now) status kind length) []) }
{
    let text = head_text(alloc, site, status, kind, length)?;
    Ok(text.into_bytes())
}

// The head of an answer, as text.
fn head_text(
    alloc: Global,
    site: &Site,
    status: Status,
    kind: ContentType,
    length: usize,
) -> Result<String, AllocError>
    ensures { IfOk result (λ head. string_bytes head ≡ answer_head_text (seen_site site.now) status kind length) }
{
    let reason = status.reason();
    let kind = kind.value();
    let identity = site.identity.as_str();
    let fields = status.fields();
    format!(in alloc;
        "HTTP/1.1 {reason}\r\n\
        Content-Type: {kind}\r\n\
        Content-Length: {length}\r\n\
        Connection: close\r\n\
        Cache-Control: no-store\r\n\
        X-Content-Type-Options: nosniff\r\n\
        Content-Security-Policy: default-src 'self'; script-src 'self' 'wasm-unsafe-eval'; connect-src 'self' ws: wss:; \
        base-uri 'none'; form-action 'none'; frame-ancestors 'none'\r\n\
        Lugcurrant-Document: {identity}\r\n\
        {fields}\r\n"
    )
}

/// An answer of this status: its head and, where it is wanted, this body.
///
/// Errors: out of memory.
pub fn write_answer(
    alloc: Global,
    site: &Site,
    status: Status,
    kind: ContentType,
    body: &[u8],
    wants_body: bool,
) -> Result<Vec<u8>, AllocError>
    ensures { IfOk result (λ answer. answer.items ≡ answer_text (seen_site site.now) status kind body.now wants_body) }
{
    let mut answer = write_head(alloc, site, status, kind, body.len())?;
    if wants_body {
        answer.extend_from_slice(body)?;
    }
    Ok(answer)
}

/// An answer of this status: its head and, where it is wanted, the status in a sentence.
///
/// Errors: out of memory.
pub fn write_sentence(
    alloc: Global,
    site: &Site,
    status: Status,
    wants_body: bool,
) -> Result<Vec<u8>, AllocError>
    ensures { IfOk result (λ answer. answer.items ≡ sentence_text (seen_site site.now) status wants_body) }
{
    write_answer(
        alloc,
        site,
        status,
        ContentType::Text,
        status.sentence().as_bytes(),
        wants_body,
    )
}
