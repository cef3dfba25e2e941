//! The bytes of answers, and texts that may be identities.
use net_http::{ContentType, Site, Status, is_identity, write_answer, write_sentence};
use std::alloc::{AllocError, Global};

// The fields that every answer ends with, but for those of its status.
const COMMON: &str =
    "Connection: close\r\nCache-Control: no-store\r\nX-Content-Type-Options: nosniff\r\n\
    Content-Security-Policy: default-src 'self'; script-src 'self' 'wasm-unsafe-eval'; connect-src 'self' ws: wss:; \
    base-uri 'none'; form-action 'none'; frame-ancestors 'none'\r\n\
    Lugcurrant-Document: 0123456789abcdef0123456789abcdef\r\n";

/// A status that is answered in a sentence, what the answer begins with, and what it ends with.
pub type Sentence = (Status, &'static str, &'static str);

/// Statuses in sentences.
pub const SENTENCES: &[Sentence] = &[
    (
        Status::BadRequest,
        "400 Bad Request\r\nContent-Type: text/plain; charset=utf-8\r\nContent-Length: 42\r\n",
        "\r\nThis is no request that can be read here.\n",
    ),
    (
        Status::Forbidden,
        "403 Forbidden\r\nContent-Type: text/plain; charset=utf-8\r\nContent-Length: 43\r\n",
        "\r\nPages of this origin may not connect here.\n",
    ),
    (
        Status::NotFound,
        "404 Not Found\r\nContent-Type: text/plain; charset=utf-8\r\nContent-Length: 34\r\n",
        "\r\nThere is nothing at this address.\n",
    ),
    (
        Status::NotAllowed,
        "405 Method Not Allowed\r\nContent-Type: text/plain; charset=utf-8\r\nContent-Length: 37\r\n",
        "Allow: GET, HEAD\r\n\r\nOnly GET and HEAD are answered here.\n",
    ),
    (
        Status::Misdirected,
        "421 Misdirected Request\r\nContent-Type: text/plain; charset=utf-8\r\nContent-Length: 81\r\n",
        "\r\nThis host name isn't served here. The server's option --host names further ones.\n",
    ),
    (
        Status::UpgradeRequired,
        "426 Upgrade Required\r\nContent-Type: text/plain; charset=utf-8\r\nContent-Length: 45\r\n",
        "Upgrade: websocket\r\nSec-WebSocket-Version: 13\r\n\r\nOnly version 13 of WebSocket is served here.\n",
    ),
    (
        Status::Unavailable,
        "503 Service Unavailable\r\nContent-Type: text/plain; charset=utf-8\r\nContent-Length: 54\r\n",
        "Retry-After: 5\r\n\r\nAll seats of this document are taken. Try again soon.\n",
    ),
];

// What figures begin with, whether or not the body is wanted.
const FIGURES_BEGIN: &str =
    "200 OK\r\nContent-Type: text/plain; version=0.0.4; charset=utf-8\r\nContent-Length: 4\r\n";

/// Whether the body of figures is wanted, and what the answer ends with.
pub const FIGURES: &[(bool, &str)] = &[(false, "\r\n"), (true, "\r\na 1\n")];

// Checks whether the bytes are these texts, one behind the other.
fn are(bytes: &[u8], texts: &[&str]) -> bool {
    let mut rest = bytes;
    for text in texts {
        match rest.strip_prefix(text.as_bytes()) {
            Some(behind) => rest = behind,
            None => return false,
        }
    }
    rest.is_empty()
}

// Checks whether an answer was written, and begins and ends so.
fn is_written(written: Result<Vec<u8>, AllocError>, begin: &str, end: &str) -> bool {
    match written {
        Ok(bytes) => are(&bytes, &["HTTP/1.1 ", begin, COMMON, end]),
        Err(_) => false,
    }
}

/// The first of these rows, counted from 0, that is written otherwise.
pub fn first_wrong_sentence(alloc: Global, site: &Site, rows: &[Sentence]) -> Option<usize> {
    for (i, (status, begin, end)) in rows.iter().enumerate() {
        if !is_written(write_sentence(alloc, site, *status, true), *begin, *end) {
            return Some(i);
        }
    }
    None
}

// Figures, with or without the body.
fn figures(alloc: Global, site: &Site, wants_body: bool) -> Result<Vec<u8>, AllocError> {
    write_answer(
        alloc,
        site,
        Status::Ok,
        ContentType::Metrics,
        b"a 1\n",
        wants_body,
    )
}

/// The first of these rows, counted from 0, that is written otherwise.
pub fn first_wrong_figures(
    alloc: Global,
    site: &Site,
    rows: &[(bool, &'static str)],
) -> Option<usize> {
    for (i, (wants_body, end)) in rows.iter().enumerate() {
        if !is_written(figures(alloc, site, *wants_body), FIGURES_BEGIN, *end) {
            return Some(i);
        }
    }
    None
}

/// Texts, and whether each may be an identity.
pub const IDENTITIES: &[(&str, bool)] = &[
    ("0123456789abcdef0123456789abcdef", true),
    ("00000000000000000000000000000000", true),
    ("0123456789abcdef0123456789abcde", false),
    ("0123456789abcdef0123456789abcdef0", false),
    ("0123456789abcdef0123456789abcdeF", false),
    ("0123456789abcdef0123456789abcde\n", false),
];

/// The first of these rows, counted from 0, of which something else is said.
pub fn first_wrong_identity(rows: &[(&'static str, bool)]) -> Option<usize> {
    for (i, (text, wanted)) in rows.iter().enumerate() {
        if is_identity(text.as_bytes()) != *wanted {
            return Some(i);
        }
    }
    None
}
