//! Heads of requests, as clients send them, and what is read of them, in words.
use net_http::{Endpoint, HeadError, HttpRefusal, HttpRequest, PageFile, Site, read_head};
use std::alloc::{AllocError, Global};

/// The field of requests that are no handshakes.
pub const HOST: &str = "Host: localhost:7411\r\n";

/// Requests that are no handshakes, and what each asks for.
pub const PLAIN: &str = "GET / -> index\n\
    GET /index.html -> index\n\
    GET /?name=Ann -> index\n\
    HEAD /page.js -> script\n\
    GET /worker.js -> worker\n\
    GET /lugcurrant.js -> library\n\
    GET /canvas.wasm -> module\n\
    GET /page.css -> style\n\
    GET /favicon.svg -> icon\n\
    GET /health -> health\n\
    GET /metrics?a=b?c -> metrics\n\
    GET /document -> document\n\
    GET /document/ -> not found\n\
    GET /document/0123456789abcdef0123456789abcdef -> not found\n\
    GET /page.js/ -> not found\n\
    GET //page.js -> not found\n\
    GET /../identity -> not found\n\
    GET /%2e%2e/identity -> not found\n\
    GET /Page.js -> not found\n\
    POST / -> not allowed\n\
    get / -> not allowed\n\
    OPTIONS * -> bad request\n\
    GET http://localhost/ -> bad request\n\
    CONNECT localhost:80 -> bad request";

/// Requests to a site without a page.
pub const PAGELESS: &str = "GET / -> not found\n\
    GET /page.js -> not found\n\
    GET /health -> health\n\
    HEAD /document -> document";

/// The fields of a handshake, as Firefox sends them, but for the origin.
pub const BROWSER: &str =
    "Host: localhost:7411\r\nUser-Agent: Mozilla/5.0\r\nAccept: */*\r\nSec-WebSocket-Version: 13\r\n\
    Sec-WebSocket-Extensions: permessage-deflate\r\nSec-WebSocket-Key: dGhlIHNhbXBsZSBub25jZQ==\r\nConnection: keep-alive, Upgrade\r\n\
    Upgrade: websocket\r\n";

/// Handshakes, with their origins.
pub const HANDSHAKES: &str = "GET / -> connection\n\
    GET /document -> connection\n\
    GET /document/0123456789abcdef0123456789abcdef?a -> connection\n\
    GET /document/0123456789ABCDEF0123456789ABCDEF -> not found\n\
    GET /document/f123456789abcdef0123456789abcdef -> not found\n\
    GET /document/ -> not found\n\
    GET /health -> not found\n\
    GET /page.js -> not found\n\
    POST / -> not allowed\n\
    HEAD / -> not allowed\n\
    GET / | Origin: http://localhost:7411 -> connection\n\
    GET / | origin: HTTPS://LocalHost:7411 -> connection\n\
    GET / | Origin: https://example.org -> connection\n\
    GET / | Origin: https://example.org:7411 -> forbidden\n\
    GET / | Origin: http://localhost -> forbidden\n\
    GET / | Origin: http://localhost:7411.evil.example -> forbidden\n\
    GET / | Origin: null -> forbidden\n\
    GET / | Origin: -> forbidden\n\
    GET / | Origin: http://localhost:7411 | Origin: http://localhost:7411 -> bad request";

/// Fields of a request for `/`.
pub const FIELDS: &str = "GET / -> bad request\n\
    GET / | Host: a | Host: a -> bad request\n\
    GET / | hOST: a | Host: b -> bad request\n\
    GET / | Host: a | Origin: http://a | Origin: http://a -> bad request\n\
    GET / | Host: a | Upgrade: h2c -> index\n\
    GET / | Host: a | Origin: http://b -> index\n\
    GET / | Host: a | Upgrade:  WebSocket  -> bad request\n\
    GET / | Host: a | Upgrade: h2c | upgrade: websocket -> bad request";

/// The host of a handshake.
pub const OFFER: &str = "Host: localhost:7411\r\n";

/// Handshakes, and what looks like them.
pub const OFFERS: &str =
    "GET / | Upgrade:  WebSocket  | Connection: upgrade | Sec-WebSocket-Version: 13 | Sec-WebSocket-Key: dGhlIHNhbXBsZSBub25jZQ== -> connection\n\
    GET / | upgrade: websocket | connection: keep-alive,UPGRADE | sec-websocket-version: 13 | sec-websocket-key: AAAAAAAAAAAAAAAAAAAAAA== -> connection\n\
    GET / | Upgrade: websocket | Connection: upgrade | Sec-WebSocket-Version: 12 | Sec-WebSocket-Key: dGhlIHNhbXBsZSBub25jZQ== -> other version\n\
    GET / | Upgrade: websocket | Sec-WebSocket-Version: 8 -> other version\n\
    GET / | Upgrade: websocket | Connection: upgrade | Sec-WebSocket-Key: dGhlIHNhbXBsZSBub25jZQ== -> bad request\n\
    GET / | Upgrade: websocket | Connection: upgrade | Sec-WebSocket-Version: 13 | Sec-WebSocket-Version: 13 | Sec-WebSocket-Key: dGhlIHNhbXBsZSBub25jZQ== -> bad request\n\
    GET / | Upgrade: websocket | Connection: upgrade | Sec-WebSocket-Version: 13 -> bad request\n\
    GET / | Upgrade: websocket | Connection: upgrade | Sec-WebSocket-Version: 13 | Sec-WebSocket-Key: dGhlIHNhbXBsZSBub25jZQ== | Sec-WebSocket-Key: dGhlIHNhbXBsZSBub25jZQ== -> bad request\n\
    GET / | Upgrade: websocket | Connection: upgrade | Sec-WebSocket-Version: 13 | Sec-WebSocket-Key: dGhlIHNhbXBsZSBub25jZR== -> bad request\n\
    GET / | Upgrade: websocket | Connection: upgrade | Sec-WebSocket-Version: 13 | Sec-WebSocket-Key: dGhlIHNhbXBsZSBub25jZQ= -> bad request\n\
    GET / | Upgrade: websocket | Connection: upgrade | Sec-WebSocket-Version: 13 | Sec-WebSocket-Key: dGhlIHNhbXBsZSBub25j!Q== -> bad request\n\
    GET / | Upgrade: websocket | Connection: close | Sec-WebSocket-Version: 13 | Sec-WebSocket-Key: dGhlIHNhbXBsZSBub25jZQ== -> bad request\n\
    GET / | Upgrade: websocket, h2c | Connection: upgrade | Sec-WebSocket-Version: 13 | Sec-WebSocket-Key: dGhlIHNhbXBsZSBub25jZQ== -> index";

/// Requests to hosts, with all their fields.
pub const HOSTS: &str = "GET / | Host: localhost -> index\n\
    GET / | Host: LOCALHOST:80 -> index\n\
    GET / | Host: localhost: -> index\n\
    GET / | Host: 127.0.0.1 -> index\n\
    GET / | Host: 127.0.0.1:7411 -> index\n\
    GET / | Host: [::1] -> index\n\
    GET / | Host: [::1]:7411 -> index\n\
    GET / | Host: A -> index\n\
    GET / | Host: a:7 -> index\n\
    GET / | Host: b:80 -> index\n\
    GET / | Host: b -> misdirected\n\
    GET / | Host: b:8 -> misdirected\n\
    GET / | Host: b:800 -> misdirected\n\
    GET / | Host: -> misdirected\n\
    GET / | Host: evil.example:7411 -> misdirected\n\
    GET / | Host: localhost.evil.example -> misdirected\n\
    GET / | Host: evil.localhost -> misdirected\n\
    GET / | Host: localhost:80a -> misdirected\n\
    GET / | Host: localhost@evil.example -> misdirected\n\
    GET / | Host: 127.0.0.2 -> misdirected\n\
    GET / | Host: ::1 -> misdirected\n\
    GET / | Host: evil.example | Upgrade: websocket -> misdirected\n\
    GET / | Host: evil.example | Origin: http://evil.example | Origin: http://evil.example -> misdirected\n\
    POST * | Host: evil.example -> misdirected";

// Why a request gets nothing, in words.
fn refusal_in_words(refusal: HttpRefusal) -> &'static str {
    match refusal {
        HttpRefusal::BadRequest => "bad request",
        HttpRefusal::Forbidden => "forbidden",
        HttpRefusal::NotFound => "not found",
        HttpRefusal::NotAllowed => "not allowed",
        HttpRefusal::Misdirected => "misdirected",
        HttpRefusal::OtherVersion => "other version",
    }
}

// A file of the page, in a word.
fn file_in_words(file: PageFile) -> &'static str {
    match file {
        PageFile::Index => "index",
        PageFile::Script => "script",
        PageFile::Worker => "worker",
        PageFile::Library => "library",
        PageFile::Module => "module",
        PageFile::Style => "style",
        PageFile::Icon => "icon",
    }
}

// What a request asks for, in words.
fn asked_in_words(asked: Endpoint) -> &'static str {
    match asked {
        Endpoint::Connection => "connection",
        Endpoint::File(file) => file_in_words(file),
        Endpoint::Health => "health",
        Endpoint::Metrics => "metrics",
        Endpoint::Document => "document",
        Endpoint::Refused(refusal) => refusal_in_words(refusal),
    }
}

// The head that a first line and fields spell, ` | ` before each field, where each request of a list has these fields in common.
fn head_of(alloc: Global, common: &str, request: &str) -> Result<String, AllocError> {
    let Some((line, fields)) = request.split_once(" | ") else {
        return format!(in alloc; "{request} HTTP/1.1\r\n{common}\r\n");
    };
    let fields = fields.replace(alloc, " | ", "\r\n")?;
    format!(in alloc; "{line} HTTP/1.1\r\n{common}{fields}\r\n\r\n")
}

// What this request asks for, in words.
fn asked_for(alloc: Global, site: &Site, common: &str, request: &str) -> Option<&'static str> {
    let head = head_of(alloc, common, request).ok()?;
    match read_head(site, head.as_bytes()) {
        Ok(Some(request)) => Some(asked_in_words(request.asked)),
        Ok(None) | Err(_) => None,
    }
}

// Checks whether a row holds: a request, ` -> `, and what it asks for.
fn holds(alloc: Global, site: &Site, common: &str, row: &str) -> bool {
    match row.split_once(" -> ") {
        Some((request, wanted)) => asked_for(alloc, site, common, request) == Some(wanted),
        None => false,
    }
}

/// The first of these rows, counted from 0, that doesn't hold of a site, where each request has these fields in common.
pub fn first_wrong_request(alloc: Global, site: &Site, common: &str, rows: &str) -> Option<usize> {
    for (i, row) in rows.lines().enumerate() {
        if !holds(alloc, site, common, row) {
            return Some(i);
        }
    }
    None
}

/// A request of curl.
pub const CURL: &[u8] =
    b"HEAD /health HTTP/1.1\r\nHost: localhost:7411\r\nUser-Agent: curl/8.5.0\r\nAccept: */*\r\n\r\n";

/// The first length at which a part of this request isn't read as one that goes on.
pub fn first_wrong_part(site: &Site, request: &[u8]) -> Option<usize> {
    for end in 0..request.len() {
        if read_head(site, &request[..end]) != Ok(None) {
            return Some(end);
        }
    }
    None
}

// A request, in words.
fn request_in_words(alloc: Global, request: HttpRequest) -> Result<String, AllocError> {
    let asked = asked_in_words(request.asked);
    let with = if request.wants_body {
        "with"
    } else {
        "without"
    };
    let length = request.length;
    format!(in alloc; "{asked} {with} a body, {length} bytes")
}

// What is read of these bytes, in words.
fn read_in_words(alloc: Global, site: &Site, bytes: &[u8]) -> Result<String, AllocError> {
    match read_head(site, bytes) {
        Ok(Some(request)) => request_in_words(alloc, request),
        Ok(None) => String::from_str(alloc, "goes on"),
        Err(HeadError::NotRead) => String::from_str(alloc, "not read"),
        Err(HeadError::TooManyFields) => String::from_str(alloc, "too many fields"),
    }
}

// Checks whether this is read of these bytes.
fn is_read(alloc: Global, site: &Site, bytes: &[u8], wanted: &str) -> bool {
    match read_in_words(alloc, site, bytes) {
        Ok(read) => read.as_str() == wanted,
        Err(_) => false,
    }
}

/// Bytes, and what is read of them.
pub type Head = (&'static [u8], &'static str);

/// A request of curl, alone and with bytes after it, and bytes that no request begins with: those of TLS, of HTTP/2, of a later version, and
/// others.
pub const HEADS: &[Head] = &[
    (CURL, "health without a body, 84 bytes"),
    (
        b"HEAD /health HTTP/1.1\r\nHost: localhost:7411\r\nUser-Agent: curl/8.5.0\r\nAccept: */*\r\n\r\nmore",
        "health without a body, 84 bytes",
    ),
    (b"\x16\x03\x01\x02\x00\x01\x00\x01\xfc\x03\x03", "not read"),
    (b"PRI * HTTP/2.0\r\n\r\nSM\r\n\r\n", "not read"),
    (b"GET / HTTP/1.2\r\n", "not read"),
    (b"\x00", "not read"),
    (b"GET  / HTTP/1.1\r\n", "not read"),
    (b"GET / HTTP/1.1\r\nHost : a\r\n", "not read"),
];

/// The first of these rows, counted from 0, of which something else is read.
pub fn first_wrong_head(alloc: Global, site: &Site, rows: &[Head]) -> Option<usize> {
    for (i, (bytes, wanted)) in rows.iter().enumerate() {
        if !is_read(alloc, site, *bytes, *wanted) {
            return Some(i);
        }
    }
    None
}

// A request for `/` with `Host` and so many other fields.
fn with_fields(alloc: Global, count: usize) -> Result<String, AllocError> {
    let mut head = String::from_str(alloc, "GET / HTTP/1.1\r\nHost: a\r\n")?;
    for _ in 0..count {
        head.push_str("a: b\r\n")?;
    }
    head.push_str("\r\n")?;
    Ok(head)
}

/// How many other fields a request has, and what is read of it.
pub type Count = (usize, &'static str);

/// The most that are read, and one more.
pub const COUNTS: &[Count] = &[
    (63, "index with a body, 405 bytes"),
    (64, "too many fields"),
];

// Checks whether this is read of a request with `Host` and so many other fields.
fn is_count_read(alloc: Global, site: &Site, count: usize, wanted: &str) -> bool {
    match with_fields(alloc, count) {
        Ok(head) => is_read(alloc, site, head.as_bytes(), wanted),
        Err(_) => false,
    }
}

/// The first of these rows, counted from 0, of which something else is read.
pub fn first_wrong_count(alloc: Global, site: &Site, rows: &[Count]) -> Option<usize> {
    for (i, (count, wanted)) in rows.iter().enumerate() {
        if !is_count_read(alloc, site, *count, *wanted) {
            return Some(i);
        }
    }
    None
}
