// The statuses of answers and what their bodies are, in the words of HTTP.
ghost use Rattle.std.specs.Prelude.{◌≡◌};
ghost use Rattle.net_http.specs.Texts.{fields_of, status_text, sentence_of, type_of};

/// The status of an answer.
#[derive(Clone, Copy, Debug, PartialEq, Eq)]
pub enum Status {
    /// 200: what was asked for follows.
    Ok,
    /// 400.
    BadRequest,
    /// 403.
    Forbidden,
    /// 404.
    NotFound,
    /// 405.
    NotAllowed,
    /// 421: the host isn't the site's.
    Misdirected,
    /// 426: the handshake is of another version.
    UpgradeRequired,
    /// 503: every seat is taken.
    Unavailable,
}

impl Status {
    /// The status as the first line of the answer says it.
    pub fn reason(self) -> &'static str
        ensures { result.now ≡ status_text self }
    {
        match self {
            Status::Ok => "200 OK",
            Status::BadRequest => "400 Bad Request",
            Status::Forbidden => "403 Forbidden",
            Status::NotFound => "404 Not Found",
            Status::NotAllowed => "405 Method Not Allowed",
            Status::Misdirected => "421 Misdirected Request",
            Status::UpgradeRequired => "426 Upgrade Required",
            Status::Unavailable => "503 Service Unavailable",
        }
    }

    /// The status in a sentence, which is the body of an answer that has no other.
    pub fn sentence(self) -> &'static str
        ensures { result.now ≡ sentence_of self }
    {
        match self {
            Status::Ok => "All is well.\n",
            Status::BadRequest => "This is no request that can be read here.\n",
            Status::Forbidden => "Pages of this origin may not connect here.\n",
            Status::NotFound => "There is nothing at this address.\n",
            Status::NotAllowed => "Only GET and HEAD are answered here.\n",
            Status::Misdirected => {
                "This host name isn't served here. The server's option --host names further ones.\n"
            }
            Status::UpgradeRequired => "Only version 13 of WebSocket is served here.\n",
            Status::Unavailable => "All seats of this document are taken. Try again soon.\n",
        }
    }

    // The fields that only answers of this status have, each with its line end.
    pub(crate) fn fields(self) -> &'static str
        ensures { result.now ≡ fields_of self }
    {
        match self {
            Status::NotAllowed => "Allow: GET, HEAD\r\n",
            Status::UpgradeRequired => "Upgrade: websocket\r\nSec-WebSocket-Version: 13\r\n",
            Status::Unavailable => "Retry-After: 5\r\n",
            Status::Ok
            | Status::BadRequest
            | Status::Forbidden
            | Status::NotFound
            | Status::Misdirected => "",
        }
    }
}

/// What the body of an answer is.
#[derive(Clone, Copy, Debug, PartialEq, Eq)]
pub enum ContentType {
    /// Plain text in UTF-8.
    Text,
    /// The text form of Prometheus.
    Metrics,
    /// A page.
    Html,
    /// JavaScript.
    Script,
    /// WebAssembly.
    Wasm,
    /// A style sheet.
    Style,
    /// A picture in SVG.
    Svg,
}

impl ContentType {
    /// The value of `Content-Type`.
    pub fn value(self) -> &'static str
        ensures { result.now ≡ type_of self }
    {
        match self {
            ContentType::Text => "text/plain; charset=utf-8",
            ContentType::Metrics => "text/plain; version=0.0.4; charset=utf-8",
            ContentType::Html => "text/html; charset=utf-8",
            ContentType::Script => "text/javascript; charset=utf-8",
            ContentType::Wasm => "application/wasm",
            ContentType::Style => "text/css; charset=utf-8",
            ContentType::Svg => "image/svg+xml",
        }
    }
}
