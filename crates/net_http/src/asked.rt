// What a request asks for.
ghost use Rattle.std.specs.Prelude.{◌≡◌};
ghost use Rattle.net_http.specs.Texts.{content_type_of, name_of, status_of};

use crate::texts::{ContentType, Status};

/// What a request asks for.
#[derive(Clone, Copy, Debug, PartialEq, Eq)]
pub enum Endpoint {
    /// The WebSocket handshake goes on.
    Connection,
    /// A file of the page.
    File(PageFile),
    /// Whether the server is well.
    Health,
    /// What the server has counted.
    Metrics,
    /// Which document this is.
    Document,
    /// Nothing that it gets.
    Refused(HttpRefusal),
}

/// Why a request gets nothing.
#[derive(Clone, Copy, Debug, PartialEq, Eq)]
pub enum HttpRefusal {
    /// The target doesn't begin with a slash, `Host` isn't there once, `Origin` is there twice, or a handshake isn't one.
    BadRequest,
    /// A page of another host asks for a connection, and the site doesn't name its origin.
    Forbidden,
    /// The site has nothing at this path.
    NotFound,
    /// The method isn't one of those that are answered there.
    NotAllowed,
    /// The host isn't the site's.
    Misdirected,
    /// The handshake is of another version than 13.
    OtherVersion,
}

impl HttpRefusal {
    /// The status of the answer.
    pub fn status(self) -> Status
        ensures { result ≡ status_of self }
    {
        match self {
            HttpRefusal::BadRequest => Status::BadRequest,
            HttpRefusal::Forbidden => Status::Forbidden,
            HttpRefusal::NotFound => Status::NotFound,
            HttpRefusal::NotAllowed => Status::NotAllowed,
            HttpRefusal::Misdirected => Status::Misdirected,
            HttpRefusal::OtherVersion => Status::UpgradeRequired,
        }
    }
}

/// A file of the page.
#[derive(Clone, Copy, Debug, PartialEq, Eq)]
pub enum PageFile {
    /// The page itself.
    Index,
    /// The page's script.
    Script,
    /// The worker's script.
    Worker,
    /// The client in JavaScript.
    Library,
    /// The client in WebAssembly.
    Module,
    /// The page's style.
    Style,
    /// The page's icon.
    Icon,
}

impl PageFile {
    /// The file's name in the folder of the page.
    pub fn name(self) -> &'static str
        ensures { result.now ≡ name_of self }
    {
        match self {
            PageFile::Index => "index.html",
            PageFile::Script => "page.js",
            PageFile::Worker => "worker.js",
            PageFile::Library => "lugcurrant.js",
            PageFile::Module => "canvas.wasm",
            PageFile::Style => "page.css",
            PageFile::Icon => "favicon.svg",
        }
    }

    /// What the file is, as the answer says it.
    pub fn content_type(self) -> ContentType
        ensures { result ≡ content_type_of self }
    {
        match self {
            PageFile::Index => ContentType::Html,
            PageFile::Script | PageFile::Worker | PageFile::Library => ContentType::Script,
            PageFile::Module => ContentType::Wasm,
            PageFile::Style => ContentType::Style,
            PageFile::Icon => ContentType::Svg,
        }
    }
}
