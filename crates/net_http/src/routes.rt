// The table from a request's head to what it asks for.
ghost use Rattle.std.specs.Prelude.{◌≡◌, ◌==◌, ◌++◌, ◌∷◌, [], length, All, codes, position, string_bytes};
ghost use Rattle.std.specs.List.{list_all, list_any};
ghost use Rattle.std.specs.Option.{option_copied, option_to_list};
ghost use Rattle.std.specs.Str.{bytes_eq};
ghost use Rattle.httparse.specs.Spans.{IsHeaderWithin};
ghost use Rattle.net_heads.specs.Fields.{is_same_word, seen_fields};
ghost use Rattle.net_http.specs.Sites.{seen_site};
ghost use Rattle.net_http.specs.Table.{asked_by_handshake, asked_by_page, asked_for, asked_here, file_at, has_path, is_document_path, is_named, is_origin_of, is_reading, is_welcome, page_files, path_of, question_mark, site_paths, value_at};

use crate::asked::{Endpoint, HttpRefusal, PageFile};
use crate::fields::is_handshake;
use crate::host::is_own_host;
use crate::offer::offered;
use crate::site::Site;
use net_heads::{Fields, Values, is_same_word};

/// What a request of HTTP/1.`minor`, and of this method, target and fields asks for.
pub(crate) fn asked(
    site: &Site,
    minor: u8,
    method: &[u8],
    target: &[u8],
    fields: &Fields<'_>,
) -> Endpoint
    requires { All (IsHeaderWithin (length fields.now.bytes.now)) fields.now.spans.now }
    ensures { result ≡ asked_for (seen_site site.now) minor method.now target.now (seen_fields fields.now) }
{
    let Values::One(host) = fields.find(b"host") else {
        return Endpoint::Refused(HttpRefusal::BadRequest);
    };
    if !is_own_host(site, host) {
        return Endpoint::Refused(HttpRefusal::Misdirected);
    }
    asked_here(site, minor, method, target, host, fields)
}

// What a request to this host asks for.
fn asked_here(
    site: &Site,
    minor: u8,
    method: &[u8],
    target: &[u8],
    host: &[u8],
    fields: &Fields<'_>,
) -> Endpoint
    requires { All (IsHeaderWithin (length fields.now.bytes.now)) fields.now.spans.now }
    ensures { result ≡ asked_here (seen_site site.now) minor method.now target.now (host.now ∷ []) (seen_fields fields.now) }
{
    let origin = match fields.find(b"origin") {
        Values::Nothing => None,
        Values::One(origin) => Some(origin),
        Values::Several => return Endpoint::Refused(HttpRefusal::BadRequest),
    };
    if !has_path(target) {
        return Endpoint::Refused(HttpRefusal::BadRequest);
    }
    let path = path_of(target);
    if is_handshake(fields) {
        let offer = offered(minor, fields);
        asked_by_handshake(site, method, path, host, origin, offer)
    } else {
        asked_by_page(site, method, path)
    }
}

/// Checks whether two runs of bytes are the same.
pub(crate) fn is_equal(a: &[u8], b: &[u8]) -> bool
    ensures { result ≡ bytes_eq a.now b.now }
{
    a == b
}

// Checks whether the target begins with a slash.
fn has_path(target: &[u8]) -> bool
    ensures { result ≡ has_path target.now }
{
    target.starts_with(b"/")
}

// The target without its query.
fn path_of(target: &[u8]) -> &[u8]
    ensures { result.now ≡ path_of target.now }
{
    match query_start(target) {
        Some(end) => &target[..end],
        None => target,
    }
}

// Where the first question mark stands.
fn query_start(target: &[u8]) -> Option<usize>
    ensures { result ≡ position (λ b. b == question_mark) target.now }
{
    target.iter().position(|b| *b == b'?')
}

// What a handshake asks for that gets this if its page may connect.
fn asked_by_handshake(
    site: &Site,
    method: &[u8],
    path: &[u8],
    host: &[u8],
    origin: Option<&[u8]>,
    offer: Endpoint,
) -> Endpoint
    ensures { result ≡ asked_by_handshake (seen_site site.now) method.now path.now (host.now ∷ []) (option_to_list (option_copied origin.entry)) offer }
{
    if !is_equal(method, b"GET") {
        return Endpoint::Refused(HttpRefusal::NotAllowed);
    }
    if !is_document_path(site, path) {
        return Endpoint::Refused(HttpRefusal::NotFound);
    }
    if !may_connect(site, host, origin) {
        return Endpoint::Refused(HttpRefusal::Forbidden);
    }
    offer
}

// Checks whether the site's document is at this path.
fn is_document_path(site: &Site, path: &[u8]) -> bool
    ensures { result ≡ is_document_path (seen_site site.now) path.now }
{
    if is_equal(path, b"/") || is_equal(path, b"/document") {
        return true;
    }
    match path.strip_prefix(b"/document/") {
        Some(identity) => identity == site.identity.as_bytes(),
        None => false,
    }
}

// Checks whether a page of this origin may connect, or what is no page.
#[tactic(auto, using(crate::proofs::Paths::list_any_map))]
fn may_connect(site: &Site, host: &[u8], origin: Option<&[u8]>) -> bool
    ensures { result ≡ list_all (is_welcome (seen_site site.now) (host.now ∷ [])) (option_to_list (option_copied origin.entry)) }
{
    match origin {
        None => true,
        Some(origin) => is_origin_of(host, origin) || is_named(&site.origins, origin),
    }
}

// Checks whether the origin is that of the host.
fn is_origin_of(host: &[u8], origin: &[u8]) -> bool
    ensures { result ≡ is_origin_of host.now origin.now }
{
    is_joined(origin, b"http://", host) || is_joined(origin, b"https://", host)
}

// Checks whether the word is the front and then the back, without case.
fn is_joined(word: &[u8], front: &[u8], back: &[u8]) -> bool
    ensures { result ≡ is_same_word word.now (front.now ++ back.now) }
{
    if word.len() < front.len() {
        return false;
    }
    let (begin, end) = word.split_at(front.len());
    is_same_word(begin, front) && is_same_word(end, back)
}

// Checks whether the origin is one of these.
fn is_named(origins: &[String], origin: &[u8]) -> bool
    ensures { result ≡ list_any (λ named. bytes_eq (string_bytes named) origin.now) origins.now }
{
    origins.iter().any(|named| named.as_bytes() == origin)
}

// What a request asks for that is no handshake.
fn asked_by_page(site: &Site, method: &[u8], path: &[u8]) -> Endpoint
    ensures { result ≡ asked_by_page (seen_site site.now) method.now path.now }
{
    if !is_reading(method) {
        return Endpoint::Refused(HttpRefusal::NotAllowed);
    }
    match (asked_at(path), file_at(site, path)) {
        (Some(asked), _) => asked,
        (None, Some(file)) => Endpoint::File(file),
        (None, None) => Endpoint::Refused(HttpRefusal::NotFound),
    }
}

// Checks whether the method reads.
fn is_reading(method: &[u8]) -> bool
    ensures { result ≡ is_reading method.now }
{
    is_equal(method, b"GET") || is_equal(method, b"HEAD")
}

// What every site has at this path.
fn asked_at(path: &[u8]) -> Option<Endpoint>
    ensures { result ≡ value_at path.now site_paths }
{
    if is_equal(path, b"/health") {
        Some(Endpoint::Health)
    } else if is_equal(path, b"/metrics") {
        Some(Endpoint::Metrics)
    } else if is_equal(path, b"/document") {
        Some(Endpoint::Document)
    } else {
        None
    }
}

// The page's file at this path, where the site has a page.
fn file_at(site: &Site, path: &[u8]) -> Option<PageFile>
    ensures { result ≡ file_at (seen_site site.now) path.now }
{
    if site.has_page { page_file(path) } else { None }
}

// The file of a page at this path.
fn page_file(path: &[u8]) -> Option<PageFile>
    ensures { result ≡ value_at path.now page_files }
{
    if is_equal(path, b"/") || is_equal(path, b"/index.html") {
        Some(PageFile::Index)
    } else if is_equal(path, b"/page.js") {
        Some(PageFile::Script)
    } else if is_equal(path, b"/worker.js") {
        Some(PageFile::Worker)
    } else if is_equal(path, b"/lugcurrant.js") {
        Some(PageFile::Library)
    } else if is_equal(path, b"/canvas.wasm") {
        Some(PageFile::Module)
    } else if is_equal(path, b"/page.css") {
        Some(PageFile::Style)
    } else if is_equal(path, b"/favicon.svg") {
        Some(PageFile::Icon)
    } else {
        None
    }
}
