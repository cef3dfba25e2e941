// What is answered to a request that isn't a client's.
ghost use Rattle.std.specs.Prelude.{◌≡◌, ◌++◌, ◌∷◌, [], IfOk, string_bytes};
ghost use Rattle.net_http.specs.Answers.{answer_text, sentence_text};
ghost use Rattle.net_http.specs.Sites.{seen_site};
ghost use Rattle.app_listener.specs.Answers.{IsAnswerToEndpoint, reply_bytes, turned_away};

use crate::options::Shared;
use bytes::Bytes;
use net_http::{
    ContentType, Endpoint, HttpRequest, PageFile, Site, Status, write_answer, write_head,
    write_sentence,
};
use std::alloc::{AllocError, Global};

/// The bytes of an answer: its own, and then those that it shares with the page.
#[derive(Drop)]
pub(crate) struct Reply {
    pub(crate) own: Vec<u8>,
    pub(crate) shared: Bytes,
}

impl Reply {
    // Shares nothing.
    #[tactic(auto, using(crate::proofs::Replies::owned))]
    fn of(own: Vec<u8>) -> Reply
        ensures { reply_bytes result ≡ own.items }
    {
        Reply {
            own,
            shared: Bytes::new(),
        }
    }

    // Shares these bytes, which follow its own. Errors: out of memory.
    fn sharing(own: Vec<u8>, shared: &Bytes) -> Result<Reply, AllocError>
        ensures { IfOk result (λ reply. reply_bytes reply ≡ own.items ++ shared.now) }
    {
        Ok(Reply {
            own,
            shared: shared.clone()?,
        })
    }
}

/// The bytes of the answer: what was asked for, or a sentence that says why not. Those of a file are shared.
///
/// A file that the page doesn't have is answered by a sentence. Errors: out of memory.
pub(crate) fn answer_to(
    alloc: Global,
    shared: &Shared,
    request: &HttpRequest,
) -> Result<Reply, AllocError>
    ensures { IfOk result (λ answer. IsAnswerToEndpoint (seen_site shared.now.site) shared.now.page request.now.asked request.now.wants_body (reply_bytes answer)) }
{
    let site = &shared.site;
    let wants_body = request.wants_body;
    match request.asked {
        Endpoint::Health => {
            let line = shared.figures.numbers().health(alloc)?;
            own_answer(alloc, site, ContentType::Text, line.as_bytes(), wants_body)
        }
        Endpoint::Metrics => {
            let text = shared.figures.numbers().metrics(alloc)?;
            own_answer(
                alloc,
                site,
                ContentType::Metrics,
                text.as_bytes(),
                wants_body,
            )
        }
        Endpoint::Document => {
            let line = identity_line(alloc, site)?;
            own_answer(alloc, site, ContentType::Text, line.as_bytes(), wants_body)
        }
        Endpoint::File(file) => answer_file(alloc, shared, file, wants_body),
        Endpoint::Refused(refusal) => own_sentence(alloc, site, refusal.status(), wants_body),
        Endpoint::Connection => turn_away(alloc, shared),
    }
}

// An answer that shares nothing.
fn own_answer(
    alloc: Global,
    site: &Site,
    kind: ContentType,
    body: &[u8],
    wants_body: bool,
) -> Result<Reply, AllocError>
    ensures { IfOk result (λ answer. reply_bytes answer ≡ answer_text (seen_site site.now) Status.Ok kind body.now wants_body) }
{
    let answer = write_answer(alloc, site, Status::Ok, kind, body, wants_body)?;
    Ok(Reply::of(answer))
}

// The status in a sentence.
fn own_sentence(
    alloc: Global,
    site: &Site,
    status: Status,
    wants_body: bool,
) -> Result<Reply, AllocError>
    ensures { IfOk result (λ answer. reply_bytes answer ≡ sentence_text (seen_site site.now) status wants_body) }
{
    let answer = write_sentence(alloc, site, status, wants_body)?;
    Ok(Reply::of(answer))
}

// The document's identity in a line of its own.
fn identity_line(alloc: Global, site: &Site) -> Result<String, AllocError>
    ensures { IfOk result (λ line. string_bytes line ≡ string_bytes site.now.identity ++ 10 ∷ []) }
{
    let identity = site.identity.as_str();
    format!(in alloc; "{identity}\n")
}

/// The answer to a client for which there is no place. Errors: out of memory.
pub(crate) fn turn_away(alloc: Global, shared: &Shared) -> Result<Reply, AllocError>
    ensures { IfOk result (λ answer. reply_bytes answer ≡ turned_away (seen_site shared.now.site)) }
{
    own_sentence(alloc, &shared.site, Status::Unavailable, true)
}

// A file of the page, or that there is none.
fn answer_file(
    alloc: Global,
    shared: &Shared,
    file: PageFile,
    wants_body: bool,
) -> Result<Reply, AllocError>
    ensures { IfOk result (λ answer. IsAnswerToEndpoint (seen_site shared.now.site) shared.now.page (Endpoint.File file) wants_body (reply_bytes answer)) }
{
    let site = &shared.site;
    match shared.page.get(file) {
        Some(bytes) => shared_answer(alloc, site, file.content_type(), bytes, wants_body),
        None => own_sentence(alloc, site, Status::NotFound, wants_body),
    }
}

// An answer that shares its body.
fn shared_answer(
    alloc: Global,
    site: &Site,
    kind: ContentType,
    body: &Bytes,
    wants_body: bool,
) -> Result<Reply, AllocError>
    ensures { IfOk result (λ answer. reply_bytes answer ≡ answer_text (seen_site site.now) Status.Ok kind body.now wants_body) }
{
    let head = write_head(alloc, site, Status::Ok, kind, body.len())?;
    if wants_body {
        Reply::sharing(head, body)
    } else {
        Ok(Reply::of(head))
    }
}
