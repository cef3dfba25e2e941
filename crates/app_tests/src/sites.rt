//! A site with a page and one without, and what each reads and answers.
use crate::answers::{
    FIGURES, IDENTITIES, SENTENCES, first_wrong_figures, first_wrong_identity, first_wrong_sentence,
};
use crate::heads::{
    BROWSER, COUNTS, CURL, FIELDS, HANDSHAKES, HEADS, HOST, HOSTS, OFFER, OFFERS, PAGELESS, PLAIN,
    first_wrong_count, first_wrong_head, first_wrong_part, first_wrong_request,
};
use net_http::{Site, is_identity};
use std::alloc::{AllocError, Global};

// The site's document.
const IDENTITY: &str = "0123456789abcdef0123456789abcdef";

// The origins of pages that may connect too: `https://example.org`.
fn origins(alloc: Global) -> Result<Vec<String>, AllocError> {
    let mut origins = Vec::with_capacity(alloc, 1)?;
    origins.push(String::from_str(alloc, "https://example.org")?)?;
    Ok(origins)
}

// The hosts that it may be asked by too: `a`, and `b` at one port.
fn hosts(alloc: Global) -> Result<Vec<String>, AllocError> {
    let mut hosts = Vec::with_capacity(alloc, 2)?;
    hosts.push(String::from_str(alloc, "a")?)?;
    hosts.push(String::from_str(alloc, "b:80")?)?;
    Ok(hosts)
}

// A site with or without a page. It may be asked by the hosts `a` and `b:80` too. Pages of `https://example.org` may connect too.
fn site(alloc: Global, has_page: bool) -> Option<Site> {
    let identity = String::from_str(alloc, IDENTITY).ok()?;
    if !is_identity(identity.as_bytes()) {
        return None;
    }
    Some(Site {
        hosts: hosts(alloc).ok()?,
        origins: origins(alloc).ok()?,
        identity,
        has_page,
    })
}

// A list of what a site is asked or answers.
#[derive(Clone, Copy)]
enum List {
    // Requests that are no handshakes.
    Plain,
    // Requests to a site without a page.
    Pageless,
    // Handshakes, as a browser sends them.
    Handshakes,
    // Handshakes, and what looks like them.
    Offers,
    // Requests to hosts.
    Hosts,
    // Requests with other fields.
    Fields,
    // The parts of a request.
    Parts,
    // Bytes that are requests, and others.
    Heads,
    // Requests with so many fields.
    Counts,
    // Statuses in sentences.
    Sentences,
    // Figures, with and without their body.
    Figures,
    // Texts that may be identities, and others.
    Identities,
}

// The first row of a list that isn't as it must be.
fn first_wrong_of(alloc: Global, site: &Site, list: List) -> Option<usize> {
    match list {
        List::Plain => first_wrong_request(alloc, site, HOST, PLAIN),
        List::Pageless => first_wrong_request(alloc, site, HOST, PAGELESS),
        List::Handshakes => first_wrong_request(alloc, site, BROWSER, HANDSHAKES),
        List::Offers => first_wrong_request(alloc, site, OFFER, OFFERS),
        List::Hosts => first_wrong_request(alloc, site, "", HOSTS),
        List::Fields => first_wrong_request(alloc, site, "", FIELDS),
        List::Parts => first_wrong_part(site, CURL),
        List::Heads => first_wrong_head(alloc, site, HEADS),
        List::Counts => first_wrong_count(alloc, site, COUNTS),
        List::Sentences => first_wrong_sentence(alloc, site, SENTENCES),
        List::Figures => first_wrong_figures(alloc, site, FIGURES),
        List::Identities => first_wrong_identity(IDENTITIES),
    }
}

// The same for a site with or without a page.
fn first_wrong(alloc: Global, has_page: bool, list: List) -> Option<usize> {
    match site(alloc, has_page) {
        Some(site) => first_wrong_of(alloc, &site, list),
        None => Some(0),
    }
}

// The lists, each with its name and whether the site has a page.
const LISTS: &[(&str, bool, List)] = &[
    ("plain requests", true, List::Plain),
    ("requests without a page", false, List::Pageless),
    ("handshakes", true, List::Handshakes),
    ("offers", true, List::Offers),
    ("hosts", true, List::Hosts),
    ("fields", true, List::Fields),
    ("parts of a request", true, List::Parts),
    ("heads", true, List::Heads),
    ("counts of fields", true, List::Counts),
    ("sentences", true, List::Sentences),
    ("figures", true, List::Figures),
    ("identities", true, List::Identities),
];

#[test]
fn lists(rt: HostRuntime) {
    for (name, has_page, list) in LISTS {
        assert_eq!(rt;
            first_wrong(rt.alloc(), *has_page, *list),
            None,
            "of the {name}"
        );
    }
}
