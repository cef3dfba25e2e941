// Which hosts are a site's.
ghost use Rattle.std.specs.Prelude.{◌≡◌, ◌↔◌, ◌||◌, ◌==◌, IsTrue, string_bytes};
ghost use Rattle.std.specs.List.{list_all, list_any};
ghost use Rattle.net_http.specs.Hosts.{IsHost, is_digit, is_host_named, is_local_host, is_own_host, is_port};
ghost use Rattle.net_http.specs.Sites.{seen_site};

use crate::origin::are_host_bytes;
use crate::site::Site;
use net_heads::is_same_word;

/// Checks whether a site may name this text as a host: letters in lower case, digits, and what else may be in a host and its port.
pub fn is_host(text: &[u8]) -> bool
    ensures { IsTrue result ↔ IsHost text.now }
{
    !text.is_empty() && are_host_bytes(text)
}

/// Checks whether the host is the machine itself, or one that the site names.
#[tactic(auto, using(crate::proofs::Paths::list_any_map))]
pub(crate) fn is_own_host(site: &Site, host: &[u8]) -> bool
    ensures { result ≡ is_own_host (seen_site site.now) host.now }
{
    is_local_host(host) || is_named_host(&site.hosts, host)
}

// Checks whether the host is the machine itself.
fn is_local_host(host: &[u8]) -> bool
    ensures { result ≡ is_local_host host.now }
{
    is_host_named(host, b"localhost")
        || is_host_named(host, b"127.0.0.1")
        || is_host_named(host, b"[::1]")
}

// Checks whether the host is one of these.
fn is_named_host(hosts: &[String], host: &[u8]) -> bool
    ensures { result ≡ list_any (λ name. is_host_named host.now (string_bytes name)) hosts.now }
{
    hosts
        .iter()
        .any(|name| is_host_named(host, name.as_bytes()))
}

// Checks whether the host has this name. A port may follow it.
fn is_host_named(host: &[u8], name: &[u8]) -> bool
    ensures { result ≡ is_host_named host.now name.now }
{
    if host.len() < name.len() {
        return false;
    }
    let (begin, end) = host.split_at(name.len());
    is_same_word(begin, name) && is_port(end)
}

// Checks whether nothing is left, or a colon and the digits of a port.
fn is_port(text: &[u8]) -> bool
    ensures { result ≡ is_port text.now }
{
    text.is_empty() || (text.starts_with(b":") && are_digits(&text[1..]))
}

// Checks whether each byte is a digit.
fn are_digits(text: &[u8]) -> bool
    ensures { result ≡ list_all is_digit text.now }
{
    text.iter().all(|b| is_digit(*b))
}

// Checks whether the byte is a digit.
fn is_digit(b: u8) -> bool
    ensures { result ≡ is_digit b }
{
    b.is_ascii_digit()
}
