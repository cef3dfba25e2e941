// Hosts as requests name them.
ghost use Rattle.std.specs.Prelude.{◌≡◌, ◌↔◌, IfOk, IfSome, IsSome, map, string_bytes, true};
ghost use Rattle.std.specs.List.{list_all};
ghost use Rattle.etcd_gateway.specs.Hosts.{IsUrlOf, WithSlash, is_host, is_url_host_byte};

use std::alloc::{AllocError, Global};

/// A host as requests name it: `127.0.0.1:2379`, `[::1]:2379`, `etcd.example.org`.
#[derive(Debug, Drop)]
pub struct Host {
    /// The host with its port, where it has one: 1 to 255 bytes, each a letter or digit of ASCII, `-`, `.`, `:`, `[` or `]`.
    pub text: String,
    pub ghost named: { is_host (string_bytes text) ≡ true },
}

impl Host {
    /// The same host once more. Errors: out of memory.
    pub fn copy(&self, alloc: Global) -> Result<Host, AllocError>
        ensures { IfOk result (λ copy. string_bytes copy.text ≡ string_bytes self.now.text) }
    {
        let text = String::from_str(alloc, &self.text)?;
        Ok(Host { text })
    }

    /// The host of this text. `None` where a byte may not stand in one, or there are none or more than 255.
    pub fn new(text: String) -> Option<Host>
        ensures some { IfSome result (λ host. string_bytes host.text ≡ string_bytes text) }
        ensures only { IsSome result ↔ (is_host (string_bytes text) ≡ true) }
    {
        if is_host(text.as_bytes()) {
            Some(Host { text })
        } else {
            None
        }
    }
}

/// The host of a URL as `http://127.0.0.1:2379`, which may have blanks around it, and one `/` at its end. `None` where it is none: with another
/// scheme, a path, or a byte that may not stand in a host.
///
/// Errors: out of memory.
pub fn host_of(alloc: Global, url: &str) -> Result<Option<Host>, AllocError>
    ensures { IfOk result (λ found. IfSome found (λ host. IsUrlOf (string_bytes host.text) url.now)) }
{
    let Some(bytes) = host_in(url.as_bytes()) else {
        return Ok(None);
    };
    let Ok(text) = str::from_utf8(bytes) else {
        return Ok(None);
    };
    Ok(Host::new(String::from_str(alloc, text)?))
}

// What stands for the host in a URL.
fn host_in(url: &[u8]) -> Option<&[u8]>
    ensures { IfSome result (λ host. IsUrlOf host.now url.now) }
{
    let text = url.trim_ascii();
    let rest = text.strip_prefix(b"http://")?;
    Some(without_slash(rest))
}

// The same bytes without a slash at their end.
fn without_slash(text: &[u8]) -> &[u8]
    ensures { WithSlash result.now text.now }
{
    match text.strip_suffix(b"/") {
        Some(rest) => rest,
        None => text,
    }
}

/// The same hosts once more. Errors: out of memory.
pub fn copy_hosts(alloc: Global, hosts: &[Host]) -> Result<Vec<Host>, AllocError>
    ensures { IfOk result (λ copies. map (λ h. string_bytes h.text) copies.items ≡ map (λ h. string_bytes h.text) hosts.now) }
{
    let mut copies = Vec::new(alloc);
    for host in hosts {
        copies.push(host.copy(alloc)?)?;
    }
    Ok(copies)
}

// Checks whether these bytes name a host.
fn is_host(text: &[u8]) -> bool
    ensures { result ≡ is_host text.now }
{
    !text.is_empty() && text.len() <= 255 && are_host_bytes(text)
}

// Checks whether each byte may stand in a host.
fn are_host_bytes(text: &[u8]) -> bool
    ensures { result ≡ list_all is_url_host_byte text.now }
{
    text.iter().all(|b| is_host_byte(*b))
}

// Checks whether the byte may stand in a host.
fn is_host_byte(b: u8) -> bool
    ensures { result ≡ is_url_host_byte b }
{
    b.is_ascii_alphanumeric() || matches!(b, b'-' | b'.' | b':' | b'[' | b']')
}
