// Where a document in an etcd is: by which hosts, and under which name.
ghost use Rattle.std.specs.Prelude.{◌≡◌, ◌<◌, IfErr, IfOk, length, string_bytes, true};
ghost use Rattle.etcd_gateway.specs.Keys.{is_document_name};

use etcd_gateway::{Host, host_of, is_name};
use std::alloc::{AllocError, AllocFailed, Global};
use thiserror::Error;

/// Where a document in an etcd is: the endpoints of the etcd, and the document's name in it.
#[derive(Debug)]
pub struct Address {
    /// The members' hosts, at least one.
    pub hosts: Vec<Host>,
    /// The document's name.
    pub name: String,
}

impl Drop for Address {
    fn drop(self) {
        let Address { hosts: _, name: _ } = self;
    }
}

/// Why words are no address.
#[derive(Clone, Copy, Debug, PartialEq, Eq, Error)]
pub enum AddressError {
    /// A URL isn't as `http://127.0.0.1:2379`, or there is none.
    #[error("no URL of an etcd")]
    NotAUrl,
    /// The name isn't 1 to 64 letters, digits, `-`, `.` and `_`.
    #[error("no name of a document")]
    NotAName,
    /// Memory ran out.
    #[error("out of memory")]
    Memory,
}

impl From<AllocError> for AddressError {
    ghost use Rattle.app_identity.specs.declared.address.AddressError.TheVariants.{Memory};

    ghost from_gives = { λ _ e. e ≡ Memory };

    fn from(_: AllocError) -> AddressError {
        AddressError::Memory
    }
}

impl<T: Drop> From<AllocFailed<T>> for AddressError {
    ghost use Rattle.app_identity.specs.declared.address.AddressError.TheVariants.{Memory};

    ghost from_gives = { λ _ e. e ≡ Memory };

    fn from(_: AllocFailed<T>) -> AddressError {
        AddressError::Memory
    }
}

impl Address {
    /// The address of the document of this name, by these URLs.
    ///
    /// The errors: `NotAUrl`, for a URL that isn't as `http://127.0.0.1:2379`, or for none; `NotAName`, exactly if a document may not have
    /// this name; `Memory`.
    pub fn new(alloc: Global, urls: &[String], name: &str) -> Result<Address, AddressError>
        ensures named { IfOk result (λ address. is_document_name (string_bytes address.name) ≡ true) }
        ensures reached { IfOk result (λ address. 0 < length address.hosts.items) }
        ensures no_name { IfErr result (λ e. e ≡ AddressError.NotAName → is_document_name name.now ≡ true → ⊥) }
    {
        let mut hosts = Vec::new(alloc);
        for url in urls {
            match host_of(alloc, url)? {
                Some(host) => hosts.push(host)?,
                None => return Err(AddressError::NotAUrl),
            }
        }
        if hosts.is_empty() {
            return Err(AddressError::NotAUrl);
        }
        if !is_name(name.as_bytes()) {
            return Err(AddressError::NotAName);
        }
        let name = String::from_str(alloc, name)?;
        Ok(Address { hosts, name })
    }
}
