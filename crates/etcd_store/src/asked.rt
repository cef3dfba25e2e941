// What is asked of an etcd, and what it tells.
use etcd_gateway::{
    Committed, Expected, Found, GatewayError, Host, KeyChange, Keys, Lease, ask_commit, ask_grant,
    ask_keep_alive, ask_range, ask_revoke, read_committed, read_found, read_granted, read_kept,
};
use std::alloc::{AllocError, Global};

// What is asked of an etcd, by whichever endpoint. Each may be asked again where no answer came: a grant leaves a lease that ends by
// itself, and changes that were made are refused, since they have made the owner's key another.
#[derive(Clone, Copy)]
pub(crate) enum EtcdCall<'a> {
    // So many of these keys, as they stood at this revision.
    Names(&'a Keys, u64, u64),
    // The same with their values.
    Values(&'a Keys, u64, u64),
    // These changes, where this key holds what is expected.
    Commit(&'a [u8], Expected<'a>, &'a [KeyChange<'a>]),
    // A lease of so many seconds.
    Grant(u64),
    // That this lease goes on.
    KeepAlive(u64),
    // That this lease ends.
    Revoke(u64),
}

// What an etcd tells who asks it.
#[derive(Drop)]
pub(crate) enum EtcdAnswer {
    // The keys that were found.
    Found(Found),
    // Whether changes were made.
    Committed(Committed),
    // A lease that was granted or goes on.
    Lease(Lease),
    // That it was done.
    Nothing,
}

impl<'a> EtcdCall<'a> {
    // How often all endpoints are asked in turn, while there is time. Changes are waited for: who makes them ends where they fail.
    pub(crate) fn rounds(&self) -> u32 {
        match self {
            EtcdCall::Commit(..) => 40,
            _ => 2,
        }
    }

    // The request, as bytes.
    pub(crate) fn write(&self, alloc: Global, host: &Host) -> Result<Vec<u8>, AllocError> {
        match *self {
            EtcdCall::Names(keys, limit, revision) => {
                ask_range(alloc, host, keys, limit, true, revision)
            }
            EtcdCall::Values(keys, limit, revision) => {
                ask_range(alloc, host, keys, limit, false, revision)
            }
            EtcdCall::Commit(key, expected, changes) => {
                ask_commit(alloc, host, key, expected, changes)
            }
            EtcdCall::Grant(seconds) => ask_grant(alloc, host, seconds),
            EtcdCall::KeepAlive(lease) => ask_keep_alive(alloc, host, lease),
            EtcdCall::Revoke(lease) => ask_revoke(alloc, host, lease),
        }
    }

    // What the body of an answer tells.
    pub(crate) fn read(&self, alloc: Global, body: &[u8]) -> Result<EtcdAnswer, GatewayError> {
        Ok(match self {
            EtcdCall::Names(..) | EtcdCall::Values(..) => EtcdAnswer::Found(read_found(
                alloc, body,
            )?),
            EtcdCall::Commit(..) => EtcdAnswer::Committed(read_committed(alloc, body)?),
            EtcdCall::Grant(_) => EtcdAnswer::Lease(read_granted(alloc, body)?),
            EtcdCall::KeepAlive(_) => EtcdAnswer::Lease(read_kept(alloc, body)?),
            EtcdCall::Revoke(_) => EtcdAnswer::Nothing,
        })
    }
}
