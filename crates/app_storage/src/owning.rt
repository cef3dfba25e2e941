// A document in an etcd that is taken over.
ghost use Rattle.std.specs.Prelude.{◌≡◌, ◌⊎◌, ℕ, IfErr};
ghost use Rattle.app_storage.specs.Faults.{IsOpeningFault, IsThreadFault};

use crate::leasing::{KeptLease, LEASE_SECONDS, Term};
use app_faults::{Fault, fault_of_etcd};
use app_identity::Address;
use canvas_etcd::EtcdShelf;
use etcd_gateway::copy_hosts;
use etcd_store::{Causes, EtcdStore, Lease, StoreError};
use std::net::{Net, TcpListener, TcpStream};
use std::random::RandomSource;
use std::sync::Wait;
use std::thread::Threads;
use std::time::Clock;

/// The store of a document. Nothing is asked yet.
pub fn store_of<R>(net: &R, address: &Address) -> Result<EtcdStore<R>, Fault>
where
    R: Net<Stream = TcpStream> + Clock + RandomSource + AllocGlobal + Clone + Drop,
    ensures { IfErr result (λ fault. fault ≡ Fault.Memory) }
{
    let hosts = copy_hosts(net.alloc(), &address.hosts)?;
    let name = address.name.as_bytes();
    Ok(EtcdStore::new(net.clone()?, hosts, name, LEASE_SECONDS)?)
}

/// A document in an etcd that this process has taken over.
#[derive(Drop)]
pub struct Held<R>
where
    R: Net<Stream = TcpStream> + Clock + RandomSource + AllocGlobal + Clone + Drop,
{
    /// Its shelf, for writing.
    pub shelf: EtcdShelf<EtcdStore<R>>,
    /// Why calls of its store failed.
    pub causes: Causes,
    /// The lease, to ask for the identity.
    pub lease: Lease<R>,
    /// The same lease, which a thread keeps alive.
    pub kept: KeptLease,
}

/// Takes the document of a store over, until its lease is released or the process has ended. A thread keeps the lease alive.
///
/// The errors: `InUse`, where another has the document; `NoStore`, if the etcd didn't do what it was asked; `NoThread`; `Memory`.
pub fn take_over<R>(net: &R, store: EtcdStore<R>) -> Result<Held<R>, Fault>
where
    R: Net<Listener = TcpListener, Stream = TcpStream>
        + Threads
        + Wait
        + Clock
        + RandomSource
        + AllocGlobal
        + Clone
        + Send
        + Drop
        + 'static,
    ensures { IfErr result (λ fault. ((workers : ℕ) → IsOpeningFault workers fault) ⊎ IsThreadFault fault) }
{
    let causes = store.causes()?;
    let lease = store.lease()?;
    let term = Term::new(net);
    let shelf = match EtcdShelf::open(net.alloc(), store) {
        Ok(shelf) => shelf,
        Err(error) => {
            if matches!(causes.last(), Some(StoreError::Damaged | StoreError::Lost)) {
                // No server must wait for the end of a lease under which nothing can be opened, or isn't any more.
                let _ = lease.release();
            }
            return Err(fault_of_etcd(error, causes.last()));
        }
    };
    let kept = KeptLease::new(net, term, lease.another()?)?;
    Ok(Held {
        shelf,
        causes,
        lease,
        kept,
    })
}
