// The shelf of a document in an etcd.
use app_faults::{Fault, fault_of_etcd, of_document};
use app_identity::Address;
use app_storage::{Held, store_of, take_over};
use canvas_etcd::EtcdShelf;
use canvas_shelf::Shelf;
use etcd_store::{Causes, EtcdStore};
use std::net::{Net, TcpListener, TcpStream};
use std::random::RandomSource;
use std::sync::Wait;
use std::thread::Threads;
use std::time::Clock;

/// The shelf of a document in an etcd.
pub type Remote<R> = EtcdShelf<EtcdStore<R>>;

/// The shelf of a document that is there, for reading, and why calls of its store failed.
///
/// The errors: `NoSegment`, where there is no such document; `NoStore`, if the etcd didn't do what it was asked; `Memory`.
pub(crate) fn existing<R>(net: &R, address: &Address) -> Result<(Remote<R>, Causes), Fault>
where
    R: Net<Stream = TcpStream> + Clock + RandomSource + AllocGlobal + Clone + Drop,
{
    let alloc = net.alloc();
    let store = store_of(net, address)?;
    let causes = store.causes()?;
    let mut shelf = match EtcdShelf::open_for_reading(alloc, store) {
        Ok(shelf) => shelf,
        Err(error) => return Err(fault_of_etcd(error, causes.last())),
    };
    match shelf.list(alloc) {
        Ok(listed) if listed.is_empty() => Err(Fault::NoSegment),
        Ok(_) => Ok((shelf, causes)),
        Err(error) => Err(of_document(Fault::from(error), causes.last())),
    }
}

/// Takes a document over for a command, until its lease is released or the command has ended.
///
/// The errors: `InUse`, where a server has the document; `NoStore`, if the etcd didn't do what it was asked; `NoThread`; `Memory`.
pub(crate) fn taken<R>(net: &R, address: &Address) -> Result<Held<R>, Fault>
where
    R: Net<Listener = TcpListener, Stream = TcpStream>
        + Threads
        + Wait
        + Clock
        + RandomSource
        + AllocGlobal
        + Clone
        + Send
        + Drop
        + 'static,
{
    let store = store_of(net, address)?;
    take_over(net, store)
}
