// An etcd as a store: the one part that claims nothing.
ghost use Rattle.std.specs.Prelude.{◌≡◌, [], false, None, IsErr, IfOk};
ghost use Rattle.canvas_shelf.specs.Moments.{CountsFailure};

use crate::causes::Causes;
use crate::document::Document;
use crate::error::StoreError;
use crate::lease::Lease;
use canvas_etcd::{ShelfChange, Standing, Store};
use canvas_shelf::{DeviceFailed, ShelfError};
use etcd_gateway::Host;
use std::alloc::{AllocError, Allocator, Global};
use std::marker::Model;
use std::net::{Net, TcpStream};
use std::random::RandomSource;
use std::time::Clock;

/// A document's segments in an etcd, by its gateway (JSON over HTTP/1.1, without TLS). No contract says what a network does, so it claims
/// nothing. Contracts see it as how many of its calls have failed.
///
/// The endpoints are members of one etcd, and which is asked first is a matter of chance. One has at most 5 seconds to take a connection
/// and a request and to answer it; then the next one is asked. A call takes 9 seconds at most, beside what the system takes to find the
/// address of a host's name. Within these, a transaction is asked again and again.
///
/// Who owns a document holds the key `lugcurrant/NAME/owner`, which goes with a lease of so many seconds as it was
/// made with. Keep that alive by [`Self::lease`].
/// The number of an owner is that of its lease. The key's value is that number and the number of the owner's last transaction: each
/// transaction compares it with what the one before wrote, and writes its own. So none is done twice; one whose answer was lost is asked
/// again, and told as done if the key says so; and a key that was deleted or put back is noticed by the next one.
/// Reading a segment asks afterwards what the key says. A store that never took over reads what stood at the revision at which
/// it looked, so an etcd that forgets old revisions must keep them for as long as that takes.
pub struct EtcdStore<
    R: Net<Stream = TcpStream> + Clock + RandomSource + AllocGlobal + Clone + Drop,
> {
    // On the heap, so that who holds a store holds little.
    document: Box<Document<R>>,
    causes: Causes,
    failures: u64,
}

impl<R: Net<Stream = TcpStream> + Clock + RandomSource + AllocGlobal + Clone + Drop> Drop
    for EtcdStore<R> {
    fn drop(self) {
        let EtcdStore {
            document: _,
            causes: _,
            failures: _,
        } = self;
    }
}

impl<R: Net<Stream = TcpStream> + Clock + RandomSource + AllocGlobal + Clone + Drop> Model
    for EtcdStore<R> {
    ghost use Rattle.std.specs.Prelude.{ℕ};
    ghost use Rattle.std.specs.Coded.{codes};

    ghost Value = { ℕ };

    ghost coded = { Prim.hlevel codes };

    ghost view = { λ s. s.failures };
}

impl<R: Net<Stream = TcpStream> + Clock + RandomSource + AllocGlobal + Clone + Drop> EtcdStore<R> {
    /// The store of the document of this name, which `is_name` of `etcd_gateway` allows, by these endpoints. If it takes the document
    /// over, its lease ends after so many seconds in which nobody keeps it alive. Nothing is asked yet.
    ///
    /// Fails if memory runs out.
    pub fn new(
        net: R,
        hosts: Vec<Host>,
        name: &[u8],
        lease_seconds: u64,
    ) -> Result<Self, AllocError>
        ensures failures { IfOk result (λ s. ⟦<EtcdStore<R> as Store>⟧.failure_count s ≡ 0) }
    {
        let alloc = net.alloc();
        let causes = Causes::new(alloc)?;
        let document = Document::new(net, hosts, name, lease_seconds)?;
        match Box::new(alloc, document) {
            Ok(document) => Ok(EtcdStore {
                document,
                causes,
                failures: 0,
            }),
            Err(_) => Err(AllocError),
        }
    }

    /// The lease, once the document was taken over, for a thread that keeps it alive.
    ///
    /// Fails if memory runs out.
    pub fn lease(&self) -> Result<Lease<R>, AllocError> {
        self.document.lease()
    }

    /// Why its calls failed, for who is told no more than that they did. Errors: out of memory.
    pub fn causes(&self) -> Result<Causes, AllocError> {
        self.causes.share()
    }

    /// Checks whether somebody owns the document now.
    ///
    /// `Unreachable`, `Unanswered`, `Refused` or `TlsWanted` where no endpoint told. `Memory` if memory runs out.
    pub fn is_owned(&mut self) -> Result<bool, StoreError>
        ensures { self.new ≡ self.old }
    {
        self.document.is_owned()
    }

    // Counts a failure, and notes its cause.
    fn fail(&mut self, cause: StoreError) -> DeviceFailed
        ensures { CountsFailure self.old self.new (Unit {0}) }
    {
        self.causes.note(cause);
        self.failures = self.failures.saturating_add(1);
        DeviceFailed
    }

    // A failure without its cause.
    fn told<T: Drop>(&mut self, done: Result<T, StoreError>) -> Result<T, DeviceFailed>
        ensures { CountsFailure self.old self.new (IsErr result) }
    {
        match done {
            Ok(value) => Ok(value),
            Err(error) => Err(self.fail(error)),
        }
    }

    // Out of memory is reported as such, and all else is a failure.
    fn tell(&mut self, error: StoreError) -> ShelfError
        ensures { CountsFailure self.old self.new (result ≡ ShelfError.Device) }
    {
        if error == StoreError::Memory {
            ShelfError::Memory
        } else {
            self.fail(error);
            ShelfError::Device
        }
    }
}

impl<R: Net<Stream = TcpStream> + Clock + RandomSource + AllocGlobal + Clone + Drop> Store
    for EtcdStore<R> {
    ghost use Rattle.std.proofs.lemmas.Bool.{false≢true};
    ghost use Rattle.canvas_etcd.specs.Stores.{Stored};

    ghost value = { λ s. record { held = []; unanswered = None; disk = [] } };

    ghost past = { λ s. [] };

    ghost honest = { λ s. false };

    ghost owner = { λ s. false };

    ghost failure_count = { λ s. s };

    ghost sound = { λ s h. absurd (false≢true h) };

    fn take_over(&mut self) -> Result<bool, DeviceFailed> {
        let done = self.document.take_over();
        self.told(done)
    }

    fn look(&mut self) -> Result<(), DeviceFailed> {
        let done = self.document.look();
        self.told(done)
    }

    fn list(&mut self, alloc: Global) -> Result<Vec<Standing>, ShelfError> {
        match Vec::from_slice(alloc, self.document.segments()) {
            Ok(segments) => Ok(segments),
            Err(_) => Err(ShelfError::Memory),
        }
    }

    fn read<A: Allocator>(&mut self, alloc: A, number: u32) -> Result<Vec<u8, A>, ShelfError> {
        let mut bytes = Vec::new(alloc);
        match self.document.read(number, &mut bytes) {
            Ok(()) => Ok(bytes),
            Err(e) => Err(self.tell(e)),
        }
    }

    fn put(&mut self, number: u32, at: u64, bytes: &[u8]) -> Result<(), DeviceFailed> {
        let done = self.document.put(number, at, bytes);
        self.told(done)
    }

    fn remove(&mut self, number: u32) -> Result<(), DeviceFailed> {
        let done = self.document.remove(number);
        self.told(done)
    }

    fn note(
        &mut self,
        _change: ShelfChange,
        _number: u32,
        _bytes: &[u8],
    ) -> Result<(), DeviceFailed> {
        Ok(())
    }

    fn failures(&self) -> u64 {
        self.failures
    }
}
