// A document in an etcd, as the commands that read or make one see it.
ghost use Rattle.std.specs.Prelude.{[], OnOk, false};
ghost use Rattle.app_admin.specs.Begun.{WritesImported};

use crate::opening::{Remote, existing, taken};
use app_admin::{Ground, Home, SumSource, begin_on, import, plant};
use app_faults::{Fault, of_document};
use app_identity::Address;
use app_storage::Held;
use canvas_judge::State;
use disk_integrity::Trace;
use etcd_store::Causes;
use std::alloc::Global;
use std::io::{Read, Write};
use std::net::{Net, TcpListener, TcpStream};
use std::random::RandomSource;
use std::sync::Wait;
use std::thread::Threads;
use std::time::Clock;

/// A document in an etcd, as a command reads it. It is read whole when it is looked at. Nothing is claimed of what the etcd holds.
#[derive(Drop)]
pub struct DocumentHome<'a, R: Drop> {
    net: &'a R,
    address: &'a Address,
    causes: Option<Causes>,
}

impl<'a, R> DocumentHome<'a, R>
where
    R: Net<Stream = TcpStream> + Clock + RandomSource + AllocGlobal + Clone + Drop,
{
    /// The document of this name. Nothing is asked yet.
    pub fn new(net: &'a R, address: &'a Address) -> Self {
        DocumentHome {
            net,
            address,
            causes: None,
        }
    }
}

impl<R> Home<Remote<R>> for DocumentHome<'_, R>
where
    R: Net<Stream = TcpStream> + Clock + RandomSource + AllocGlobal + Clone + Drop,
{
    ghost disk = { λ h. [] };

    ghost honest = { λ h. false };

    ghost summed = { λ h. false };

    fn look(&mut self, _alloc: Global) -> Result<Remote<R>, Fault> {
        let (shelf, causes) = existing(self.net, self.address)?;
        self.causes = Some(causes);
        Ok(shelf)
    }

    fn explain(&self, fault: Fault) -> Fault {
        let why = match &self.causes {
            Some(causes) => causes.last(),
            None => None,
        };
        of_document(fault, why)
    }

    fn numbers(&self, alloc: Global) -> Result<Vec<u32>, Fault> {
        Ok(Vec::new(alloc))
    }

    fn is_summed(&self) -> bool {
        false
    }

    fn trace(&self) -> Result<Option<Trace>, Fault> {
        Ok(None)
    }
}

// An etcd keeps what it was given, so there are none.
impl<R> SumSource for DocumentHome<'_, R>
where
    R: Net<Stream = TcpStream> + Clock + RandomSource + AllocGlobal + Clone + Drop,
{
    fn sums(&self, _number: u32) -> Result<Vec<u8>, Fault> {
        Ok(Vec::new(self.net.alloc()))
    }
}

/// A document in an etcd that a command has taken over, to put a new one there. Nothing is claimed of what the etcd holds.
struct NewDocument<'a, R>
where
    R: Net<Stream = TcpStream> + Clock + RandomSource + AllocGlobal + Clone + Drop,
{
    net: &'a R,
    held: Held<R>,
}

impl<R> Drop for NewDocument<'_, R>
where
    R: Net<Stream = TcpStream> + Clock + RandomSource + AllocGlobal + Clone + Drop,
{
    fn drop(self) {
        let NewDocument { net: _, held: _ } = self;
    }
}

impl<R> Ground for NewDocument<'_, R>
where
    R: Net<Stream = TcpStream> + Wait + Clock + RandomSource + AllocGlobal + Clone + Drop,
{
    ghost holds = { λ g s. Unit {0} };

    ghost honest = { λ g. false };

    // The document is let go at once, so that a server may have it as soon as its line is written.
    fn put(&mut self, state: &State, version: u64) -> Result<(), Fault> {
        let planted = plant(self.net.alloc(), &mut self.held.shelf, state, version);
        self.held.kept.release(self.net);
        match planted {
            Ok(()) => Ok(()),
            Err(fault) => Err(of_document(fault, self.held.causes.last())),
        }
    }
}

/// Makes a new document of the rows of an input, and then writes the version and how many objects there are. Whoever serves it first gives
/// it an identity.
///
/// The errors: those of `import`, and then nothing was asked of the etcd; `InUse`, where a server has the document; `Taken`, where it is
/// there already; `NoStore`, if the etcd didn't do what it was asked; `NoThread`; `TooLarge`, `Memory`, `Stream`.
pub fn import_document<R, I, W>(
    net: &R,
    address: &Address,
    input: &mut I,
    output: &mut W,
) -> Result<(), Fault>
where
    R: Net<Listener = TcpListener, Stream = TcpStream>
        + Threads
        + Wait
        + Clock
        + RandomSource
        + AllocGlobal
        + Clone
        + Send
        + Drop
        + 'static,
    I: Read,
    W: Write,
    ensures { OnOk result (WritesImported (I.remaining input.old) (I.remaining input.new) (W.contents output.old) (W.contents output.new)) }
{
    let alloc = net.alloc();
    let (state, version) = import(alloc, input)?;
    let held = taken(net, address)?;
    let mut ground = NewDocument { net, held };
    let done = begin_on(alloc, &mut ground, &state, version, output);
    // Where nothing was put, it wasn't let go either.
    ground.held.kept.release(net);
    done
}
