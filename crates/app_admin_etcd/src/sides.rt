// The two sides of a move: a folder, and a document in an etcd.
ghost use Rattle.std.specs.Prelude.{◌≡◌, Bool, IfOk, IsTrue, List, MatchOption, None, OnOk, Option, Some, false, ℕ};

use app_faults::{Fault, fault_of_cause};
use app_identity::{IdentityError, identity_in, keep_identity, read_identity, remove_identity};
use etcd_store::{Causes, Lease, StoreError};
use std::alloc::{AllocError, Global};
use std::fs::File;
use std::net::{Net, TcpStream};
use std::random::RandomSource;
use std::rt::Files;
use std::time::Clock;

/// Why a document wasn't moved, or not wholly, and which of its places it is of.
#[derive(Clone, Copy, Debug, PartialEq, Eq)]
pub enum MoveFault {
    /// It is of the folder.
    Folder(Fault),
    /// It is of the document in the etcd.
    Document(Fault),
}

impl From<AllocError> for MoveFault {
    fn from(_: AllocError) -> MoveFault {
        MoveFault::Folder(Fault::Memory)
    }
}

impl From<IdentityError> for MoveFault {
    fn from(error: IdentityError) -> MoveFault {
        MoveFault::Folder(Fault::from(error))
    }
}

impl From<StoreError> for MoveFault {
    fn from(error: StoreError) -> MoveFault {
        MoveFault::Document(Fault::from(error))
    }
}

/// A place that a document is moved from or to, beside its shelf: its identity, and whose a fault is. Nobody else has it meanwhile.
///
/// Contracts see it as `held`, its identity, and say so of an honest one alone.
pub(crate) trait Side {
    /// The text of the document's identity, if it has one.
    ghost held: { Self → Option (List ℕ) };

    /// It holds what it was given.
    ghost honest: { Self → Bool };

    /// The text of the document's identity, if it has one.
    fn identity(&mut self) -> Result<Option<Vec<u8>>, MoveFault>
        ensures found { IsTrue (honest self.old) → IfOk result (λ found. MatchOption found (held self.old ≡ None) (λ text. held self.old ≡ Some text.items)) }
        ensures same { IsTrue (honest self.old) → held self.new ≡ held self.old }
        ensures honest { honest self.new ≡ honest self.old };

    /// Takes the identity away.
    fn remove_identity(&mut self) -> Result<(), MoveFault>
        ensures removed { IsTrue (honest self.old) → OnOk result (held self.new ≡ None) }
        ensures honest { honest self.new ≡ honest self.old };

    /// Gives the document an identity, of this text, which came from the other side: a text that is none is that side's fault.
    fn keep_identity(&mut self, text: &[u8]) -> Result<(), MoveFault>
        ensures kept { IsTrue (honest self.old) → OnOk result (held self.new ≡ Some text.now) }
        ensures honest { honest self.new ≡ honest self.old };

    /// A fault of this side.
    fn fault(&self, fault: Fault) -> MoveFault;

    /// The fault of the last call of its shelf that failed, if that was noted.
    fn noted(&self) -> Option<MoveFault>;
}

/// A folder that is locked. Nothing is claimed of what it holds.
#[derive(Drop)]
pub(crate) struct FolderSide<D: Files<File = File> + AllocGlobal + Drop> {
    /// What opens files.
    pub(crate) files: D,
    /// The path by which its other files are reached.
    pub(crate) path: String,
}

impl<D: Files<File = File> + AllocGlobal + Drop> Side for FolderSide<D> {
    ghost held = { λ s. None };

    ghost honest = { λ s. false };

    fn identity(&mut self) -> Result<Option<Vec<u8>>, MoveFault> {
        match read_identity(&self.files, &self.path)? {
            Some(text) => Ok(Some(Vec::from_slice(self.files.alloc(), text.as_bytes())?)),
            None => Ok(None),
        }
    }

    fn remove_identity(&mut self) -> Result<(), MoveFault> {
        remove_identity(&self.files, &self.path)?;
        Ok(())
    }

    fn keep_identity(&mut self, text: &[u8]) -> Result<(), MoveFault> {
        let identity = identity_of(self.files.alloc(), text)?;
        keep_identity(&self.files, &self.path, &identity)?;
        Ok(())
    }

    fn fault(&self, fault: Fault) -> MoveFault {
        MoveFault::Folder(fault)
    }

    fn noted(&self) -> Option<MoveFault> {
        None
    }
}

// The identity that a text of the etcd is.
fn identity_of(alloc: Global, text: &[u8]) -> Result<String, MoveFault> {
    let Ok(text) = str::from_utf8(text) else {
        return Err(MoveFault::Document(Fault::Identity));
    };
    match identity_in(alloc, text) {
        Ok(identity) => Ok(identity),
        Err(IdentityError::Memory) => Err(MoveFault::Document(Fault::Memory)),
        Err(_) => Err(MoveFault::Document(Fault::Identity)),
    }
}

/// A document in an etcd that is taken over. Nothing is claimed of what the etcd holds.
pub(crate) struct DocumentSide<R>
where
    R: Net<Stream = TcpStream> + Clock + RandomSource + AllocGlobal + Clone + Drop,
{
    /// Why calls of its store failed.
    pub(crate) causes: Causes,
    /// The lease, to ask for the identity.
    pub(crate) lease: Lease<R>,
}

impl<R> Drop for DocumentSide<R>
where
    R: Net<Stream = TcpStream> + Clock + RandomSource + AllocGlobal + Clone + Drop,
{
    fn drop(self) {
        let DocumentSide {
            causes: _,
            lease: _,
        } = self;
    }
}

impl<R> Side for DocumentSide<R>
where
    R: Net<Stream = TcpStream> + Clock + RandomSource + AllocGlobal + Clone + Drop,
{
    ghost held = { λ s. None };

    ghost honest = { λ s. false };

    fn identity(&mut self) -> Result<Option<Vec<u8>>, MoveFault> {
        Ok(self.lease.identity()?)
    }

    fn remove_identity(&mut self) -> Result<(), MoveFault> {
        self.lease.remove_identity()?;
        Ok(())
    }

    fn keep_identity(&mut self, text: &[u8]) -> Result<(), MoveFault> {
        self.lease.set_identity(text)?;
        Ok(())
    }

    fn fault(&self, fault: Fault) -> MoveFault {
        MoveFault::Document(fault)
    }

    fn noted(&self) -> Option<MoveFault> {
        match self.causes.last() {
            None => None,
            why => Some(MoveFault::Document(fault_of_cause(why))),
        }
    }
}
