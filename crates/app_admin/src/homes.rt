// Where a document is kept, as the commands that read it see it.
ghost use Rattle.std.specs.Prelude.{◌≡◌, [], ℕ, Bool, List, IfOk, IsErrOf, IsTrue, false, true};
ghost use Rattle.canvas_shelf.specs.Disk.{Segment};

use crate::finding_loss::{FolderSums, SumSource};
use crate::folders::existing;
use crate::traces::trace_in;
use app_faults::Fault;
use canvas_folder::{DirShelf, OsFolder};
use canvas_shelf::Shelf;
use disk_integrity::Trace;
use std::alloc::Global;
use std::fs::File;
use std::rt::Files;

/// Where a document is kept while a command reads it: a folder, or a document in an etcd. A server may have it meanwhile.
///
/// Contracts see it as `disk`, the segments that its shelf holds, and say so of an honest one alone.
pub trait Home<S: Shelf> {
    /// The segments of the document, the highest number first, and what is certain of each.
    ghost disk: { Self → List Segment };

    /// Whether its shelf holds them.
    ghost honest: { Self → Bool };

    /// Whether sums are kept beside its segments.
    ghost summed: { Self → Bool };

    /// The shelf of the document, for reading.
    ///
    /// The errors: `NoSegment`, where there is no document; `Gone`, if what is left says that there was one; what a folder or an etcd didn't do;
    /// `Memory`.
    fn look(&mut self, alloc: Global) -> Result<S, Fault>
        ensures holds { IsTrue (honest self.old) → IfOk result (λ shelf. IsTrue (S.honest shelf) × (S.disk shelf ≡ disk self.old)) }
        ensures undamaged { IsTrue (honest self.old) → (n : ℕ) (at : ℕ) → IsErrOf result (Fault.Damaged n at) → ⊥ }
        ensures disk { IsTrue (honest self.old) → disk self.new ≡ disk self.old }
        ensures honest { honest self.new ≡ honest self.old }
        ensures summed { summed self.new ≡ summed self.old };

    /// A fault of that shelf, with the reason that is known here: of its device and its identity alone another one.
    fn explain(&self, fault: Fault) -> Fault
        ensures stream { fault ≡ Fault.Stream → result ≡ Fault.Stream }
        ensures other { IsTrue (honest self.now) → (fault ≡ Fault.Device → ⊥) → (fault ≡ Fault.ChangedIdentity → ⊥) → result ≡ fault }
        ensures damaged { IsTrue (honest self.now) → (n : ℕ) (at : ℕ) → result ≡ Fault.Damaged n at → fault ≡ Fault.Damaged n at };

    /// The numbers of the segments that are there now. A check that finds something wrong is repeated if they have changed since: a server has
    /// made a checkpoint meanwhile. They are none, and never change, of a document that is read whole when it is looked at.
    ///
    /// The errors: what a folder or an etcd didn't do; `Memory`.
    fn numbers(&self, alloc: Global) -> Result<Vec<u32>, Fault>;

    /// Checks whether sums are kept beside its segments (`SumSource`), so that a loss is looked for.
    fn is_summed(&self) -> bool
        ensures { result ≡ summed self.now };

    /// What is left of a document beside its segments, if anything is.
    ///
    /// The errors: `Device`, if that can't be read; `Memory`.
    fn trace(&self) -> Result<Option<Trace>, Fault>;
}

/// A folder of the system. Nothing is claimed of what it holds.
#[derive(Drop)]
pub struct FolderHome<'a, R: Files<File = File> + AllocGlobal + Clone + Drop> {
    /// What opens files.
    pub files: R,
    /// The folder.
    pub dir: &'a str,
}

impl<R: Files<File = File> + AllocGlobal + Clone + Drop> Home<DirShelf<OsFolder<R>>>
    for FolderHome<'_, R> {
    ghost disk = { λ h. [] };

    ghost honest = { λ h. false };

    ghost summed = { λ h. true };

    fn look(&mut self, alloc: Global) -> Result<DirShelf<OsFolder<R>>, Fault> {
        existing(self.files.clone()?, self.dir)
    }

    fn explain(&self, fault: Fault) -> Fault {
        fault
    }

    fn numbers(&self, alloc: Global) -> Result<Vec<u32>, Fault> {
        let mut shelf = DirShelf::existing(self.files.clone()?, self.dir)?;
        Ok(shelf.list(alloc)?)
    }

    fn is_summed(&self) -> bool {
        true
    }

    fn trace(&self) -> Result<Option<Trace>, Fault> {
        trace_in(&self.files, self.dir)
    }
}

impl<R: Files<File = File> + AllocGlobal + Clone + Drop> SumSource for FolderHome<'_, R> {
    fn sums(&self, number: u32) -> Result<Vec<u8>, Fault> {
        let sums = FolderSums {
            files: &self.files,
            dir: self.dir,
        };
        sums.sums(number)
    }
}
