// Whose turn it is to change a document, for all handles of one owner.
ghost use Rattle.std.specs.Prelude.{◌≡◌, ◌↔◌, IfErr, IfOk, IsOk, true};
ghost use Rattle.etcd_gateway.specs.Answers.{seen_committed};
ghost use Rattle.etcd_store.specs.Judging.{is_done, is_held, is_of};

use crate::error::StoreError;
use canvas_etcd::{OwnerMark, Turn};
use etcd_gateway::{Committed, owner_value};
use std::alloc::{AllocError, Global};
use std::sync::Arc;
use std::sync::atomic::{AtomicBool, AtomicU64, Ordering};

// The cells.
#[derive(Drop)]
struct Cells {
    // The number of the lease under which the document was taken over, or 0.
    lease: AtomicU64,
    // The highest number that was given to a transaction.
    begun: AtomicU64,
    // That of the last transaction that was done.
    done: AtomicU64,
    // True once the lease was released.
    is_released: AtomicBool,
}

// The transactions of an owner, numbered for all its handles. Of two that are under way at once, one is refused.
pub(crate) struct Turns {
    cells: Arc<Cells, Global>,
}

impl Drop for Turns {
    fn drop(self) {
        let Turns { cells: _ } = self;
    }
}

impl Turns {
    // Nobody has taken the document over yet.
    pub(crate) fn new(alloc: Global) -> Result<Turns, AllocError> {
        let cells = Cells {
            lease: AtomicU64::new(0),
            begun: AtomicU64::new(0),
            done: AtomicU64::new(0),
            is_released: AtomicBool::new(false),
        };
        Ok(Turns {
            cells: Arc::new(alloc, cells)?,
        })
    }

    // The same turns, for another handle.
    pub(crate) fn share(&self) -> Result<Turns, AllocError> {
        Ok(Turns {
            cells: Arc::try_clone(&self.cells)?,
        })
    }

    // The number of the lease, or 0 where the document wasn't taken over.
    pub(crate) fn lease(&self) -> u64 {
        self.cells.lease.load(Ordering::SeqCst)
    }

    // What the owner's key says, if the document was taken over.
    pub(crate) fn mark(&self) -> Option<OwnerMark> {
        match self.lease() {
            0 => None,
            owner => Some(OwnerMark {
                owner,
                number: self.cells.done.load(Ordering::SeqCst),
            }),
        }
    }

    // The lease is released: no handle of this owner reads a chunk or begins a transaction from now on.
    pub(crate) fn release(&self) {
        self.cells.is_released.store(true, Ordering::SeqCst);
    }

    // `Lost` if the lease was released.
    pub(crate) fn require_unreleased(&self) -> Result<(), StoreError> {
        if self.cells.is_released.load(Ordering::SeqCst) {
            return Err(StoreError::Lost);
        }
        Ok(())
    }

    // The next turn, with a number that no other has. `Lost` where the document wasn't taken over, or the lease was released.
    pub(crate) fn next(&self) -> Result<Turn, StoreError> {
        self.require_unreleased()?;
        let Some(last) = self.mark() else {
            return Err(StoreError::Lost);
        };
        let begun = self.cells.begun.fetch_add(1, Ordering::SeqCst);
        Turn::after(last, begun).ok_or(StoreError::Lost)
    }

    // A turn was done. Where it was a takeover, its owner's turns begin.
    pub(crate) fn did(&self, turn: Turn) {
        self.cells.done.store(turn.to.number, Ordering::SeqCst);
        if turn.from.is_none() {
            self.cells.begun.store(turn.to.number, Ordering::SeqCst);
            self.cells.lease.store(turn.to.owner, Ordering::SeqCst);
        }
    }
}

// The value of the owner's key that says this.
pub(crate) fn value_of(alloc: Global, mark: OwnerMark) -> Result<Vec<u8>, AllocError> {
    owner_value(alloc, mark.owner, mark.number)
}

// Checks whether this value of an owner's key is one of this lease's.
pub(crate) fn is_of(alloc: Global, lease: u64, value: &[u8]) -> Result<bool, AllocError>
    ensures { IfOk result (λ is. is ≡ is_of lease value.now) }
{
    let front = format!(in alloc; "{lease} ")?;
    Ok(value.starts_with(front.as_bytes()))
}

// `Lost`, where the changes weren't made: the owner's key says something else than they write there.
pub(crate) fn judge(committed: &Committed, value: &[u8]) -> Result<(), StoreError>
    ensures told { IsOk result ↔ (is_done (seen_committed committed.now) value.now ≡ true) }
    ensures lost { IfErr result (λ error. error ≡ StoreError.Lost) }
{
    if committed.done || is_held(committed, value) {
        Ok(())
    } else {
        Err(StoreError::Lost)
    }
}

// Checks whether the key that was read in place of changes has this value.
fn is_held(committed: &Committed, value: &[u8]) -> bool
    ensures { result ≡ is_held (seen_committed committed.now) value.now }
{
    match committed.found.first() {
        Some(pair) => pair.value.as_slice() == value,
        None => false,
    }
}
