// A transaction whose answer was lost.
ghost use Rattle.std.specs.Prelude.{◌≡◌, [], true, IfOk, OnOk};
ghost use Rattle.canvas_etcd.specs.Stores.{MayFind};
ghost use Rattle.memory_store.specs.Held.{held_content, lost_of};
ghost use Rattle.memory_store.specs.Sound.{numbers_fall};

use crate::held::{Held, put, remove};
use std::alloc::{AllocError, Global};

// A transaction whose answer was lost.
#[derive(Drop)]
pub(crate) enum Lost {
    // Bytes were to be put behind those of a segment.
    Put(u32, Vec<u8>),
    // A segment was to be deleted.
    Remove(u32),
}

impl Lost {
    ghost use Rattle.memory_store.specs.Held.{transaction};

    // The same once more.
    fn copy(&self, alloc: Global) -> Result<Lost, AllocError>
        ensures { IfOk result (λ l. transaction l ≡ transaction self.now) }
    {
        match self {
            Lost::Put(number, bytes) => Ok(Lost::Put(*number, bytes.to_vec(alloc)?)),
            Lost::Remove(number) => Ok(Lost::Remove(*number)),
        }
    }
}

// The same once more.
pub(crate) fn copy_lost(alloc: Global, lost: &Option<Lost>) -> Result<Option<Lost>, AllocError>
    ensures { IfOk result (λ l. lost_of l ≡ lost_of lost.now) }
{
    match lost {
        Some(transaction) => Ok(Some(transaction.copy(alloc)?)),
        None => Ok(None),
    }
}

// Does a transaction whose answer was lost, if there is one.
pub(crate) fn finish(
    alloc: Global,
    lost: &Option<Lost>,
    held: &mut Vec<Held>,
) -> Result<(), AllocError>
    requires { numbers_fall (held_content held.old.items) ≡ true }
    ensures found { OnOk result (MayFind (record { held = held_content held.old.items; unanswered = lost_of lost.now; disk = [] }) (held_content held.new.items)) }
    ensures falls { numbers_fall (held_content held.new.items) ≡ true }
{
    match lost {
        Some(Lost::Put(number, bytes)) => put(alloc, held, *number, bytes),
        Some(Lost::Remove(number)) => {
            remove(held, *number);
            Ok(())
        }
        None => Ok(()),
    }
}
