// The values of owners' keys.
ghost use Rattle.std.specs.Prelude.{◌≡◌, IfOk};
ghost use Rattle.etcd_gateway.specs.Owners.{EachValueIsOneTurn, owner_value};

use std::alloc::{AllocError, Global};

/// The value of an owner's key: who owns the document, by the number of a lease, and by which of the owner's transactions it was written.
///
/// Errors: out of memory.
pub fn owner_value(alloc: Global, lease: u64, number: u64) -> Result<Vec<u8>, AllocError>
    ensures { IfOk result (λ value. value.items ≡ owner_value lease number) }
{
    let text = format!(in alloc; "{lease} {number}")?;
    Ok(text.into_bytes())
}

/// A law: the values of two owners differ, and those of two transactions of one owner.
pub fn every_owner_value()
    ensures { EachValueIsOneTurn }
{}
