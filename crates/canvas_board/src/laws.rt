// What follows for a caller.
ghost use Rattle.std.specs.Prelude.{◌≡◌, ◌<◌, IfOk, MatchOption, Some, slice_get};

use crate::{Reader, Receipt, RoomName, SeatError};
use canvas_forms::SharedEntry;
use std::alloc::Global;

/// Learns a receipt, and reads the tail from the version before: it begins with the receipt's entry, or is none because a checkpoint
/// has passed it. Never blocks.
pub fn read_back<N: RoomName>(
    reader: &mut Reader<N>,
    alloc: Global,
    receipt: Receipt<N>,
    at_most: u64,
) -> Result<Option<Vec<SharedEntry>>, SeatError>
    requires { 0 < at_most }
    ensures { IfOk result (λ tail. MatchOption tail (Unit {0}) (λ entries. slice_get entries.items 0 ≡ Some receipt.entry)) }
{
    let before = receipt.before();
    reader.learn(receipt);
    reader.tail(alloc, before, at_most)
}
