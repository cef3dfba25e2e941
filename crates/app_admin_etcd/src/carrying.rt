// A document that goes from one shelf to another.
ghost use Rattle.std.specs.Prelude.{◌≡◌, true, IfOk, IsTrue};
ghost use Rattle.canvas_shelf.specs.Disk.{top_is_listed};
ghost use Rattle.app_admin_etcd.specs.Carried.{IsCarried};

use app_admin::plant;
use app_faults::Fault;
use canvas_journal::look;
use canvas_judge::State;
use canvas_shelf::Shelf;
use std::alloc::Global;

/// Puts the document that a shelf holds into another, which lists no segment, with its version and all that clients have had acknowledged:
/// what is found there afterwards, also after a crash, is what is found here. Writes nothing to the first. Answers what that is.
///
/// The errors: `Taken`, where the other lists a segment, and then nothing was written; `TooLarge`, where the checkpoint can't be written;
/// `Device`, where a device failed; `Damaged`, where the first is no journal; `Memory`.
pub fn carry<S: Shelf, T: Shelf>(
    alloc: Global,
    from: &mut S,
    to: &mut T,
) -> Result<(State, u64), Fault>
    requires { IsTrue (T.honest to.old) → top_is_listed (T.disk to.old) ≡ true }
    ensures carried { IsTrue (S.honest from.old) → IsTrue (T.honest to.old) → IfOk result (λ s. IsCarried (S.disk from.old) (T.disk to.new) (s.0, s.1)) }
    ensures unchanged { IsTrue (S.honest from.old) → (S.disk from.new ≡ S.disk from.old) × (S.past from.new ≡ S.past from.old) }
{
    let (state, version) = look(alloc, from)?;
    plant(alloc, to, &state, version)?;
    Ok((state, version))
}
