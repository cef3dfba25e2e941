// How many changes are of an object: counts by id.
ghost use Rattle.std.specs.Prelude.{◌≡◌, ◌<◌, true, OnOk, OnErr};
ghost use Rattle.std.specs.Map.{count_at};
ghost use Rattle.canvas_model.specs.declared.ObjId.{ObjId as Id};
ghost use Rattle.canvas_pending.specs.Tallied.{HasNoZero, IsOneMore, IsSame, is_it, of_objects};

use canvas_doc::ObjId;
use std::alloc::{AllocError, Allocator};
use std::collections::BTreeMap;

/// How often each object was counted.
pub type Objects<A> = BTreeMap<ObjId, u64, A>;

/// How often the object was counted.
pub fn count<A: Allocator>(objects: &Objects<A>, id: ObjId) -> u64
    ensures { result ≡ count_at (of_objects objects.now) id }
{
    objects.get(&id).copied().unwrap_or(0)
}

/// Counts the object once more, unless it is the root, which is never counted. If memory runs out, nothing has changed.
pub fn raise<A: Allocator + Copy>(objects: &mut Objects<A>, id: ObjId) -> Result<(), AllocError>
    requires { HasNoZero (of_objects objects.old) }
    ensures ok { OnOk result (IsOneMore (is_it id) (of_objects objects.old) (of_objects objects.new)) }
    ensures err { OnErr result (IsSame (of_objects objects.old) (of_objects objects.new)) }
    ensures no_zero { HasNoZero (of_objects objects.new) }
{
    if id == ObjId::ROOT {
        return Ok(());
    }
    let Some(more) = count(objects, id).checked_add(1) else {
        return Err(AllocError);
    };
    objects.insert(id, more)?;
    Ok(())
}

/// Counts the object once less, unless it is the root; it must have been counted. Takes no memory.
pub fn lower<A: Allocator + Copy>(objects: &mut Objects<A>, id: ObjId)
    requires counted { (q : Id) → is_it id q ≡ true → 0 < count_at (of_objects objects.old) q }
    requires no_zero { HasNoZero (of_objects objects.old) }
    ensures lowered { IsOneMore (is_it id) (of_objects objects.new) (of_objects objects.old) }
    ensures no_zero { HasNoZero (of_objects objects.new) }
{
    if id == ObjId::ROOT {
        return;
    }
    let count = count(objects, id);
    if count == 1 {
        objects.remove(&id);
        return;
    }
    if objects.insert(id, count - 1).is_err() {
        unreachable!()
    }
}
