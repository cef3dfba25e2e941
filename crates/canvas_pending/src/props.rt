// How many changes are of a property of an object: counts by id and name.
ghost use Rattle.std.specs.Prelude.{◌≡◌, ◌<◌, ℕ, List, true, OnOk, OnErr, T};
ghost use Rattle.std.specs.FinMap as map;
ghost use Rattle.std.specs.Map.{count_at};
ghost use Rattle.std.specs.Ordering.{is_lt};
ghost use Rattle.canvas_model.specs.declared.ObjId.{ObjId as Id};
ghost use Rattle.canvas_pending.specs.Tallied.{HasNoZero, IsOneMore, is_prop, of_props, prop_cmp};

use canvas_blocks::BlockList;
use canvas_doc::{Name, ObjId};
use std::alloc::{AllocError, Allocator};
use std::cmp::Ordering;

/// How often each property of an object was counted, in the order of the ids and names.
pub type Props<A> = BlockList<((ObjId, Name<A>), u64), A>;

// The order of a property and the one that is asked for, whose name may stand under another allocator.
fn compare<A: Allocator, B: Allocator>(
    prop: &(ObjId, Name<A>),
    id: ObjId,
    name: &Name<B>,
) -> Ordering
    ensures { result ≡ prop_cmp prop.now (id, name.now) }
{
    match prop.0.cmp(&id) {
        Ordering::Less => Ordering::Less,
        Ordering::Equal => prop.1.compare(name),
        Ordering::Greater => Ordering::Greater,
    }
}

/// How often the property was counted.
pub fn count<A: Allocator, B: Allocator>(props: &Props<A>, id: ObjId, name: &Name<B>) -> u64
    requires { T (map.is_sorted prop_cmp props.now) }
    ensures { result ≡ count_at (of_props props.now) (id, name.now) }
{
    let tally = props.after_edge(
        |tally: &((ObjId, Name<A>), u64)| -> bool
            ensures { result ≡ is_lt (prop_cmp tally.now.0 (id, name.entry.now)) }
        { compare(&tally.0, id, name).is_lt() },
    );
    match tally {
        Some(tally) => {
            if compare(&tally.0, id, name).is_eq() {
                tally.1
            } else {
                0
            }
        }
        None => 0,
    }
}

/// Counts the property once more. If memory runs out, nothing has changed.
pub fn raise<A: Allocator + Copy>(
    props: &mut Props<A>,
    id: ObjId,
    name: &Name<A>,
) -> Result<(), AllocError>
    requires sorted { T (map.is_sorted prop_cmp props.old) }
    requires no_zero { HasNoZero (of_props props.old) }
    ensures ok { OnOk result (IsOneMore (is_prop id name.now) (of_props props.old) (of_props props.new)) }
    ensures err { OnErr result (props.new ≡ props.old) }
    ensures sorted { T (map.is_sorted prop_cmp props.new) }
    ensures no_zero { HasNoZero (of_props props.new) }
{
    let key = (id, name.copy_in(props.allocator())?);
    let Some(more) = count(props, id, name).checked_add(1) else {
        return Err(AllocError);
    };
    if more == 1 {
        return props.insert_at_edge(
            |tally: &((ObjId, Name<A>), u64)| -> bool
                ensures { result ≡ is_lt (prop_cmp tally.now.0 (id, name.entry.now)) }
            { compare(&tally.0, id, name).is_lt() },
            (key, 1),
        );
    }
    put_count(props, id, name, more);
    Ok(())
}

// Gives the property, which was counted, this count.
fn put_count<A: Allocator + Copy>(props: &mut Props<A>, id: ObjId, name: &Name<A>, count: u64)
    requires sorted { T (map.is_sorted prop_cmp props.old) }
    requires counted { 0 < count_at (of_props props.old) (id, name.now) }
    ensures { props.new ≡ map.put prop_cmp (id, name.now) count props.old }
{
    let _ = props.replace_value_at_edge(
        |tally: &((ObjId, Name<A>), u64)| -> bool
            ensures { result ≡ is_lt (prop_cmp tally.now.0 (id, name.entry.now)) }
        { compare(&tally.0, id, name).is_lt() },
        count,
    );
}

/// Counts the property once less; it must have been counted. Takes no memory.
pub fn lower<A: Allocator + Copy>(props: &mut Props<A>, id: ObjId, name: Name<A>)
    requires counted { (k : Id × List ℕ) → is_prop id name k ≡ true → 0 < count_at (of_props props.old) k }
    requires sorted { T (map.is_sorted prop_cmp props.old) }
    requires no_zero { HasNoZero (of_props props.old) }
    ensures lowered { IsOneMore (is_prop id name) (of_props props.new) (of_props props.old) }
    ensures sorted { T (map.is_sorted prop_cmp props.new) }
    ensures no_zero { HasNoZero (of_props props.new) }
{
    let count = count(props, id, &name);
    if count > 1 {
        put_count(props, id, &name, count - 1);
        return;
    }
    let _ = props.remove_at_edge(
        |tally: &((ObjId, Name<A>), u64)| -> bool
            ensures { result ≡ is_lt (prop_cmp tally.now.0 (id, name)) }
        { compare(&tally.0, id, &name).is_lt() },
    );
}
