// A depth below which nothing stands, so that most moves needn't be walked.
ghost use Rattle.std.specs.Prelude.{◌≤◌, ◌+◌, ℕ, IfOk, IfSome, IsTrue};
ghost use Rattle.canvas_model.specs.Chain.{InTree};
ghost use Rattle.canvas_model.specs.Depth.{HasDepth, LiesBelow, MovesTooDeep};
ghost use Rattle.canvas_model.specs.Ids.{root};
ghost use Rattle.canvas_model.specs.Log.{Edit};
ghost use Rattle.canvas_judge.specs.Bounds.{IsBound, IsBoundAfter};
ghost use Rattle.canvas_judge.specs.Seen.{seen_outcome};

use crate::Outcome;
use canvas_doc::{Change, ChangeVariant, Doc, ObjId};
use canvas_model::DEPTH_LIMIT;
use std::alloc::{AllocError, Allocator};

// Checks whether the bound tells that nothing would stand too deep where the object goes under this parent. It climbs twice to the root.
pub(crate) fn is_surely_within<A: Allocator>(
    doc: &Doc<A>,
    bound: Option<u64>,
    id: ObjId,
    parent: ObjId,
) -> bool
    requires { IfSome bound (IsBound doc.now) }
    ensures { IsTrue result → MovesTooDeep doc.now id parent → ⊥ }
{
    let _objects = doc.objects();
    let Some(bound) = bound else {
        return false;
    };
    let Some(old) = doc.depth(id) else {
        return false;
    };
    let Some(new) = doc.depth(parent) else {
        return false;
    };
    // What lies lowest below the object lies at most `bound - old` steps below it.
    if new >= DEPTH_LIMIT {
        return false;
    }
    bound.saturating_sub(old) < DEPTH_LIMIT - new
}

// A bound after an entry of this change and outcome; none where none is known. It walks what lies below a moved object only if the
// bound alone doesn't tell. Errors: out of memory.
pub(crate) fn bound_after<A: Allocator + Copy, B: Allocator>(
    alloc: A,
    doc: &Doc<A>,
    bound: Option<u64>,
    change: &Change<B>,
    outcome: &Outcome<B>,
) -> Result<Option<u64>, AllocError>
    requires { IfSome bound (IsBound doc.now) }
    ensures { IfOk result (λ after. IfSome after (IsBoundAfter doc.now (Edit change.now) (seen_outcome outcome.now))) }
{
    let Some(bound) = bound else {
        return Ok(None);
    };
    match (change.variant(), outcome) {
        (ChangeVariant::Create { .. }, Outcome::Created(place)) => {
            Ok(bound_of_new(doc, bound, place.parent))
        }
        (ChangeVariant::Move { id, .. }, Outcome::Moved(place)) => {
            bound_of_moved(alloc, doc, bound, *id, place.parent)
        }
        _ => Ok(Some(bound)),
    }
}

// A bound once a new object stands under this parent.
fn bound_of_new<A: Allocator>(doc: &Doc<A>, bound: u64, parent: ObjId) -> Option<u64>
    requires { IsBound doc.now bound }
    ensures { IfSome result (λ b. IsBound doc.now b × ((depth : ℕ) → HasDepth doc.now parent depth → depth + 1 ≤ b)) }
{
    let _objects = doc.objects();
    let Some(depth) = doc.depth(parent) else {
        return None;
    };
    if depth >= DEPTH_LIMIT {
        return None;
    }
    Some(larger(bound, depth + 1))
}

// A bound once the object stands under this parent.
fn bound_of_moved<A: Allocator + Copy>(
    alloc: A,
    doc: &Doc<A>,
    bound: u64,
    id: ObjId,
    parent: ObjId,
) -> Result<Option<u64>, AllocError>
    requires { IsBound doc.now bound }
    ensures { IfOk result (λ after. IfSome after (λ b. IsBound doc.now b × ((q : ObjId) (n depth : ℕ) → LiesBelow doc.now n q id → HasDepth doc.now parent depth → depth + 1 + n ≤ b))) }
{
    let _objects = doc.objects();
    let Some(old) = doc.depth(id) else {
        return Ok(None);
    };
    let Some(new) = doc.depth(parent) else {
        return Ok(None);
    };
    if new >= DEPTH_LIMIT {
        return Ok(None);
    }
    // What goes no deeper takes nothing deeper.
    if new < old {
        return Ok(Some(bound));
    }
    let lowest = lowest_below(doc, bound, id, old);
    if lowest < DEPTH_LIMIT - new {
        return Ok(Some(larger(bound, new + 1 + lowest)));
    }
    // By a walk of the whole tree: the least bound there is, so that the moves after it needn't walk.
    let below = doc.height(alloc, id)?;
    if below >= DEPTH_LIMIT - new {
        return Ok(None);
    }
    let deepest = doc.height(alloc, ObjId::ROOT)?;
    Ok(Some(larger(deepest, new + 1 + below)))
}

// A number of steps by which nothing lies further below the object, which stands this deep: by the bound, or 0 where nothing does.
fn lowest_below<A: Allocator>(doc: &Doc<A>, bound: u64, id: ObjId, depth: u64) -> u64
    requires bound { IsBound doc.now bound }
    requires depth { HasDepth doc.now id depth }
    ensures { (q : ObjId) (n : ℕ) → LiesBelow doc.now n q id → n ≤ result }
{
    if doc.has_children(id) {
        bound.saturating_sub(depth)
    } else {
        0
    }
}

// The depth of the deepest object, where it is at most the limit.
pub(crate) fn bound_of_tree<A: Allocator + Copy, B: Allocator + Copy>(
    alloc: B,
    doc: &Doc<A>,
) -> Result<Option<u64>, AllocError>
    requires { InTree doc.now root }
    ensures { IfOk result (λ found. IfSome found (IsBound doc.now)) }
{
    let height = doc.height(alloc, ObjId::ROOT)?;
    if height > DEPTH_LIMIT {
        return Ok(None);
    }
    Ok(Some(height))
}

// The larger of two numbers.
fn larger(a: u64, b: u64) -> u64
    ensures first { a ≤ result }
    ensures second { b ≤ result }
    ensures most { (limit : ℕ) → a ≤ limit → b ≤ limit → result ≤ limit }
{
    if a < b { b } else { a }
}
