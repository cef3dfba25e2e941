// Checks whether a local edit is allowed in a view, and computes its position.
ghost use Rattle.std.specs.Prelude.{◌≡◌, ◌↔◌, IsTrue, IfOk, IfErr, IfSome, IfNone, Some, length, IsSomeAnd};
ghost use Rattle.std.specs.Option.{option_copied};
ghost use Rattle.canvas_model.specs.Chain.{InTree};
ghost use Rattle.canvas_model.specs.Document as document;
ghost use Rattle.canvas_model.specs.Local.{ComesAfterNone, GoesBelowItself, GoesTooDeep, IsHidden, IsPosAfter};
ghost use Rattle.canvas_model.specs.Local.{Lands, MovesRoot, kind_asked, target_asked};
ghost use Rattle.canvas_model.specs.Sibling.{IsSibling};
ghost use Rattle.canvas_model.specs.Verdict.{MayNotStand};
ghost use Rattle.canvas_client.specs.Asked.{HasAfter, IsCrowded, refusal, seen_target};

use crate::request::Target;
use crate::{EditError, EditRequest, EditRequestVariant};
use canvas_doc::{Doc, Kind, ObjId};
use canvas_judge::is_above;
use canvas_pos::{Pos, between};
use std::alloc::{AllocError, Allocator};

// Checks whether the request moves or deletes the root.
pub(crate) fn moves_root<C: Allocator>(request: &EditRequest<C>) -> bool
    ensures { IsTrue result ↔ MovesRoot request.now }
{
    match request.variant() {
        EditRequestVariant::Move { id, .. } => *id == ObjId::ROOT,
        EditRequestVariant::Delete { id } => *id == ObjId::ROOT,
        _ => false,
    }
}

// Checks whether the named object is missing from the view's tree.
pub(crate) fn is_hidden<A: Allocator, C: Allocator>(view: &Doc<A>, request: &EditRequest<C>) -> bool
    ensures { IsTrue result ↔ IsHidden view.now request.now }
{
    match request.subject() {
        Some(id) => !is_above(view, ObjId::ROOT, id),
        None => false,
    }
}

// Checks whether the sibling to insert after is missing among the parent's other children.
pub(crate) fn comes_after_none<A: Allocator, C: Allocator>(
    view: &Doc<A>,
    request: &EditRequest<C>,
) -> bool
    ensures { IsTrue result ↔ ComesAfterNone view.now request.now }
{
    let Some(target) = request.target() else {
        return false;
    };
    let Some(after) = target.after else {
        return false;
    };
    sibling_position(view, target.parent, request.left_out(), after).is_none()
}

// Checks whether the parent is missing from the view's tree.
pub(crate) fn has_hidden_parent<A: Allocator, C: Allocator>(
    view: &Doc<A>,
    request: &EditRequest<C>,
) -> bool
    ensures { IsTrue result ↔ IsSomeAnd (target_asked request.now) (λ target. InTree view.now target.parent → ⊥) }
{
    match request.target() {
        Some(target) => !is_above(view, ObjId::ROOT, target.parent),
        None => false,
    }
}

// Checks whether the object's kind isn't allowed under that parent.
pub(crate) fn has_bad_parent<A: Allocator, C: Allocator>(
    view: &Doc<A>,
    request: &EditRequest<C>,
) -> bool
    ensures { IsTrue result ↔ IsSomeAnd (target_asked request.now)
        (λ target. MayNotStand (kind_asked view.now request.now) (document.kind_of view.now target.parent)) }
{
    match request.target() {
        Some(target) => may_not_stand(kind_asked(view, request), view.kind_of(target.parent)),
        None => false,
    }
}

// The kind of the object that is created or moved.
fn kind_asked<A: Allocator, C: Allocator>(view: &Doc<A>, request: &EditRequest<C>) -> Option<Kind>
    ensures { result ≡ kind_asked view.now request.now }
{
    match request.variant() {
        EditRequestVariant::Create { kind, .. } => Some(*kind),
        EditRequestVariant::Move { id, .. } => view.kind_of(*id),
        _ => None,
    }
}

// Checks whether a kind is missing, or the first isn't allowed under the second.
fn may_not_stand(kind: Option<Kind>, parent: Option<Kind>) -> bool
    ensures { IsTrue result ↔ MayNotStand kind parent }
{
    match (kind, parent) {
        (Some(kind), Some(parent)) => !kind.may_stand_under(parent),
        _ => true,
    }
}

// Checks whether the new parent is the moved object or one of its descendants.
pub(crate) fn goes_below_itself<A: Allocator, C: Allocator>(
    view: &Doc<A>,
    request: &EditRequest<C>,
) -> bool
    ensures { IsTrue result ↔ GoesBelowItself view.now request.now }
{
    match request.variant() {
        EditRequestVariant::Move { id, parent, .. } => is_above(view, *id, *parent),
        _ => false,
    }
}

// Checks whether the new object, or the moved one or a descendant of it, would be too deep in the view. Only a move allocates. Errors:
// out of memory.
pub(crate) fn goes_too_deep<A: Allocator, B: Allocator + Copy, C: Allocator>(
    alloc: B,
    view: &Doc<A>,
    request: &EditRequest<C>,
) -> Result<bool, AllocError>
    ensures { IfOk result (λ deep. IsTrue deep ↔ GoesTooDeep view.now request.now) }
{
    match request.variant() {
        EditRequestVariant::Create { parent, .. } => Ok(view.is_too_deep_under(*parent)),
        EditRequestVariant::Move { id, parent, .. } => view.moves_too_deep(alloc, *id, *parent),
        _ => Ok(false),
    }
}

// Returns the position of `q` if it is a child of `parent` other than `except`.
pub(crate) fn sibling_position<A: Allocator>(
    view: &Doc<A>,
    parent: ObjId,
    except: ObjId,
    q: ObjId,
) -> Option<&Pos<A>>
    ensures some { IfSome result (λ pos. IsSibling view.now parent except q pos.now) }
    ensures none { IfNone result ((pos : document.Pos) → IsSibling view.now parent except q pos → ⊥) }
{
    if q == except {
        return None;
    }
    let place = view.place_of(q)?;
    if place.parent == parent {
        Some(&place.pos)
    } else {
        None
    }
}

// Returns the position of the sibling to insert after, or none to insert first.
fn position_before<A: Allocator>(view: &Doc<A>, except: ObjId, target: Target) -> Option<&Pos<A>>
    requires { HasAfter view.now except (seen_target target) }
    ensures { IsPosAfter view.now target.parent except target.after (option_copied result) }
{
    match target.after {
        Some(after) => sibling_position(view, target.parent, except, after),
        None => None,
    }
}

// Returns the position at a target, half way between the sibling to insert after and the next one. Errors: `Crowded` if there is no room.
pub(crate) fn position_at<A: Allocator, B: Allocator + Copy>(
    alloc: B,
    view: &Doc<A>,
    except: ObjId,
    target: Target,
) -> Result<Pos<B>, EditError>
    requires { HasAfter view.now except (seen_target target) }
    ensures ok { IfOk result (λ pos. Lands view.now except (seen_target target) (Some pos)) }
    ensures err { IfErr result (λ error. IsCrowded view.now except (seen_target target) (refusal error)) }
{
    let low = position_before(view, except, target);
    let high = view.next_position(target.parent, low, except);
    between(alloc, low, high)?.ok_or(EditError::Crowded)
}
