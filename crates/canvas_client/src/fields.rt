// A view, brought up to an entry field by field. If memory runs out, nothing has changed: each entry makes at most one call on the
// view that takes memory, after all copies.
ghost use Rattle.std.specs.Prelude.{◌≡◌, ◌≢◌, ◌+◌, true, false, IfOk, OnOk, OnErr, length};
ghost use Rattle.std.specs.List.{Contains};
ghost use Rattle.std.specs.FinMap as map;
ghost use Rattle.canvas_model.specs.Ids.{root};
ghost use Rattle.canvas_model.specs.Document.{revise, without};
ghost use Rattle.canvas_model.specs.Change as change;
ghost use Rattle.canvas_model.specs.Log.{Edit};
ghost use Rattle.canvas_model.specs.Receive.{staying};
ghost use Rattle.canvas_model.specs.View.{added, creates_it, placed, refreshed, valued};
ghost use Rattle.canvas_judge.specs.Seen.{seen_outcome};
ghost use Rattle.canvas_client.specs.Follow.{LeavesRoot, SparesRoot};
ghost use Rattle.canvas_client.specs.Rise.{IsRise, removed};

use crate::shown::Shown;
use canvas_doc::{Change, ChangeVariant, Kind, Name, ObjId, Place, Value};
use canvas_judge::{Entry, Outcome, What};
use canvas_pending::Pending;
use canvas_value::copy_value;
use std::alloc::{AllocError, Allocator};

/// Brings the view up to the entry. `waiting` are the edits that wait before it; `own` says that it is the client's own next one,
/// so the first of them doesn't stay. The root keeps its place and is never removed, whatever the entry says. Answers how many
/// changes of the view that made.
pub fn follow<A: Allocator + Copy, B: Allocator>(
    alloc: A,
    view: &mut Shown<A>,
    waiting: &Pending<A>,
    own: bool,
    entry: &Entry<B>,
) -> Result<u64, AllocError>
    requires { own ≡ true → (change : change.Change) → entry.now.what ≡ Edit change → creates_it root change ≡ false }
    ensures ok { OnOk result (LeavesRoot entry.now → view.new.doc ≡ refreshed own (staying own waiting.now) entry.now.what entry.now.outcome view.old.doc) }
    ensures count { IfOk result (IsRise (removed entry.now.outcome + 1) view.old.changes.count view.new.changes.count) }
    ensures err { OnErr result (view.new ≡ view.old) }
{
    match &entry.what {
        What::Edit(change) => refresh(alloc, view, waiting, own, change, &entry.outcome),
        What::Join => Ok(0),
    }
}

// Brings the view up to an entry of this change and outcome.
fn refresh<A: Allocator + Copy, B: Allocator>(
    alloc: A,
    view: &mut Shown<A>,
    waiting: &Pending<A>,
    own: bool,
    change: &Change<B>,
    outcome: &Outcome<B>,
) -> Result<u64, AllocError>
    requires { own ≡ true → creates_it root change.now ≡ false }
    ensures ok { OnOk result (SparesRoot (Edit change.now) (seen_outcome outcome.now) → view.new.doc ≡ refreshed own (staying own waiting.now) (Edit change.now) (seen_outcome outcome.now) view.old.doc) }
    ensures count { IfOk result (IsRise (removed (seen_outcome outcome.now) + 1) view.old.changes.count view.new.changes.count) }
    ensures err { OnErr result (view.new ≡ view.old) }
{
    match (change.variant(), outcome) {
        (ChangeVariant::Create { id, kind, .. }, Outcome::Created(place)) => add(
            alloc, view, waiting, own, *id, *kind, place,
        ),
        (ChangeVariant::Create { id, .. }, Outcome::Refused { .. }) => {
            if own {
                view.remove(*id);
                return Ok(1);
            }
            Ok(0)
        }
        (ChangeVariant::Set { id, name, value }, Outcome::WasSet) => set(
            alloc, view, waiting, own, *id, name, value,
        ),
        (ChangeVariant::Move { id, .. }, Outcome::Moved(place)) => put(
            alloc, view, waiting, own, *id, place,
        ),
        (ChangeVariant::Move { id, .. }, Outcome::Refused { stands, .. }) => match stands {
            Some(place) => put(alloc, view, waiting, own, *id, place),
            None => Ok(0),
        },
        (ChangeVariant::Delete { .. }, Outcome::Removed(ids)) => { Ok(remove_each(view, ids)) }
        _ => Ok(0),
    }
}

// Adds an object that was created, or gives it its place where it is shown already.
fn add<A: Allocator + Copy, B: Allocator>(
    alloc: A,
    view: &mut Shown<A>,
    waiting: &Pending<A>,
    own: bool,
    id: ObjId,
    kind: Kind,
    place: &Place<B>,
) -> Result<u64, AllocError>
    ensures ok { OnOk result (id ≢ root → view.new.doc ≡ revise view.old.doc id (added (staying own waiting.now) id kind place.now (map.get view.old.doc id))) }
    ensures count { IfOk result (IsRise 1 view.old.changes.count view.new.changes.count) }
    ensures err { OnErr result (view.new ≡ view.old) }
{
    if view.doc.has(id) {
        return put(alloc, view, waiting, own, id, place);
    }
    if waiting.some_deletes(own, id) {
        return Ok(0);
    }
    let place = place.copy_in(alloc)?;
    view.put_object(id, kind, place)?;
    Ok(1)
}

// Moves an object, unless an edit that stays moves it.
fn put<A: Allocator + Copy, B: Allocator>(
    alloc: A,
    view: &mut Shown<A>,
    waiting: &Pending<A>,
    own: bool,
    id: ObjId,
    place: &Place<B>,
) -> Result<u64, AllocError>
    ensures ok { OnOk result (id ≢ root → view.new.doc ≡ revise view.old.doc id (placed (staying own waiting.now) id place.now (map.get view.old.doc id))) }
    ensures count { IfOk result (IsRise 1 view.old.changes.count view.new.changes.count) }
    ensures err { OnErr result (view.new ≡ view.old) }
{
    if id == ObjId::ROOT || waiting.some_moves(own, id) {
        return Ok(0);
    }
    let place = place.copy_in(alloc)?;
    view.put_place(id, place);
    Ok(1)
}

// Gives a property this value, or takes it away where there is none, unless an edit that stays sets it.
fn set<A: Allocator + Copy, B: Allocator>(
    alloc: A,
    view: &mut Shown<A>,
    waiting: &Pending<A>,
    own: bool,
    id: ObjId,
    name: &Name<B>,
    value: &Option<Value<B>>,
) -> Result<u64, AllocError>
    ensures ok { OnOk result (view.new.doc ≡ revise view.old.doc id (valued (staying own waiting.now) id name.now value.now (map.get view.old.doc id))) }
    ensures count { IfOk result (IsRise 1 view.old.changes.count view.new.changes.count) }
    ensures err { OnErr result (view.new ≡ view.old) }
{
    if waiting.some_sets(own, id, name) {
        return Ok(0);
    }
    let name = name.copy_in(alloc)?;
    let value = copy_value(alloc, value)?;
    view.put_prop(id, name, value)?;
    Ok(1)
}

// Removes these objects, in whatever order they stand, but never the root. Answers how many changes that made.
fn remove_each<A: Allocator>(view: &mut Shown<A>, ids: &[ObjId]) -> u64
    ensures doc { (Contains ids.now root → ⊥) → view.new.doc ≡ without view.old.doc ids.now }
    ensures count { IsRise (length ids.now) view.old.changes.count view.new.changes.count result }
{
    let mut made = 0;
    for id in ids.iter().rev() {
        if *id != ObjId::ROOT {
            view.remove(*id);
            made += 1;
        }
    }
    made
}
