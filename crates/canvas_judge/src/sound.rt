// Whether a document and the counts of clients make a sound state.
ghost use Rattle.std.specs.Prelude.{◌≡◌, ◌≢◌, ◌≤◌, ◌↔◌, IsTrue, IfOk, Some, length};
ghost use Rattle.std.specs.List.{All};
ghost use Rattle.std.specs.Option.{option_copied, option_map, unwrap_or};
ghost use Rattle.std.specs.FinMap as map;
ghost use Rattle.canvas_model.specs.Ids.{root};
ghost use Rattle.canvas_model.specs.Chain.{InTree};
ghost use Rattle.canvas_model.specs.Document as document;
ghost use Rattle.canvas_model.specs.Document.{IsDocument};
ghost use Rattle.canvas_model.specs.Sibling.{IsTaken};
ghost use Rattle.canvas_model.specs.State.{IsSound};
ghost use Rattle.canvas_model.specs.State as state;
ghost use Rattle.canvas_model.specs.Numbered.{nth};
ghost use Rattle.canvas_judge.specs.Sound.{IsSoundAt, MayStandAt};

use crate::chains::below;
use canvas_doc::{Doc, Kind, ObjId, Object, Place};
use canvas_model::Counts;
use std::alloc::{AllocError, Allocator};

/// Checks whether the document and the counts of clients 1, 2, .. make a sound state. Looks at each object once, and sorts the ids of
/// those below the root. Errors: out of memory.
pub(crate) fn is_sound<A: Allocator + Copy, B: Allocator + Copy>(
    alloc: B,
    doc: &Doc<A>,
    clients: &[Counts],
) -> Result<bool, AllocError>
    ensures { IfOk result (λ b. IsTrue b ↔ IsSound (record { doc = doc.now; clients = clients.now })) }
{
    if clients.len() > 4294967294 {
        return Ok(false);
    }
    let rooted = all_in_tree(alloc, doc)?;
    Ok(rooted && each_is_sound(doc, clients))
}

// Checks whether each live object is in the tree.
fn all_in_tree<A: Allocator + Copy, B: Allocator + Copy>(
    alloc: B,
    doc: &Doc<A>,
) -> Result<bool, AllocError>
    ensures { IfOk result (λ b. IsTrue b ↔ ((q : ObjId) → IsTrue (document.live doc.now q) → InTree doc.now q)) }
{
    let ids = below(alloc, doc, ObjId::ROOT)?;
    Ok(ids.len() == doc.len())
}

// Checks whether each live object stands as it may, alone at its place, with a counter that its client has used.
fn each_is_sound<A: Allocator>(doc: &Doc<A>, clients: &[Counts]) -> bool
    ensures document { IsDocument doc.now }
    ensures each { IsTrue result ↔ All (IsSoundAt (record { doc = doc.now; clients = clients.now })) (map.entries doc.now) }
{
    for object in doc.objects() {
        if !is_sound_at(doc, clients, object.0, &object.1) {
            return false;
        }
    }
    true
}

// Checks whether this object does.
fn is_sound_at<A: Allocator>(
    doc: &Doc<A>,
    clients: &[Counts],
    id: ObjId,
    object: &Object<A>,
) -> bool
    ensures { IsTrue result ↔ IsSoundAt (record { doc = doc.now; clients = clients.now }) (id, object.now) }
{
    if !has_used(clients, id) {
        return false;
    }
    match object.place() {
        Some(place) => {
            may_stand_at(doc, object.kind(), place) && !doc.taken(place.parent, &place.pos, id)
        }
        None => true,
    }
}

// Checks whether an object of this kind may stand at the place, as far as its parent is live.
fn may_stand_at<A: Allocator>(doc: &Doc<A>, kind: Kind, place: &Place<A>) -> bool
    ensures { IsTrue result ↔ MayStandAt doc.now kind place.now }
{
    match doc.kind_of(place.parent) {
        Some(parent) => kind.may_stand_under(parent),
        None => true,
    }
}

// Checks whether the id is the root's, or its counter is one that its client has used.
fn has_used(clients: &[Counts], id: ObjId) -> bool
    ensures { IsTrue result ↔ (id ≢ root → id.counter ≤ unwrap_or (option_map (λ k. k.used) (nth clients.now id.client)) 0) }
{
    id == ObjId::ROOT || id.counter <= counts_of(clients, id.client).map_or(0, |counts| counts.used)
}

/// The counts of a client that has joined.
pub(crate) fn counts_of(clients: &[Counts], client: u32) -> Option<&Counts>
    ensures { option_copied result ≡ nth clients.now client }
{
    if client == 0 {
        None
    } else {
        clients.get(client as usize - 1)
    }
}
