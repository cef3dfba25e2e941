// A client of parts that were kept.
ghost use Rattle.std.specs.Prelude.{◌≡◌, ◌↔◌, ◌≤◌, ◌||◌, [], None, IsTrue, IfOk, IfSome, IfNone, OnOk};
ghost use Rattle.std.specs.BTreeSet.{contains};
ghost use Rattle.std.specs.List.{list_any};
ghost use Rattle.canvas_model.specs.declared.ObjId.{ObjId as Id};
ghost use Rattle.canvas_model.specs.Client.{last_number};
ghost use Rattle.canvas_model.specs.Ids.{id_cmp, root};
ghost use Rattle.canvas_model.specs.Log.{last_version};
ghost use Rattle.canvas_model.specs.Standing.{AreOwn};
ghost use Rattle.canvas_model.specs.View.{creates_it};
ghost use Rattle.canvas_client.specs.Kept.{IsKept};
ghost use Rattle.canvas_client.specs.Parts.{CreatesNew, seen_parts};

use crate::{Client, Merged};
use canvas_doc::{Change, ChangeVariant, Doc, ObjId};
use canvas_model::LAST_VERSION;
use canvas_pending::Pending;
use std::alloc::{AllocError, Allocator, Global};
use std::collections::BTreeSet;

/// The parts of a client, as its calls tell them: what is kept of it where it ends.
#[derive(Drop)]
pub struct ClientParts<A: Allocator = Global> {
    /// Its id, if it has one.
    pub id: Option<u32>,
    /// The counter of its last creation.
    pub counter: u32,
    /// The version that it has reached.
    pub version: u64,
    /// The number of its last edit that it knows to be judged.
    pub acknowledged: u64,
    /// Its edits after that one.
    pub waiting: Vec<Change<A>, A>,
    /// What it shows.
    pub view: Doc<A>,
}

impl<A: Allocator + Copy> Client<A> {
    /// The client of these parts. There is none where the edits that wait create an object that isn't the client's own, or whose
    /// counter is above its last, or one twice, or the root; where some wait without an id; or if its last edit's number is above
    /// 2^62. Errors: out of memory.
    pub fn from_parts(alloc: A, parts: ClientParts<A>) -> Result<Option<Self>, AllocError>
        ensures some { IfOk result (λ made. IfSome made (λ client. client ≡ seen_parts parts)) }
        ensures none { IfOk result (λ made. IfNone made (IsKept (seen_parts parts) → ⊥)) }
    {
        if !are_kept(alloc, &parts)? {
            return Ok(None);
        }
        let ClientParts {
            id,
            counter,
            version,
            acknowledged,
            waiting,
            view,
        } = parts;
        let pending = pending_of(alloc, waiting)?;
        Ok(Some(Client {
            id,
            counter,
            version,
            acknowledged,
            merged: Merged::of(pending, view),
        }))
    }
}

// Checks whether they are the parts of a client.
fn are_kept<A: Allocator + Copy>(alloc: A, parts: &ClientParts<A>) -> Result<bool, AllocError>
    ensures { IfOk result (λ kept. IsTrue kept ↔ IsKept (seen_parts parts.now)) }
{
    if !are_few(parts) || !is_idle(parts) || creates_root(&parts.waiting) {
        return Ok(false);
    }
    match parts.id {
        Some(client) => are_own(alloc, client, parts.counter, &parts.waiting),
        None => Ok(true),
    }
}

// Checks whether the number of the last edit is one.
fn are_few<A: Allocator>(parts: &ClientParts<A>) -> bool
    ensures { IsTrue result ↔ (last_number (seen_parts parts.now) ≤ last_version) }
{
    parts.acknowledged <= LAST_VERSION
        && parts.waiting.len() as u64 <= LAST_VERSION - parts.acknowledged
}

// Checks whether nothing waits, or there is an id.
fn is_idle<A: Allocator>(parts: &ClientParts<A>) -> bool
    ensures { IsTrue result ↔ (parts.now.id ≡ None → parts.now.waiting.items ≡ []) }
{
    parts.id.is_some() || parts.waiting.is_empty()
}

// Checks whether one of the edits creates the root.
fn creates_root<A: Allocator>(changes: &[Change<A>]) -> bool
    ensures { result ≡ list_any (creates_it root) changes.now }
{
    changes.iter().any(|change| creates(change, ObjId::ROOT))
}

// Checks whether the change creates this object.
fn creates<A: Allocator>(change: &Change<A>, id: ObjId) -> bool
    ensures { result ≡ creates_it id change.now }
{
    match change.variant() {
        ChangeVariant::Create { id: made, .. } => id == *made,
        _ => false,
    }
}

// Checks whether the edits create no object twice, each with the client's id and a counter up to this one.
fn are_own<A: Allocator + Copy>(
    alloc: A,
    client: u32,
    counter: u32,
    changes: &[Change<A>],
) -> Result<bool, AllocError>
    ensures { IfOk result (λ own. IsTrue own ↔ AreOwn client counter changes.now) }
{
    let mut later = BTreeSet::new(alloc);
    let mut own = true;
    for change in changes.iter().rev() {
        own = own & note(&mut later, client, counter, change)?;
    }
    Ok(own)
}

// Notes what the change creates. Returns whether that is nothing, or an object with the client's id and a counter up to this one that
// wasn't noted before.
fn note<A: Allocator + Copy>(
    noted: &mut BTreeSet<ObjId, A>,
    client: u32,
    counter: u32,
    change: &Change<A>,
) -> Result<bool, AllocError>
    ensures own { IfOk result (λ own. IsTrue own ↔ CreatesNew client counter noted.old change.now) }
    ensures noted { OnOk result ((q : Id) → contains id_cmp noted.new q ≡ (creates_it q change.now || contains id_cmp noted.old q)) }
{
    match change.variant() {
        ChangeVariant::Create { id, .. } => {
            let is_new = noted.insert(*id)?;
            Ok(is_new & (id.client == client) & (id.counter <= counter))
        }
        _ => Ok(true),
    }
}

// These edits, as those that wait.
fn pending_of<A: Allocator + Copy>(
    alloc: A,
    changes: Vec<Change<A>, A>,
) -> Result<Pending<A>, AllocError>
    ensures { IfOk result (λ pending. pending ≡ changes.items) }
{
    let mut pending = Pending::new(alloc);
    for change in changes {
        pending.push(change)?;
    }
    Ok(pending)
}
