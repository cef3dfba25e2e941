// Which objects of a view may have changed.
ghost use Rattle.std.specs.Prelude.{◌≡◌, ℕ, IfOk, IsTrue};
ghost use Rattle.canvas_model.specs.Change.{object_of};
ghost use Rattle.canvas_model.specs.Messages as messages;
ghost use Rattle.canvas_judge.specs.Seen.{seen_message};
ghost use Rattle.canvas_client.specs.Follow.{LeavesRoot};
ghost use Rattle.canvas_embed.specs.Changed.{MayChange, TellsOf, touched};

use crate::ids::ids_text;
use canvas_doc::{Change, ChangeVariant, ObjId};
use canvas_judge::{Entry, Message, Outcome, What};
use std::alloc::{AllocError, Global};

// Which objects of a view may have changed: any, or none but these.
#[derive(Drop)]
enum Changed {
    All,
    These(Vec<ObjId>),
}

// The text of which objects the message may change in the view of any client that receives it: of their ids, or `null` for any.
pub(crate) fn changed_text(alloc: Global, message: &Message) -> Result<Vec<u8>, AllocError>
    ensures { IfOk result (λ text. TellsOf text.items (seen_message message.now)) }
{
    let changed = changed_by(alloc, message)?;
    match changed {
        Changed::These(ids) => ids_text(alloc, &ids),
        Changed::All => {
            let mut text = Vec::new(alloc);
            text.extend_from_slice(b"null")?;
            Ok(text)
        }
    }
}

// Which objects the message may change: those that an entry is of or removes, any that a copy brings, and else none. An entry that
// moves or removes the root, which no server tells, may change any.
fn changed_by(alloc: Global, message: &Message) -> Result<Changed, AllocError>
    ensures { IfOk result (λ changed. MayChange changed (seen_message message.now)) }
{
    match message {
        Message::Entry { entry, .. } => changed_by_entry(alloc, entry),
        Message::Copy(_) => Ok(Changed::All),
        _ => Ok(Changed::These(Vec::new(alloc))),
    }
}

// Which objects the entry may change.
fn changed_by_entry(alloc: Global, entry: &Entry) -> Result<Changed, AllocError>
    ensures { IfOk result (λ changed. (version : ℕ) → MayChange changed (messages.Entry version entry.now)) }
{
    let ids = touched(alloc, entry)?;
    if leaves_root(&ids, entry) {
        Ok(Changed::These(ids))
    } else {
        Ok(Changed::All)
    }
}

// The objects that the entry is of, or that it removes.
fn touched(alloc: Global, entry: &Entry) -> Result<Vec<ObjId>, AllocError>
    ensures { IfOk result (λ ids. ids.items ≡ touched entry.now.what entry.now.outcome) }
{
    let mut ids = Vec::new(alloc);
    if let What::Edit(change) = &entry.what {
        match &entry.outcome {
            Outcome::Removed(removed) => ids.extend_from_slice(removed)?,
            _ => ids.push(object_of(change))?,
        }
    }
    Ok(ids)
}

// Checks whether the entry, which touches these objects, isn't of the root, or sets a property alone.
fn leaves_root(ids: &[ObjId], entry: &Entry) -> bool
    requires { ids.now ≡ touched entry.now.what entry.now.outcome }
    ensures { IsTrue result → LeavesRoot entry.now }
{
    !ids.contains(&ObjId::ROOT) || sets(entry)
}

// Checks whether the entry is of a property that is set or cleared.
fn sets(entry: &Entry) -> bool
    ensures { IsTrue result → LeavesRoot entry.now }
{
    let What::Edit(change) = &entry.what else {
        return false;
    };
    match change.variant() {
        ChangeVariant::Set { .. } => true,
        _ => false,
    }
}

// The object that is changed.
fn object_of(change: &Change) -> ObjId
    ensures { result ≡ object_of change.now }
{
    match change.variant() {
        ChangeVariant::Create { id, .. } => *id,
        ChangeVariant::Set { id, .. } => *id,
        ChangeVariant::Move { id, .. } => *id,
        ChangeVariant::Delete { id } => *id,
    }
}
