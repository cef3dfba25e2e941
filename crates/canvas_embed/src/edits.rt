// Edits from numbers and bytes.
ghost use Rattle.std.specs.Prelude.{◌≡◌, ◌+◌, ◌∷◌, [], IfErr, IfOk, OnErr, OnOk};
ghost use Rattle.canvas_model.specs.Client.{last_number};
ghost use Rattle.canvas_model.specs.Local.{Delete, Move};
ghost use Rattle.canvas_client.specs.Asked.{HasMade, IsRefusal, StandsStill, refusal};
ghost use Rattle.canvas_embed.specs.Changed.{ChangesOnly};
ghost use Rattle.canvas_embed.specs.Edits.{HasCleared, HasCreatedKind, HasSet};
ghost use Rattle.canvas_embed.specs.Faults.{IsClearError, IsCreateError, IsSetError};
ghost use Rattle.canvas_embed.specs.Kinds.{kind_of_number};

use crate::values::read_value;
use crate::{ClearError, CreateError, SetError};
use canvas_client::{Client, EditError};
use canvas_doc::{Kind, Name, ObjId};
use std::alloc::Global;

/// The kind of this number: 1 is a page, 2 a frame, 3 a shape and 4 a text.
pub fn kind_of(number: u32) -> Option<Kind>
    ensures { result ≡ kind_of_number number }
{
    match number {
        1 => Some(Kind::Page),
        2 => Some(Kind::Frame),
        3 => Some(Kind::Shape),
        4 => Some(Kind::Text),
        _ => None,
    }
}

/// Creates an object of the kind of this number under `parent`, after its child `after`, or first where there is none. Answers the
/// edit's number and the object's id. After an error nothing has changed.
pub fn create(
    client: &mut Client,
    kind: u32,
    parent: ObjId,
    after: Option<ObjId>,
) -> Result<(u64, ObjId), CreateError>
    ensures ok { IfOk result (λ made. HasCreatedKind client.old kind (record { parent = parent; after = after }) made.1 client.new) }
    ensures changed { IfOk result (λ made. ChangesOnly (made.1 ∷ []) client.old.view client.new.view) }
    ensures number { IfOk result (λ made. made.0 ≡ last_number client.old + 1) }
    ensures stands { OnOk result (StandsStill client.old client.new) }
    ensures fault { IfErr result (IsCreateError client.old kind (record { parent = parent; after = after })) }
    ensures err { OnErr result (client.new ≡ client.old) }
{
    let Some(kind) = kind_of(kind) else {
        return Err(CreateError::NoKind);
    };
    match client.create(kind, parent, after) {
        Ok(made) => Ok(made),
        Err(error) => Err(CreateError::Edit(error)),
    }
}

/// Gives a property of an object the value of which the bytes are the JSON. Answers the edit's number. After an error nothing has
/// changed.
pub fn set(
    alloc: Global,
    client: &mut Client,
    id: ObjId,
    name: &[u8],
    json: &[u8],
) -> Result<u64, SetError>
    ensures ok { OnOk result (HasSet client.old id name.now json.now client.new) }
    ensures changed { OnOk result (ChangesOnly (id ∷ []) client.old.view client.new.view) }
    ensures number { IfOk result (λ n. n ≡ last_number client.old + 1) }
    ensures stands { OnOk result (StandsStill client.old client.new) }
    ensures fault { IfErr result (IsSetError client.old id name.now json.now) }
    ensures err { OnErr result (client.new ≡ client.old) }
{
    let name = match Name::read(alloc, name) {
        Ok(name) => name,
        Err(error) => return Err(SetError::Name(error)),
    };
    let value = match read_value(alloc, json) {
        Ok(value) => value,
        Err(error) => return Err(SetError::Value(error)),
    };
    match client.set(id, name, value) {
        Ok(number) => Ok(number),
        Err(error) => Err(SetError::Edit(error)),
    }
}

/// Takes a property of an object away. Answers the edit's number. After an error nothing has changed.
pub fn clear(alloc: Global, client: &mut Client, id: ObjId, name: &[u8]) -> Result<u64, ClearError>
    ensures ok { OnOk result (HasCleared client.old id name.now client.new) }
    ensures changed { OnOk result (ChangesOnly (id ∷ []) client.old.view client.new.view) }
    ensures number { IfOk result (λ n. n ≡ last_number client.old + 1) }
    ensures stands { OnOk result (StandsStill client.old client.new) }
    ensures fault { IfErr result (IsClearError client.old id name.now) }
    ensures err { OnErr result (client.new ≡ client.old) }
{
    let name = match Name::read(alloc, name) {
        Ok(name) => name,
        Err(error) => return Err(ClearError::Name(error)),
    };
    match client.clear(id, name) {
        Ok(number) => Ok(number),
        Err(error) => Err(ClearError::Edit(error)),
    }
}

/// Moves an object under `parent`, after its child `after`, or first where there is none. Answers the edit's number. After an error
/// nothing has changed.
pub fn move_to(
    client: &mut Client,
    id: ObjId,
    parent: ObjId,
    after: Option<ObjId>,
) -> Result<u64, EditError>
    ensures ok { OnOk result (HasMade client.old (Move id (record { parent = parent; after = after })) client.new) }
    ensures changed { OnOk result (ChangesOnly (id ∷ []) client.old.view client.new.view) }
    ensures number { IfOk result (λ n. n ≡ last_number client.old + 1) }
    ensures stands { OnOk result (StandsStill client.old client.new) }
    ensures fault { IfErr result (λ error. IsRefusal client.old (Move id (record { parent = parent; after = after })) (refusal error)) }
    ensures err { OnErr result (client.new ≡ client.old) }
{
    client.move_to(id, parent, after)
}

/// Removes an object; what lies below it is shown no more. Answers the edit's number. After an error nothing has changed.
pub fn delete(client: &mut Client, id: ObjId) -> Result<u64, EditError>
    ensures ok { OnOk result (HasMade client.old (Delete id) client.new) }
    ensures changed { OnOk result (ChangesOnly (id ∷ []) client.old.view client.new.view) }
    ensures number { IfOk result (λ n. n ≡ last_number client.old + 1) }
    ensures stands { OnOk result (StandsStill client.old client.new) }
    ensures fault { IfErr result (λ error. IsRefusal client.old (Delete id) (refusal error)) }
    ensures err { OnErr result (client.new ≡ client.old) }
{
    client.delete(id)
}
