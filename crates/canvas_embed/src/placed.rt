// Edits at places that the caller names, and at the ends of a parent's children, from numbers and bytes.
ghost use Rattle.std.specs.Prelude.{◌≡◌, ◌+◌, ◌∷◌, [], IfErr, IfOk, OnErr, OnOk};
ghost use Rattle.canvas_model.specs.Client.{last_number};
ghost use Rattle.canvas_client.specs.Asked.{StandsStill};
ghost use Rattle.canvas_client.specs.Ends.{HasMovedThere, IsEndError, LiesFirst, LiesLast};
ghost use Rattle.canvas_client.specs.Placed.{Move};
ghost use Rattle.canvas_embed.specs.Changed.{ChangesOnly};
ghost use Rattle.canvas_embed.specs.Places.{EachPlacedEditKeeps, HasCreatedKindAt, HasCreatedKindThere, HasMovedToBytes, IsCreateAtError, IsCreateEndError, IsMoveAtError};

use crate::edits::kind_of;
use crate::{CreateAtError, CreateEndError, MoveAtError};
use canvas_client::{Client, EndError};
use canvas_doc::{ObjId, Place};
use canvas_pos::Pos;
use std::alloc::Global;

/// Creates an object of the kind of this number under `parent`, at the position of these bytes, which no other child of the parent may
/// have in what the client shows. Answers the edit's number and the object's id. After an error nothing has changed.
pub fn create_at(
    alloc: Global,
    client: &mut Client,
    kind: u32,
    parent: ObjId,
    position: &[u8],
) -> Result<(u64, ObjId), CreateAtError>
    ensures ok { IfOk result (λ made. HasCreatedKindAt client.old kind parent position.now made.1 client.new) }
    ensures changed { IfOk result (λ made. ChangesOnly (made.1 ∷ []) client.old.view client.new.view) }
    ensures number { IfOk result (λ made. made.0 ≡ last_number client.old + 1) }
    ensures stands { OnOk result (StandsStill client.old client.new) }
    ensures fault { IfErr result (IsCreateAtError client.old kind parent position.now) }
    ensures err { OnErr result (client.new ≡ client.old) }
{
    let Some(kind) = kind_of(kind) else {
        return Err(CreateAtError::NoKind);
    };
    let pos = match Pos::read(alloc, position) {
        Ok(pos) => pos,
        Err(error) => return Err(CreateAtError::Position(error)),
    };
    match client.create_at(kind, Place { parent, pos }) {
        Ok(made) => Ok(made),
        Err(error) => Err(CreateAtError::Edit(error)),
    }
}

/// Moves an object under `parent`, to the position of these bytes, which no other child of the parent may have in what the client shows.
/// Answers the edit's number. After an error nothing has changed.
pub fn move_at(
    alloc: Global,
    client: &mut Client,
    id: ObjId,
    parent: ObjId,
    position: &[u8],
) -> Result<u64, MoveAtError>
    ensures ok { OnOk result (HasMovedToBytes client.old id parent position.now client.new) }
    ensures changed { OnOk result (ChangesOnly (id ∷ []) client.old.view client.new.view) }
    ensures number { IfOk result (λ n. n ≡ last_number client.old + 1) }
    ensures stands { OnOk result (StandsStill client.old client.new) }
    ensures fault { IfErr result (IsMoveAtError client.old id parent position.now) }
    ensures err { OnErr result (client.new ≡ client.old) }
{
    let pos = match Pos::read(alloc, position) {
        Ok(pos) => pos,
        Err(error) => return Err(MoveAtError::Position(error)),
    };
    match client.move_at(id, Place { parent, pos }) {
        Ok(number) => Ok(number),
        Err(error) => Err(MoveAtError::Edit(error)),
    }
}

/// Creates an object of the kind of this number under `parent`, behind all its children in what the client shows; 41 million fit one
/// behind the other. Answers the edit's number and the object's id. After an error nothing has changed.
pub fn create_last(
    client: &mut Client,
    kind: u32,
    parent: ObjId,
) -> Result<(u64, ObjId), CreateEndError>
    ensures ok { IfOk result (λ made. HasCreatedKindThere LiesLast client.old kind parent made.1 client.new) }
    ensures changed { IfOk result (λ made. ChangesOnly (made.1 ∷ []) client.old.view client.new.view) }
    ensures number { IfOk result (λ made. made.0 ≡ last_number client.old + 1) }
    ensures stands { OnOk result (StandsStill client.old client.new) }
    ensures fault { IfErr result (IsCreateEndError LiesLast client.old kind parent) }
    ensures err { OnErr result (client.new ≡ client.old) }
{
    let Some(kind) = kind_of(kind) else {
        return Err(CreateEndError::NoKind);
    };
    match client.create_last(kind, parent) {
        Ok(made) => Ok(made),
        Err(error) => Err(CreateEndError::Edit(error)),
    }
}

/// Creates an object of the kind of this number under `parent`, before all its children in what the client shows. Answers the edit's
/// number and the object's id. After an error nothing has changed.
pub fn create_first(
    client: &mut Client,
    kind: u32,
    parent: ObjId,
) -> Result<(u64, ObjId), CreateEndError>
    ensures ok { IfOk result (λ made. HasCreatedKindThere LiesFirst client.old kind parent made.1 client.new) }
    ensures changed { IfOk result (λ made. ChangesOnly (made.1 ∷ []) client.old.view client.new.view) }
    ensures number { IfOk result (λ made. made.0 ≡ last_number client.old + 1) }
    ensures stands { OnOk result (StandsStill client.old client.new) }
    ensures fault { IfErr result (IsCreateEndError LiesFirst client.old kind parent) }
    ensures err { OnErr result (client.new ≡ client.old) }
{
    let Some(kind) = kind_of(kind) else {
        return Err(CreateEndError::NoKind);
    };
    match client.create_first(kind, parent) {
        Ok(made) => Ok(made),
        Err(error) => Err(CreateEndError::Edit(error)),
    }
}

/// Moves an object under `parent`, behind all its other children in what the client shows. Answers the edit's number. After an error
/// nothing has changed.
pub fn move_last(client: &mut Client, id: ObjId, parent: ObjId) -> Result<u64, EndError>
    ensures ok { OnOk result (HasMovedThere LiesLast client.old id parent client.new) }
    ensures changed { OnOk result (ChangesOnly (id ∷ []) client.old.view client.new.view) }
    ensures number { IfOk result (λ n. n ≡ last_number client.old + 1) }
    ensures stands { OnOk result (StandsStill client.old client.new) }
    ensures fault { IfErr result (IsEndError LiesLast client.old parent id (Move id)) }
    ensures err { OnErr result (client.new ≡ client.old) }
{
    client.move_last(id, parent)
}

/// Moves an object under `parent`, before all its other children in what the client shows. Answers the edit's number. After an error
/// nothing has changed.
pub fn move_first(client: &mut Client, id: ObjId, parent: ObjId) -> Result<u64, EndError>
    ensures ok { OnOk result (HasMovedThere LiesFirst client.old id parent client.new) }
    ensures changed { OnOk result (ChangesOnly (id ∷ []) client.old.view client.new.view) }
    ensures number { IfOk result (λ n. n ≡ last_number client.old + 1) }
    ensures stands { OnOk result (StandsStill client.old client.new) }
    ensures fault { IfErr result (IsEndError LiesFirst client.old parent id (Move id)) }
    ensures err { OnErr result (client.new ≡ client.old) }
{
    client.move_first(id, parent)
}

/// Wherever a client stands, it stands after each edit of this kind, and what its waiting edits create stays its own. It does nothing
/// when it runs: call it where a proof needs the law.
pub fn every_placed_edit()
    ensures { EachPlacedEditKeeps }
{
    canvas_client::every_placed_edit();
}
