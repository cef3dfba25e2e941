// A client's edits of its own at places that the caller names.
ghost use Rattle.std.specs.Prelude.{◌≡◌, ◌+◌, IfErr, IfOk, OnErr, OnOk, Some};
ghost use Rattle.canvas_model.specs.Change as change;
ghost use Rattle.canvas_model.specs.Client.{last_number};
ghost use Rattle.canvas_model.specs.Local.{left_out};
ghost use Rattle.canvas_model.specs.Sibling.{IsTaken};
ghost use Rattle.canvas_client.specs.Asked.{NoneBefore, StandsStill};
ghost use Rattle.canvas_client.specs.Placed.{Create, HasCreatedAt, HasMovedAt, IsRefusalAt, IsSoAt, MakesAt, Move, place_refusal};

use crate::drafting::goes_too_deep;
use crate::{Client, EditRequest, PlaceError};
use canvas_doc::{Change, Kind, ObjId, Place};
use std::alloc::Allocator;

impl<A: Allocator + Copy> Client<A> {
    /// Creates an object at the very place: under its parent, at its position. The position may be any that no other child of the
    /// parent has in what the client shows: so the caller chooses the order, where `create` takes the middle. Answers the edit's
    /// number, from 1, and the object's id. The refusals are those of `PlaceError`, and after each nothing has changed.
    pub fn create_at(&mut self, kind: Kind, place: Place<A>) -> Result<(u64, ObjId), PlaceError>
        ensures ok { IfOk result (λ made. HasCreatedAt self.old kind place made.1 self.new) }
        ensures number { IfOk result (λ made. made.0 ≡ last_number self.old + 1) }
        ensures stands { OnOk result (StandsStill self.old self.new) }
        ensures refused { IfErr result (λ error. IsRefusalAt self.old (Create kind place) (place_refusal error)) }
        ensures err { OnErr result (self.new ≡ self.old) }
    {
        let id = self.new_id_at(kind, &place)?;
        let number = self.add_edit(Change::create(id, kind, place))?;
        Ok((number, id))
    }

    /// Moves an object to the very place: under its parent, at its position, which no other child of the parent may have in what the
    /// client shows. Answers the edit's number. The refusals are those of `PlaceError`, and after each nothing has changed.
    pub fn move_at(&mut self, id: ObjId, place: Place<A>) -> Result<u64, PlaceError>
        ensures ok { OnOk result (HasMovedAt self.old id place self.new) }
        ensures number { IfOk result (λ n. n ≡ last_number self.old + 1) }
        ensures stands { OnOk result (StandsStill self.old self.new) }
        ensures refused { IfErr result (λ error. IsRefusalAt self.old (Move id place) (place_refusal error)) }
        ensures err { OnErr result (self.new ≡ self.old) }
    {
        self.look_at_move(id, &place)?;
        let number = self.add_edit(Change::move_to(id, place))?;
        Ok(number)
    }

    // The id of an object to be created at the place, or the first refusal that holds.
    fn new_id_at(&self, kind: Kind, place: &Place<A>) -> Result<ObjId, PlaceError>
        ensures ok { IfOk result (λ id. MakesAt self.now (Create kind place.now) (change.Create id kind place.now)) }
        ensures err { IfErr result (λ error. IsRefusalAt self.now (Create kind place.now) (place_refusal error)) }
    {
        let request: EditRequest<A> = EditRequest::create(kind, place.parent, None);
        let client = match self.look_at(&request, place) {
            Ok(client) => client,
            Err(error) => return Err(error),
        };
        let Some(counter) = self.next_counter() else {
            return Err(PlaceError::IdsSpent);
        };
        if self.is_full() {
            return Err(PlaceError::Full);
        }
        Ok(ObjId { client, counter })
    }

    // The first refusal of a move to the place, if one holds.
    fn look_at_move(&self, id: ObjId, place: &Place<A>) -> Result<(), PlaceError>
        ensures ok { OnOk result (MakesAt self.now (Move id place.now) (change.Move id place.now)) }
        ensures err { IfErr result (λ error. IsRefusalAt self.now (Move id place.now) (place_refusal error)) }
    {
        let request: EditRequest<A> = EditRequest::move_to(id, place.parent, None);
        let _client = match self.look_at(&request, place) {
            Ok(client) => client,
            Err(error) => return Err(error),
        };
        if self.is_full() {
            return Err(PlaceError::Full);
        }
        Ok(())
    }

    // The client's id, or the first refusal up to `Taken` that holds of the request at the place.
    fn look_at(&self, request: &EditRequest<A>, place: &Place<A>) -> Result<u32, PlaceError>
        ensures id { IfOk result (λ client. self.now.id ≡ Some client) }
        ensures none { OnOk result (NoneBefore self.now request.now 7) }
        ensures free { OnOk result (IsTaken self.now.view place.now.parent (left_out request.now) place.now.pos → ⊥) }
        ensures err { IfErr result (λ error. IsSoAt request.now place.now (λ r. IsRefusalAt self.now r (place_refusal error))) }
    {
        let Some(client) = self.id() else {
            return Err(PlaceError::NotOpen);
        };
        if let Some(error) = self.refusal_shown(request) {
            return Err(PlaceError::of_edit(error));
        }
        if goes_too_deep(self.allocator(), self.view(), request)? {
            return Err(PlaceError::TooDeep);
        }
        let except = request.left_out();
        if self.view().taken(place.parent, &place.pos, except) {
            return Err(PlaceError::Taken);
        }
        Ok(client)
    }
}
