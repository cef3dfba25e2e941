// A client's edits of its own.
ghost use Rattle.std.specs.Prelude.{◌≡◌, ◌≢◌, ◌↔◌, ℕ, ◌+◌, ◌^◌, ◌<◌, IsTrue, IfOk, IfErr, IfSome, IfNone, OnOk, OnErr, Some, None, IsSomeAnd};
ghost use Rattle.canvas_model.specs.Change.{HoldsShallow, object_of};
ghost use Rattle.canvas_model.specs.Change as change;
ghost use Rattle.canvas_model.specs.Client.{last_number};
ghost use Rattle.canvas_model.specs.Local.{Clear, Create, Delete, EditRequest as Asked, Makes, Move, Refuses, Set};
ghost use Rattle.canvas_model.specs.Local.{counter_after, edited, rank};
ghost use Rattle.canvas_model.specs.Value.{IsShallow};
ghost use Rattle.canvas_client.specs.Asked.{HasCreated, HasMade, IsRefusal, NoneBefore, StandsStill};
ghost use Rattle.canvas_client.specs.Asked.{refusal, seen_target};
ghost use Rattle.canvas_client.specs.Placed.{MayAdd};

use crate::drafting::{
    comes_after_none, goes_below_itself, goes_too_deep, has_bad_parent, has_hidden_parent,
    is_hidden, moves_root, position_at,
};
use crate::request::Target;
use crate::{Client, EditError, EditRequest, EditRequestVariant};
use canvas_doc::{Change, ChangeVariant, Kind, Name, ObjId, Place, Value};
use canvas_model::LAST_VERSION;
use std::alloc::{AllocError, Allocator};

impl<A: Allocator> Client<A> {
    /// The change that the request makes at this client, or the first refusal that holds, in the order of `EditError`; but memory can
    /// be refused before. It changes nothing: `commit` makes the edit. A new object gets the client's id and its next counter, and a
    /// place half way between the child to come after and the next one. A move under another parent takes memory to look at what
    /// lies below the object.
    pub fn draft<B: Allocator + Copy, C: Allocator>(
        &self,
        alloc: B,
        request: &EditRequest<C>,
    ) -> Result<Change<B>, EditError>
        ensures ok { IfOk result (Makes self.now request.now) }
        ensures err { IfErr result (λ error. IsRefusal self.now request.now (refusal error)) }
    {
        let Some(client) = self.id() else {
            return Err(EditError::NotOpen);
        };
        if let Some(error) = self.refusal_shown(request) {
            return Err(error);
        }
        if goes_too_deep(alloc, self.view(), request)? {
            return Err(EditError::TooDeep);
        }
        self.draft_variant(alloc, client, request)
    }

    // The first refusal that the view gives, apart from depth and want of room.
    pub(crate) fn refusal_shown<C: Allocator>(&self, request: &EditRequest<C>) -> Option<EditError>
        requires { self.now.id ≡ None → ⊥ }
        ensures some { IfSome result (λ error. IsSomeAnd (refusal error) (Refuses self.now request.now)) }
        ensures early { IfSome result (λ error. IsSomeAnd (refusal error) (λ e. rank e < 6)) }
        ensures none { IfNone result (NoneBefore self.now request.now 6) }
    {
        if moves_root(request) {
            return Some(EditError::IsRoot);
        }
        if is_hidden(self.view(), request) {
            return Some(EditError::NotShown);
        }
        if comes_after_none(self.view(), request) {
            return Some(EditError::NotShown);
        }
        if has_hidden_parent(self.view(), request) {
            return Some(EditError::ParentNotShown);
        }
        if has_bad_parent(self.view(), request) {
            return Some(EditError::BadParent);
        }
        if goes_below_itself(self.view(), request) {
            return Some(EditError::OwnDescendant);
        }
        None
    }

    // The change that the request makes, or one of the last three refusals.
    fn draft_variant<B: Allocator + Copy, C: Allocator>(
        &self,
        alloc: B,
        client: u32,
        request: &EditRequest<C>,
    ) -> Result<Change<B>, EditError>
        requires id { self.now.id ≡ Some client }
        requires none { NoneBefore self.now request.now 7 }
        ensures ok { IfOk result (Makes self.now request.now) }
        ensures err { IfErr result (λ error. IsRefusal self.now request.now (refusal error)) }
    {
        match request.variant() {
            EditRequestVariant::Create {
                kind,
                parent,
                after,
            } => {
                let target = Target {
                    parent: *parent,
                    after: *after,
                };
                self.draft_create(alloc, client, *kind, target)
            }
            EditRequestVariant::Set { id, name, value } => self.draft_set(alloc, *id, name, value),
            EditRequestVariant::Clear { id, name } => self.draft_clear(alloc, *id, name),
            EditRequestVariant::Move { id, parent, after } => {
                let target = Target {
                    parent: *parent,
                    after: *after,
                };
                self.draft_move(alloc, *id, target)
            }
            EditRequestVariant::Delete { id } => self.draft_delete(*id),
        }
    }

    // The creation of an object at the target.
    fn draft_create<B: Allocator + Copy>(
        &self,
        alloc: B,
        client: u32,
        kind: Kind,
        target: Target,
    ) -> Result<Change<B>, EditError>
        requires id { self.now.id ≡ Some client }
        requires none { NoneBefore self.now (Create kind (seen_target target)) 7 }
        ensures ok { IfOk result (Makes self.now (Create kind (seen_target target))) }
        ensures err { IfErr result (λ error. IsRefusal self.now (Create kind (seen_target target)) (refusal error)) }
    {
        let pos = position_at(alloc, self.view(), ObjId::ROOT, target)?;
        let Some(counter) = self.next_counter() else {
            return Err(EditError::IdsSpent);
        };
        if self.is_full() {
            return Err(EditError::Full);
        }
        let place = Place {
            parent: target.parent,
            pos,
        };
        Ok(Change::create(ObjId { client, counter }, kind, place))
    }

    // A property given a value.
    fn draft_set<B: Allocator + Copy, C: Allocator>(
        &self,
        alloc: B,
        id: ObjId,
        name: &Name<C>,
        value: &Value<C>,
    ) -> Result<Change<B>, EditError>
        requires shallow { IsShallow value.now }
        requires none { NoneBefore self.now (Set id name.now value.now) 7 }
        ensures ok { IfOk result (Makes self.now (Set id name.now value.now)) }
        ensures err { IfErr result (λ error. IsRefusal self.now (Set id name.now value.now) (refusal error)) }
    {
        if self.is_full() {
            return Err(EditError::Full);
        }
        let value = value.copy_in(alloc)?;
        Ok(property_change(alloc, id, name, Some(value))?)
    }

    // A property taken away.
    fn draft_clear<B: Allocator + Copy, C: Allocator>(
        &self,
        alloc: B,
        id: ObjId,
        name: &Name<C>,
    ) -> Result<Change<B>, EditError>
        requires { NoneBefore self.now (Clear id name.now) 7 }
        ensures ok { IfOk result (Makes self.now (Clear id name.now)) }
        ensures err { IfErr result (λ error. IsRefusal self.now (Clear id name.now) (refusal error)) }
    {
        if self.is_full() {
            return Err(EditError::Full);
        }
        Ok(property_change(alloc, id, name, None)?)
    }

    // The move of an object to the target.
    fn draft_move<B: Allocator + Copy>(
        &self,
        alloc: B,
        id: ObjId,
        target: Target,
    ) -> Result<Change<B>, EditError>
        requires { NoneBefore self.now (Move id (seen_target target)) 7 }
        ensures ok { IfOk result (Makes self.now (Move id (seen_target target))) }
        ensures err { IfErr result (λ error. IsRefusal self.now (Move id (seen_target target)) (refusal error)) }
    {
        let pos = position_at(alloc, self.view(), id, target)?;
        if self.is_full() {
            return Err(EditError::Full);
        }
        let place = Place {
            parent: target.parent,
            pos,
        };
        Ok(Change::move_to(id, place))
    }

    // The deletion of an object.
    fn draft_delete<B: Allocator>(&self, id: ObjId) -> Result<Change<B>, EditError>
        requires { NoneBefore self.now (Delete id) 7 }
        ensures ok { IfOk result (Makes self.now (Delete id)) }
        ensures err { IfErr result (λ error. IsRefusal self.now (Delete id) (refusal error)) }
    {
        if self.is_full() {
            return Err(EditError::Full);
        }
        Ok(Change::delete(id))
    }

    // The counter of the next object that it creates, unless all are used.
    pub(crate) fn next_counter(&self) -> Option<u32>
        ensures some { IfSome result (λ counter. (self.now.counter ≢ 4294967295) × (counter ≡ self.now.counter + 1)) }
        ensures none { IfNone result (self.now.counter ≡ 4294967295) }
    {
        self.counter.checked_add(1)
    }

    // Checks whether the last number of an edit is given.
    pub(crate) fn is_full(&self) -> bool
        ensures { IsTrue result ↔ (last_number self.now ≡ 2 ^ 62) }
    {
        self.acknowledged + self.merged.waiting.len() as u64 == LAST_VERSION
    }
}

impl<A: Allocator + Copy> Client<A> {
    /// Makes the edit that was drafted here: it waits, and the view shows it. Answers its number, from 1. If memory runs out,
    /// nothing has changed.
    pub fn commit(&mut self, change: Change<A>) -> Result<u64, AllocError>
        requires { (request : Asked) × Makes self.old request change }
        ensures ok { OnOk result (self.new ≡ edited self.old change) }
        ensures number { IfOk result (λ n. n ≡ last_number self.old + 1) }
        ensures stands { OnOk result (StandsStill self.old self.new) }
        ensures err { OnErr result (self.new ≡ self.old) }
    {
        self.add_edit(change)
    }

    // Makes the change its next edit.
    pub(crate) fn add_edit(&mut self, change: Change<A>) -> Result<u64, AllocError>
        requires { MayAdd self.old change }
        ensures ok { OnOk result (self.new ≡ edited self.old change) }
        ensures number { IfOk result (λ n. n ≡ last_number self.old + 1) }
        ensures stands { OnOk result (StandsStill self.old self.new) }
        ensures err { OnErr result (self.new ≡ self.old) }
    {
        let counter = counter_after(self.counter, &change);
        self.merged.add(change)?;
        self.counter = counter;
        Ok(self.acknowledged + self.merged.waiting.len() as u64)
    }

    /// Makes the edit that is asked for: it waits, and the view shows it. Answers its number, from 1. The refusals are those of
    /// `draft`, and after each nothing has changed.
    pub fn edit<B: Allocator>(&mut self, request: &EditRequest<B>) -> Result<u64, EditError>
        ensures ok { OnOk result (HasMade self.old request.now self.new) }
        ensures number { IfOk result (λ n. n ≡ last_number self.old + 1) }
        ensures stands { OnOk result (StandsStill self.old self.new) }
        ensures refused { IfErr result (λ error. IsRefusal self.old request.now (refusal error)) }
        ensures err { OnErr result (self.new ≡ self.old) }
    {
        let change = self.draft(self.allocator(), request)?;
        let number = self.commit(change)?;
        Ok(number)
    }

    /// Creates an object under `parent`, after its child `after`, or first where there is none. Answers the edit's number and the
    /// object's id. The refusals are those of `draft`, and after each nothing has changed.
    pub fn create(
        &mut self,
        kind: Kind,
        parent: ObjId,
        after: Option<ObjId>,
    ) -> Result<(u64, ObjId), EditError>
        ensures ok { IfOk result (λ made. HasCreated self.old (Create kind (record { parent = parent; after = after })) made.1 self.new) }
        ensures number { IfOk result (λ made. made.0 ≡ last_number self.old + 1) }
        ensures stands { OnOk result (StandsStill self.old self.new) }
        ensures refused { IfErr result (λ error. IsRefusal self.old (Create kind (record { parent = parent; after = after })) (refusal error)) }
        ensures err { OnErr result (self.new ≡ self.old) }
    {
        let change = self.draft_creation(kind, parent, after)?;
        let id = object_of(&change);
        let number = self.commit(change)?;
        Ok((number, id))
    }

    // The change that creates an object under `parent`, after its child `after`.
    fn draft_creation(
        &self,
        kind: Kind,
        parent: ObjId,
        after: Option<ObjId>,
    ) -> Result<Change<A>, EditError>
        ensures ok { IfOk result (Makes self.now (Create kind (record { parent = parent; after = after }))) }
        ensures err { IfErr result (λ error. IsRefusal self.now (Create kind (record { parent = parent; after = after })) (refusal error)) }
    {
        let request: EditRequest<A> = EditRequest::create(kind, parent, after);
        self.draft(self.allocator(), &request)
    }

    /// Gives a property of an object this value, which must not be too deep. Answers the edit's number. The refusals are those of
    /// `draft`, and after each nothing has changed.
    pub fn set(&mut self, id: ObjId, name: Name<A>, value: Value<A>) -> Result<u64, EditError>
        requires { IsShallow value }
        ensures ok { OnOk result (HasMade self.old (Set id name value) self.new) }
        ensures number { IfOk result (λ n. n ≡ last_number self.old + 1) }
        ensures stands { OnOk result (StandsStill self.old self.new) }
        ensures refused { IfErr result (λ error. IsRefusal self.old (Set id name value) (refusal error)) }
        ensures err { OnErr result (self.new ≡ self.old) }
    {
        let Ok(request) = EditRequest::set(id, name, value) else {
            unreachable!()
        };
        self.edit(&request)
    }

    /// Takes a property of an object away. Answers the edit's number. The refusals are those of `draft`, and after each nothing has
    /// changed.
    pub fn clear(&mut self, id: ObjId, name: Name<A>) -> Result<u64, EditError>
        ensures ok { OnOk result (HasMade self.old (Clear id name) self.new) }
        ensures number { IfOk result (λ n. n ≡ last_number self.old + 1) }
        ensures stands { OnOk result (StandsStill self.old self.new) }
        ensures refused { IfErr result (λ error. IsRefusal self.old (Clear id name) (refusal error)) }
        ensures err { OnErr result (self.new ≡ self.old) }
    {
        let request = EditRequest::clear(id, name);
        self.edit(&request)
    }

    /// Moves an object under `parent`, after its child `after`, or first where there is none. Answers the edit's number. The refusals
    /// are those of `draft`, and after each nothing has changed.
    pub fn move_to(
        &mut self,
        id: ObjId,
        parent: ObjId,
        after: Option<ObjId>,
    ) -> Result<u64, EditError>
        ensures ok { OnOk result (HasMade self.old (Move id (record { parent = parent; after = after })) self.new) }
        ensures number { IfOk result (λ n. n ≡ last_number self.old + 1) }
        ensures stands { OnOk result (StandsStill self.old self.new) }
        ensures refused { IfErr result (λ error. IsRefusal self.old (Move id (record { parent = parent; after = after })) (refusal error)) }
        ensures err { OnErr result (self.new ≡ self.old) }
    {
        let request: EditRequest<A> = EditRequest::move_to(id, parent, after);
        self.edit(&request)
    }

    /// Removes an object; what lies below it is shown no more. Answers the edit's number. The refusals are those of `draft`, and after
    /// each nothing has changed.
    pub fn delete(&mut self, id: ObjId) -> Result<u64, EditError>
        ensures ok { OnOk result (HasMade self.old (Delete id) self.new) }
        ensures number { IfOk result (λ n. n ≡ last_number self.old + 1) }
        ensures stands { OnOk result (StandsStill self.old self.new) }
        ensures refused { IfErr result (λ error. IsRefusal self.old (Delete id) (refusal error)) }
        ensures err { OnErr result (self.new ≡ self.old) }
    {
        let request: EditRequest<A> = EditRequest::delete(id);
        self.edit(&request)
    }

    // The allocator under which it stands.
    pub(crate) fn allocator(&self) -> A {
        self.merged.waiting.allocator()
    }
}

// A property given a copied value, which must not be too deep, or taken away where there is none.
fn property_change<B: Allocator + Copy, C: Allocator>(
    alloc: B,
    id: ObjId,
    name: &Name<C>,
    value: Option<Value<B>>,
) -> Result<Change<B>, AllocError>
    requires { HoldsShallow (change.Set id name.now value) }
    ensures { IfOk result (λ made. made ≡ change.Set id name.now value) }
{
    let name = name.copy_in(alloc)?;
    match Change::set(id, name, value) {
        Ok(change) => Ok(change),
        Err(_) => unreachable!(),
    }
}

// The counter of a client's last creation, after this change.
fn counter_after<A: Allocator>(counter: u32, change: &Change<A>) -> u32
    ensures { result ≡ counter_after counter change.now }
{
    match change.variant() {
        ChangeVariant::Create { id, .. } => id.counter,
        _ => counter,
    }
}

// The object that is changed.
fn object_of<A: Allocator>(change: &Change<A>) -> ObjId
    ensures { result ≡ object_of change.now }
{
    match change.variant() {
        ChangeVariant::Create { id, .. } => *id,
        ChangeVariant::Set { id, .. } => *id,
        ChangeVariant::Move { id, .. } => *id,
        ChangeVariant::Delete { id } => *id,
    }
}
