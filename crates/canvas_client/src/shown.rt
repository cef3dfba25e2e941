// A view, and how often it was changed.
ghost use Rattle.std.specs.Prelude.{◌≡◌, ◌≢◌, ◌+◌, false, OnOk, OnErr, Some};
ghost use Rattle.std.specs.Option.{option_map};
ghost use Rattle.std.specs.FinMap as map;
ghost use Rattle.canvas_model.specs.Ids.{root};
ghost use Rattle.canvas_model.specs.Document.{live, new_object, revise, with_place, with_prop};
ghost use Rattle.canvas_model.specs.Overlay.{lay};

use crate::Changes;
use canvas_doc::{Change, Doc, Kind, Name, ObjId, Place, Value};
use std::alloc::{AllocError, Allocator, Global};

/// A view, with the count of its changes: each call below that changes it counts one.
pub struct Shown<A: Allocator = Global> {
    pub(crate) doc: Doc<A>,
    pub(crate) changes: Changes,
}

impl<A: Allocator> Drop for Shown<A> {
    fn drop(self) {
        let Shown { doc: _, changes: _ } = self;
    }
}

impl<A: Allocator + Copy> Shown<A> {
    // Adds an object without properties, whose id must not be live. If memory runs out, nothing has changed.
    pub(crate) fn put_object(
        &mut self,
        id: ObjId,
        kind: Kind,
        place: Place<A>,
    ) -> Result<(), AllocError>
        requires { live self.old.doc id ≡ false }
        ensures ok { OnOk result (self.new.doc ≡ revise self.old.doc id (Some (new_object kind (Some place)))) }
        ensures count { OnOk result (self.new.changes.count ≡ self.old.changes.count + 1) }
        ensures err { OnErr result (self.new ≡ self.old) }
    {
        self.doc.put_object(id, kind, place)?;
        self.changes = self.changes.raised();
        Ok(())
    }

    // Moves an object, which must not be the root, to another place.
    pub(crate) fn put_place(&mut self, id: ObjId, place: Place<A>)
        requires { id ≢ root }
        ensures doc { self.new.doc ≡ revise self.old.doc id (option_map (with_place place) (map.get self.old.doc id)) }
        ensures count { self.new.changes.count ≡ self.old.changes.count + 1 }
    {
        self.doc.put_place(id, place);
        self.changes = self.changes.raised();
    }

    // Gives a property of an object this value, or takes the property away. If memory runs out, nothing has changed.
    pub(crate) fn put_prop(
        &mut self,
        id: ObjId,
        name: Name<A>,
        value: Option<Value<A>>,
    ) -> Result<(), AllocError>
        ensures ok { OnOk result (self.new.doc ≡ revise self.old.doc id (option_map (with_prop name value) (map.get self.old.doc id))) }
        ensures count { OnOk result (self.new.changes.count ≡ self.old.changes.count + 1) }
        ensures err { OnErr result (self.new ≡ self.old) }
    {
        self.doc.put_prop(id, name, value)?;
        self.changes = self.changes.raised();
        Ok(())
    }

    // Lays an edit over it. If memory runs out, nothing has changed.
    pub(crate) fn overlay(&mut self, change: &Change<A>) -> Result<(), AllocError>
        ensures ok { OnOk result (self.new.doc ≡ lay self.old.doc change.now) }
        ensures err { OnErr result (self.new ≡ self.old) }
    {
        self.doc.overlay(change)?;
        self.changes = self.changes.raised();
        Ok(())
    }
}

impl<A: Allocator> Shown<A> {
    // Removes an object, which must not be the root.
    pub(crate) fn remove(&mut self, id: ObjId)
        requires { id ≢ root }
        ensures doc { self.new.doc ≡ map.remove self.old.doc id }
        ensures count { self.new.changes.count ≡ self.old.changes.count + 1 }
    {
        self.doc.remove(id);
        self.changes = self.changes.raised();
    }
}
