// Changes laid over a document.
ghost use Rattle.std.specs.Prelude.{◌≡◌, OnOk, OnErr};
ghost use Rattle.canvas_model.specs.Overlay.{lay};

use crate::{Change, ChangeVariant, Doc, ObjId};
use canvas_value::copy_value;
use std::alloc::{AllocError, Allocator};

impl<A: Allocator + Copy> Doc<A> {
    /// Lays a change over the document, with no verdict asked: an object that isn't live is created, a property is set or cleared,
    /// an object is moved, or is removed without what lies below it. What isn't live is neither set nor moved nor removed, what is
    /// live isn't created, and of the root only properties change. Fails only if memory runs out, and then nothing has changed.
    pub fn overlay<B: Allocator>(&mut self, change: &Change<B>) -> Result<(), AllocError>
        ensures ok { OnOk result (self.new ≡ lay self.old change.now) }
        ensures err { OnErr result (self.new ≡ self.old) }
    {
        let alloc = self.allocator();
        match change.variant() {
            ChangeVariant::Create { id, kind, place } => {
                if *id == ObjId::ROOT || self.has(*id) {
                    return Ok(());
                }
                let place = place.copy_in(alloc)?;
                self.put_object(*id, *kind, place)
            }
            ChangeVariant::Set { id, name, value } => {
                let name = name.copy_in(alloc)?;
                let value = copy_value(alloc, value)?;
                self.put_prop(*id, name, value)
            }
            ChangeVariant::Move { id, place } => {
                if *id == ObjId::ROOT {
                    return Ok(());
                }
                let place = place.copy_in(alloc)?;
                self.put_place(*id, place);
                Ok(())
            }
            ChangeVariant::Delete { id } => {
                if *id != ObjId::ROOT {
                    self.remove(*id);
                }
                Ok(())
            }
        }
    }

    // The allocator under which the document stands.
    fn allocator(&self) -> A {
        self.rows.allocator()
    }
}
