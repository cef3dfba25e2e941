// What an edit does to one field.
ghost use Rattle.std.specs.Prelude.{◌≡◌};
ghost use Rattle.canvas_model.specs.View.{deletes_it, moves_it, sets_it};

use canvas_doc::{Change, ChangeVariant, Name, ObjId};
use std::alloc::Allocator;

/// Checks whether the change moves the object, which isn't the root.
pub fn moves<A: Allocator>(change: &Change<A>, id: ObjId) -> bool
    ensures { result ≡ moves_it id change.now }
{
    match change.variant() {
        ChangeVariant::Move { id: moved, .. } => id == *moved && *moved != ObjId::ROOT,
        _ => false,
    }
}

/// Checks whether the change deletes the object, which isn't the root.
pub fn deletes<A: Allocator>(change: &Change<A>, id: ObjId) -> bool
    ensures { result ≡ deletes_it id change.now }
{
    match change.variant() {
        ChangeVariant::Delete { id: deleted } => id == *deleted && *deleted != ObjId::ROOT,
        _ => false,
    }
}

/// Checks whether the change sets or clears this property of the object.
pub fn sets<A: Allocator, B: Allocator>(change: &Change<A>, id: ObjId, name: &Name<B>) -> bool
    ensures { result ≡ sets_it id name.now change.now }
{
    match change.variant() {
        ChangeVariant::Set {
            id: set,
            name: other,
            ..
        } => id == *set && name.same(other),
        _ => false,
    }
}
