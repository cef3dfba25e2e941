// What a user asks of a client.
ghost use Rattle.std.specs.Prelude.{◌≡◌, ◌↔◌, IsTrue, IsOk, IfOk};
ghost use Rattle.std.specs.Option.{option_map};
ghost use Rattle.canvas_model.specs.Local.{Clear, Create, Delete, Move, Set, left_out, target_asked, subject};
ghost use Rattle.canvas_client.specs.Asked.{HoldsShallow, seen_edit_request, seen_target};

use canvas_doc::{Kind, Name, ObjId, TooDeep, Value};
use std::alloc::{AllocError, Allocator, Global};
use std::marker::Model;

/// What a user asks of a client. It holds no value that is too deep.
pub struct EditRequest<A: Allocator = Global> {
    variant: EditRequestVariant<A>,
}

impl<A: Allocator> Drop for EditRequest<A> {
    fn drop(self) {
        let EditRequest { variant: _ } = self;
    }
}

/// What a request asks for.
#[derive(Drop)]
pub enum EditRequestVariant<A: Allocator = Global> {
    /// A new object of this kind under `parent`, after its child `after`, or first where there is none.
    Create {
        kind: Kind,
        parent: ObjId,
        after: Option<ObjId>,
    },
    /// A property of an object given this value.
    Set {
        id: ObjId,
        name: Name<A>,
        value: Value<A>,
    },
    /// A property of an object taken away.
    Clear {
        id: ObjId,
        name: Name<A>,
    },
    /// An object moved under `parent`, after its child `after`, or first where there is none.
    Move {
        id: ObjId,
        parent: ObjId,
        after: Option<ObjId>,
    },
    /// An object removed, with all that lies below it.
    Delete {
        id: ObjId,
    },
}

impl<A: Allocator> Model for EditRequest<A> {
    ghost use Rattle.std.specs.Coded.{codes};
    ghost use Rattle.canvas_model.specs.Local as local;
    ghost use Rattle.canvas_model.specs.Codes.{value_code};
    ghost use Rattle.canvas_client.specs.Asked.{HoldsShallow, seen_edit_request};

    ghost Value = { local.EditRequest };

    ghost coded = { Prim.hlevel (codes, value_code) };

    ghost view = { λ r. seen_edit_request r.variant };

    ghost invariant = { λ r. HoldsShallow (seen_edit_request r.variant) };
}

// Where an object is to stand: its parent, and the child that it comes after, or none to come first.
#[derive(Clone, Copy)]
pub(crate) struct Target {
    pub(crate) parent: ObjId,
    pub(crate) after: Option<ObjId>,
}

impl<A: Allocator> EditRequest<A> {
    /// A new object of this kind under `parent`, after its child `after`, or first where there is none.
    pub fn create(kind: Kind, parent: ObjId, after: Option<ObjId>) -> Self
        ensures { result ≡ Create kind (record { parent = parent; after = after }) }
    {
        EditRequest {
            variant: EditRequestVariant::Create {
                kind,
                parent,
                after,
            },
        }
    }

    /// A property of an object given this value. Fails where the value is too deep.
    pub fn set(id: ObjId, name: Name<A>, value: Value<A>) -> Result<Self, TooDeep>
        ensures ok { IfOk result (λ r. r ≡ Set id name value) }
        ensures shallow { IsOk result ↔ HoldsShallow (Set id name value) }
    {
        value.check()?;
        Ok(EditRequest {
            variant: EditRequestVariant::Set { id, name, value },
        })
    }

    /// A property of an object taken away.
    pub fn clear(id: ObjId, name: Name<A>) -> Self
        ensures { result ≡ Clear id name }
    {
        EditRequest {
            variant: EditRequestVariant::Clear { id, name },
        }
    }

    /// An object moved under `parent`, after its child `after`, or first where there is none.
    pub fn move_to(id: ObjId, parent: ObjId, after: Option<ObjId>) -> Self
        ensures { result ≡ Move id (record { parent = parent; after = after }) }
    {
        EditRequest {
            variant: EditRequestVariant::Move { id, parent, after },
        }
    }

    /// An object removed, with all that lies below it.
    pub fn delete(id: ObjId) -> Self
        ensures { result ≡ Delete id }
    {
        EditRequest {
            variant: EditRequestVariant::Delete { id },
        }
    }

    /// What the request asks for.
    pub fn variant(&self) -> &EditRequestVariant<A>
        ensures variant { seen_edit_request result.now ≡ self.now }
        ensures shallow { HoldsShallow self.now }
    {
        &self.variant
    }

    /// The same request under another allocator. Errors: out of memory.
    pub fn copy_in<B: Allocator + Copy>(&self, alloc: B) -> Result<EditRequest<B>, AllocError>
        ensures { IfOk result (λ r. r ≡ self.now) }
    {
        match &self.variant {
            EditRequestVariant::Create {
                kind,
                parent,
                after,
            } => { Ok(EditRequest::create(*kind, *parent, *after)) }
            EditRequestVariant::Set { id, name, value } => {
                let name = name.copy_in(alloc)?;
                let value = value.copy_in(alloc)?;
                Ok(EditRequest {
                    variant: EditRequestVariant::Set {
                        id: *id,
                        name,
                        value,
                    },
                })
            }
            EditRequestVariant::Clear { id, name } => {
                let name = name.copy_in(alloc)?;
                Ok(EditRequest::clear(*id, name))
            }
            EditRequestVariant::Move { id, parent, after } => {
                Ok(EditRequest::move_to(*id, *parent, *after))
            }
            EditRequestVariant::Delete { id } => Ok(EditRequest::delete(*id)),
        }
    }

    /// Checks whether two requests are the same.
    pub fn same<B: Allocator>(&self, other: &EditRequest<B>) -> bool
        ensures { IsTrue result ↔ (self.now ≡ other.now) }
    {
        match (&self.variant, &other.variant) {
            (
                EditRequestVariant::Create {
                    kind,
                    parent,
                    after,
                },
                EditRequestVariant::Create {
                    kind: other_kind,
                    parent: other_parent,
                    after: other_after,
                },
            ) => *kind == *other_kind && *parent == *other_parent && *after == *other_after,
            (
                EditRequestVariant::Set { id, name, value },
                EditRequestVariant::Set {
                    id: other_id,
                    name: other_name,
                    value: other_value,
                },
            ) => *id == *other_id && name.same(other_name) && value.same(other_value),
            (
                EditRequestVariant::Clear { id, name },
                EditRequestVariant::Clear {
                    id: other_id,
                    name: other_name,
                },
            ) => *id == *other_id && name.same(other_name),
            (
                EditRequestVariant::Move { id, parent, after },
                EditRequestVariant::Move {
                    id: other_id,
                    parent: other_parent,
                    after: other_after,
                },
            ) => *id == *other_id && *parent == *other_parent && *after == *other_after,
            (EditRequestVariant::Delete { id }, EditRequestVariant::Delete { id: other_id }) => *id
                == *other_id,
            _ => false,
        }
    }

    // The object that the request names; one to be created has no id yet.
    pub(crate) fn subject(&self) -> Option<ObjId>
        ensures { result ≡ subject self.now }
    {
        match &self.variant {
            EditRequestVariant::Create { .. } => None,
            EditRequestVariant::Set { id, .. } => Some(*id),
            EditRequestVariant::Clear { id, .. } => Some(*id),
            EditRequestVariant::Move { id, .. } => Some(*id),
            EditRequestVariant::Delete { id } => Some(*id),
        }
    }

    // The target that it asks for.
    pub(crate) fn target(&self) -> Option<Target>
        ensures { option_map seen_target result ≡ target_asked self.now }
    {
        match &self.variant {
            EditRequestVariant::Create { parent, after, .. } => Some(Target {
                parent: *parent,
                after: *after,
            }),
            EditRequestVariant::Move { parent, after, .. } => Some(Target {
                parent: *parent,
                after: *after,
            }),
            _ => None,
        }
    }

    // The object that isn't counted among the siblings: the moved one, and for a new one the root, which is nobody's child.
    pub(crate) fn left_out(&self) -> ObjId
        ensures { result ≡ left_out self.now }
    {
        match &self.variant {
            EditRequestVariant::Move { id, .. } => *id,
            _ => ObjId::ROOT,
        }
    }
}
