// What is kept of a live object.
ghost use Rattle.std.specs.Prelude.{◌≡◌, ◌↔◌, T, Some, IsSome, IsTrue, IfOk, IfErr, IfSome, OnOk, OnErr};
ghost use Rattle.std.specs.Option.{option_copied};
ghost use Rattle.std.specs.FinMap as map;
ghost use Rattle.canvas_doc.specs.Sorted.{IsPairAt, IsGapAt};
ghost use Rattle.canvas_model.specs.Document as document;
ghost use Rattle.canvas_model.specs.Document.{name_cmp, new_object, with_place, with_prop};
ghost use Rattle.canvas_value.specs.Props.{IsProp};
ghost use Rattle.canvas_doc.specs.Known.{IsObject, IsPlace};

use crate::sorted::{is_sorted, put, take_out};
use crate::{Kind, Name, ObjId, Place, Value};
use canvas_value::{copy_props, every_prop, same_props};
use std::alloc::{AllocError, Allocator, Global};
use std::cmp::Ordering;
use std::marker::Model;

/// What is kept of a live object: its kind, its place unless it is the root, and its properties.
#[derive(Debug)]
pub struct Object<A: Allocator = Global> {
    kind: Kind,
    place: Option<Place<A>>,
    props: Vec<(Name<A>, Value<A>), A>,
}

impl<A: Allocator> Drop for Object<A> {
    fn drop(self) {
        let Object {
            kind: _,
            place: _,
            props: _,
        } = self;
    }
}

impl<A: Allocator> Model for Object<A> {
    ghost use Rattle.std.specs.Prelude.{T};
    ghost use Rattle.std.specs.FinMap as map;
    ghost use Rattle.canvas_model.specs.Document as document;
    ghost use Rattle.canvas_model.specs.Document.{name_cmp};
    ghost use Rattle.canvas_model.specs.Codes.{object_code};

    ghost Value = { document.Object };

    ghost coded = { object_code };

    ghost view = { λ o. record { kind = o.kind; place = o.place; props = map.from_sorted o.props.items } };

    ghost use Rattle.canvas_doc.specs.Known.{IsObject};

    ghost invariant = { λ o. record { sorted : T (map.is_sorted name_cmp o.props.items); known : IsObject (record { kind = o.kind; place = o.place; props = map.from_sorted o.props.items }) } };
}

impl<A: Allocator> Object<A> {
    /// An object without properties.
    pub fn new(alloc: A, kind: Kind, place: Option<Place<A>>) -> Self
        ensures object { result ≡ new_object kind place }
        ensures known { IsObject result }
    {
        know_place(&place);
        Object {
            kind,
            place,
            props: Vec::new(alloc),
        }
    }

    /// The object of these parts, where the names of the properties rise strictly. Takes no memory.
    pub fn from_parts(
        kind: Kind,
        place: Option<Place<A>>,
        props: Vec<(Name<A>, Value<A>), A>,
    ) -> Option<Self>
        ensures some { IfSome result (λ o. o ≡ record { kind = kind; place = place; props = map.from_sorted props.items }) }
        ensures entries { IfSome result (λ o. map.entries o.props ≡ props.items) }
        ensures none { IsSome result ↔ T (map.is_sorted name_cmp props.items) }
    {
        if is_sorted(&props) {
            know_place(&place);
            every_prop(&props);
            Some(Object { kind, place, props })
        } else {
            None
        }
    }

    /// What the types of its parts say of the object. It does nothing when it runs.
    pub fn every_part(&self)
        ensures { IsObject self.now }
    {
        let _kind = self.kind;
    }

    /// What the object is.
    pub fn kind(&self) -> Kind
        ensures { result ≡ self.now.kind }
    {
        self.kind
    }

    /// Where the object stands. The root has no place.
    pub fn place(&self) -> Option<&Place<A>>
        ensures { option_copied result ≡ self.now.place }
    {
        self.place.as_ref()
    }

    /// All properties in the order of their names.
    pub fn props(&self) -> &[(Name<A>, Value<A>)]
        ensures { result.now ≡ map.entries self.now.props }
    {
        &self.props
    }

    /// The value of the property, if the object has it.
    pub fn get<B: Allocator>(&self, name: &Name<B>) -> Option<&Value<A>>
        ensures { option_copied result ≡ map.get self.now.props name.now }
    {
        value_named(&self.props, name)
    }

    /// Moves the object to another place.
    pub fn put_place(&mut self, place: Place<A>)
        ensures moved { self.new ≡ with_place place self.old }
        ensures known { IsObject self.new }
    {
        let place = Some(place);
        know_place(&place);
        self.place = place;
    }

    /// Gives a property this value, or takes the property away where there is none. If memory runs out, nothing has
    /// changed.
    pub fn put_prop(&mut self, name: Name<A>, value: Option<Value<A>>) -> Result<(), AllocError>
        ensures ok { OnOk result (self.new ≡ with_prop name value self.old) }
        ensures err { OnErr result (self.new ≡ self.old) }
        ensures known { IsObject self.new }
    {
        match value {
            Some(value) => {
                know_prop(&name, &value);
                put(&mut self.props, name, value)?
            }
            None => take_out(&mut self.props, &name),
        }
        Ok(())
    }

    /// The same object under another allocator. Errors: out of memory.
    pub fn copy_in<B: Allocator + Copy>(&self, alloc: B) -> Result<Object<B>, AllocError>
        ensures { IfOk result (λ o. o ≡ self.now) }
    {
        let place = copy_place(alloc, &self.place)?;
        let props = copy_props(alloc, &self.props)?;
        Ok(Object {
            kind: self.kind,
            place,
            props,
        })
    }

    /// Checks whether two objects are the same.
    pub fn same<B: Allocator>(&self, other: &Object<B>) -> bool
        ensures { IsTrue result ↔ (self.now ≡ other.now) }
    {
        stand_alike(self, other) && same_props(&self.props, &other.props)
    }
}

// Checks whether the two are of one kind and stand at one place.
fn stand_alike<A: Allocator, B: Allocator>(object: &Object<A>, other: &Object<B>) -> bool
    ensures { IsTrue result ↔ (object.now.place ≡ other.now.place) × (object.now.kind ≡ other.now.kind) }
{
    same_place(&object.place, &other.place) && object.kind == other.kind
}

// The value of the property, if it is one of these, which stand in the order of their names.
fn value_named<'a, A: Allocator, B: Allocator>(
    props: &'a [(Name<A>, Value<A>)],
    name: &Name<B>,
) -> Option<&'a Value<A>>
    requires { T (map.is_sorted name_cmp props.now) }
    ensures { option_copied result ≡ map.find name_cmp name.now props.now }
{
    match index_named(props, name) {
        Ok(at) => Some(&props[at].1),
        Err(_) => None,
    }
}

// The index of the property, or the one where it would go.
fn index_named<A: Allocator, B: Allocator>(
    props: &[(Name<A>, Value<A>)],
    name: &Name<B>,
) -> Result<usize, usize>
    requires { T (map.is_sorted name_cmp props.now) }
    ensures found { IfOk result (λ i. IsPairAt name_cmp props.now name.now i) }
    ensures absent { IfErr result (λ i. IsGapAt name_cmp props.now name.now i) }
{
    props.binary_search_by(
        |prop: &(Name<A>, Value<A>)| -> Ordering
            ensures { result ≡ name_cmp prop.now.0 name.entry.now }
        { prop.0.compare(name) },
    )
}

// What the types of its parts say of a place, if there is one.
fn know_place<A: Allocator>(place: &Option<Place<A>>)
    ensures { (p : document.Place) → place.now ≡ Some p → IsPlace p }
{
    if let Some(place) = place {
        place.every_part();
    }
}

// What the types of its parts say of a property.
fn know_prop<A: Allocator>(name: &Name<A>, value: &Value<A>)
    ensures { IsProp (name.now, value.now) }
{
    let _bytes = name.bytes();
    let _variant = value.variant();
}

// The same place under another allocator, or none again.
fn copy_place<A: Allocator, B: Allocator + Copy>(
    alloc: B,
    place: &Option<Place<A>>,
) -> Result<Option<Place<B>>, AllocError>
    ensures { IfOk result (λ copy. copy ≡ place.now) }
{
    place.as_ref().map(|place| place.copy_in(alloc)).transpose()
}

// Checks whether the two are the same place, or both none.
fn same_place<A: Allocator, B: Allocator>(
    place: &Option<Place<A>>,
    other: &Option<Place<B>>,
) -> bool
    ensures { IsTrue result ↔ (place.now ≡ other.now) }
{
    match (place, other) {
        (Some(place), Some(other)) => place.same(other),
        (None, None) => true,
        _ => false,
    }
}

/// Checks whether two objects and their ids are the same.
pub fn same_object<A: Allocator, B: Allocator>(
    pair: &(ObjId, Object<A>),
    other: &(ObjId, Object<B>),
) -> bool
    ensures { IsTrue result ↔ (pair.now ≡ other.now) }
{
    pair.0 == other.0 && pair.1.same(&other.1)
}
