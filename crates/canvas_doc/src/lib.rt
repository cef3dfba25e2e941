//! The document of a canvas: its live objects by their ids, and the changes that are asked of it.
#![tactic(auto)]

ghost use Rattle.std.specs.Prelude.{◌≡◌, ◌≢◌, ◌↔◌, false, length, IsSome, IsTrue, IfOk, IfSome, OnOk, OnErr};
ghost use Rattle.std.specs.List.{All, Contains, list_all};
ghost use Rattle.std.specs.List.Sorted.{IsStrictlySortedBy};
ghost use Rattle.std.specs.Option.{option_copied, option_map};
ghost use Rattle.std.specs.FinMap as map;
ghost use Rattle.canvas_model.specs.Ids.{id_cmp, root};
ghost use Rattle.canvas_model.specs.Document.{IsDocument, blank, live, new_object, revise, with_place, with_prop, without};
ghost use Rattle.canvas_model.specs.Document as document;
ghost use Rattle.canvas_model.specs.Sibling.{IsTaken, IsNext};
ghost use Rattle.canvas_model.specs.Children.{AreChildren};
ghost use Rattle.canvas_doc.specs.Known.{HasObjects, IsRow};
ghost use Rattle.canvas_doc.specs.Whole.{AreDocument, AreRooted, IsRoot, is_placed};

use canvas_blocks::BlockList;
use canvas_pos::Pos;
use std::alloc::{AllocError, Allocator, Global};
use std::marker::Model;

mod change;
mod depths;
mod object;
mod objects;
mod overlay;
mod place;
mod rows;
mod sorted;
mod spots;

pub use canvas_model::{Kind, ObjId};
pub use canvas_value::{Name, TooDeep, Value};
pub use change::{Change, ChangeVariant};
pub use object::Object;
pub use objects::Objects;
pub use place::Place;
use place::know_id;
use rows::{Rows, copy_rows, object_of, put_row, replace_row, rows_and_spots, same_rows, take_row};
use sorted::is_sorted;
use spots::{
    Spots, copy_spots, from_cut, ids_under, move_spot, next_of, put_spot, stands_there, take_spot,
};

/// A document: its live objects by their ids. The root, `ObjId::ROOT`, is always live, a `Document` without a place;
/// every other live object has a place, whose parent may be any id.
///
/// The objects stand in blocks in id order, and beside them their spots in the order of parents, positions and ids, each with the
/// first digits of its position: what is asked of one object or of one place takes the logarithm of their number, and what adds,
/// moves or removes one moves a block at most.
#[derive(Debug)]
pub struct Doc<A: Allocator = Global> {
    rows: Rows<A>,
    spots: Spots<A>,
}

impl<A: Allocator> Drop for Doc<A> {
    fn drop(self) {
        let Doc { rows: _, spots: _ } = self;
    }
}

impl<A: Allocator> Model for Doc<A> {
    ghost use Rattle.std.specs.Prelude.{T};
    ghost use Rattle.std.specs.FinMap as map;
    ghost use Rattle.canvas_model.specs.Ids.{id_cmp};
    ghost use Rattle.canvas_model.specs.Codes.{doc_code};
    ghost use Rattle.canvas_model.specs.Document as document;
    ghost use Rattle.canvas_model.specs.Document.{place_of};

    ghost Value = { document.Doc };

    ghost coded = { doc_code };

    ghost view = { λ d. map.from_sorted d.rows };

    ghost use Rattle.canvas_doc.specs.Known.{HasObjects};
    ghost use Rattle.canvas_doc.specs.Spots.{AreSpots};

    ghost invariant = { λ d. record { sorted : T (map.is_sorted id_cmp d.rows); document : document.IsDocument (map.from_sorted d.rows); known : HasObjects (map.from_sorted d.rows); spots : AreSpots (place_of (map.from_sorted d.rows)) d.spots } };
}

impl<A: Allocator + Copy> Doc<A> {
    /// The document of the root alone. Errors: out of memory.
    pub fn new(alloc: A) -> Result<Self, AllocError>
        ensures { IfOk result (λ d. d ≡ blank) }
    {
        let mut rows = BlockList::new(alloc);
        rows.push((ObjId::ROOT, Object::new(alloc, Kind::Document, None)))?;
        Ok(Doc {
            rows,
            spots: BlockList::new(alloc),
        })
    }

    /// Adds an object without properties, whose id must not be live. If memory runs out, nothing has changed.
    pub fn put_object(&mut self, id: ObjId, kind: Kind, place: Place<A>) -> Result<(), AllocError>
        requires { live self.old id ≡ false }
        ensures ok { OnOk result (self.new ≡ revise self.old id (Some (new_object kind (Some place)))) }
        ensures err { OnErr result (self.new ≡ self.old) }
    {
        let alloc = self.rows.allocator();
        put_row(&mut self.rows, id, Object::new(alloc, kind, Some(place)))?;
        if put_spot(&self.rows, &mut self.spots, id).is_err() {
            take_row(&mut self.rows, id);
            return Err(AllocError);
        }
        Ok(())
    }

    /// The document of exactly these objects, where their ids rise strictly, the first is the root, a `Document` without a
    /// place, and each of the others has a place; else none. Errors: out of memory.
    pub fn from_objects(objects: Vec<(ObjId, Object<A>), A>) -> Result<Option<Self>, AllocError>
        ensures some { IfOk result (λ made. IfSome made (λ d. d ≡ map.from_sorted objects.items)) }
        ensures entries { IfOk result (λ made. IfSome made (λ d. map.entries d ≡ objects.items)) }
        ensures none { IfOk result (λ made. IsSome made ↔ AreDocument objects.items) }
    {
        if !is_document(&objects) {
            return Ok(None);
        }
        know_rows(&objects);
        let (rows, spots) = rows_and_spots(objects)?;
        Ok(Some(Doc { rows, spots }))
    }

    /// Moves an object, which must not be the root, to another place. If it isn't live, nothing changes.
    pub fn put_place(&mut self, id: ObjId, place: Place<A>)
        requires { id ≢ root }
        ensures { self.new ≡ revise self.old id (option_map (with_place place) (map.get self.old id)) }
    {
        if object_of(&self.rows, id).is_none() {
            return;
        }
        move_spot(&self.rows, &mut self.spots, id, &place);
        let bare = Object::new(self.rows.allocator(), Kind::Document, None);
        let mut object = replace_row(&mut self.rows, id, bare);
        object.put_place(place);
        let _ = replace_row(&mut self.rows, id, object);
    }

    /// Gives a property of an object this value, or takes the property away where there is none. If the object isn't live,
    /// nothing changes; nor if memory runs out.
    pub fn put_prop(
        &mut self,
        id: ObjId,
        name: Name<A>,
        value: Option<Value<A>>,
    ) -> Result<(), AllocError>
        ensures ok { OnOk result (self.new ≡ revise self.old id (option_map (with_prop name value) (map.get self.old id))) }
        ensures err { OnErr result (self.new ≡ self.old) }
    {
        if object_of(&self.rows, id).is_none() {
            return Ok(());
        }
        let bare = Object::new(self.rows.allocator(), Kind::Document, None);
        let mut object = replace_row(&mut self.rows, id, bare);
        let done = object.put_prop(name, value);
        let _ = replace_row(&mut self.rows, id, object);
        done
    }
}

impl<A: Allocator> Doc<A> {
    /// All live objects with their ids in id order, the root first.
    pub fn objects(&self) -> Objects<'_, A>
        ensures objects { result ≡ map.entries self.now }
        ensures document { IsDocument self.now }
        ensures known { HasObjects self.now }
    {
        Objects::new(self.rows.iter())
    }

    /// How many objects are live.
    pub fn len(&self) -> usize
        ensures { result ≡ length (map.entries self.now) }
    {
        self.rows.len()
    }

    /// Checks whether the object is live.
    pub fn has(&self, id: ObjId) -> bool
        ensures { result ≡ live self.now id }
    {
        self.object(id).is_some()
    }

    /// The object, or none if it isn't live.
    pub fn object(&self, id: ObjId) -> Option<&Object<A>>
        ensures object { option_copied result ≡ map.get self.now id }
        ensures document { IsDocument self.now }
        ensures known { HasObjects self.now }
    {
        object_of(&self.rows, id)
    }

    /// The kind of the object, or none if it isn't live.
    pub fn kind_of(&self, id: ObjId) -> Option<Kind>
        ensures { result ≡ document.kind_of self.now id }
    {
        let object = self.object(id)?;
        Some(object.kind())
    }

    /// Where the object stands, or none if it isn't live. The root has no place.
    pub fn place_of(&self, id: ObjId) -> Option<&Place<A>>
        ensures { option_copied result ≡ document.place_of self.now id }
    {
        let object = self.object(id)?;
        object.place()
    }

    /// The value of a property of the object, or none if the object isn't live or hasn't the property.
    pub fn get<B: Allocator>(&self, id: ObjId, name: &Name<B>) -> Option<&Value<A>>
        ensures { option_copied result ≡ document.prop_of self.now id name.now }
    {
        let object = self.object(id)?;
        object.get(name)
    }

    /// The ids of the live objects whose place names this one, in the order of their positions, and of their ids where they
    /// share one. The object itself may be gone. Errors: out of memory.
    pub fn children<B: Allocator + Copy>(
        &self,
        alloc: B,
        id: ObjId,
    ) -> Result<Vec<ObjId, B>, AllocError>
        ensures { IfOk result (λ ids. AreChildren self.now id ids.items) }
    {
        ids_under(alloc, &self.spots, id)
    }

    /// The same document under another allocator. Errors: out of memory.
    pub fn copy<B: Allocator + Copy>(&self, alloc: B) -> Result<Doc<B>, AllocError>
        ensures { IfOk result (λ d. d ≡ self.now) }
    {
        let rows = copy_rows(alloc, &self.rows)?;
        let spots = copy_spots(alloc, &self.spots)?;
        Ok(Doc { rows, spots })
    }

    /// Checks whether a child of `parent` other than `except` stands at this position.
    pub fn taken<B: Allocator>(&self, parent: ObjId, pos: &Pos<B>, except: ObjId) -> bool
        ensures { IsTrue result ↔ IsTaken self.now parent except pos.now }
    {
        let mut rest = from_cut(&self.rows, &self.spots, parent, pos, ObjId::ROOT);
        while let Some(spot) = rest.next() {
            if !stands_there(&self.rows, spot, parent, pos) {
                return false;
            }
            if spot.id != except {
                return true;
            }
        }
        false
    }

    /// The least position greater than `after` among the children of `parent` other than `except`, if there is one; without
    /// `after`, the least of all.
    pub fn next_position<'a, B: Allocator>(
        &'a self,
        parent: ObjId,
        after: Option<&Pos<B>>,
        except: ObjId,
    ) -> Option<&'a Pos<A>>
        ensures { IsNext self.now parent except (option_copied after.entry) (option_copied result) }
    {
        next_of(&self.rows, &self.spots, parent, after, except)
    }

    /// Removes an object, which must not be the root; what lies below it stays. If it isn't live, nothing changes.
    pub fn remove(&mut self, id: ObjId)
        requires { id ≢ root }
        ensures { self.new ≡ map.remove self.old id }
    {
        if self.has(id) {
            take_spot(&self.rows, &mut self.spots, id);
            take_row(&mut self.rows, id);
        }
    }

    /// Removes these objects, of which some may not be live. The ids must stand in order, each once, and the root must not be
    /// among them. It takes the work of removing each of them.
    pub fn remove_all(&mut self, ids: &[ObjId])
        requires in_order { IsStrictlySortedBy id_cmp ids.now }
        requires not_root { Contains ids.now root → ⊥ }
        ensures { self.new ≡ without self.old ids.now }
    {
        // The last one first, so that few rows of a block stand behind each.
        for id in ids.iter().rev() {
            self.remove(*id);
        }
    }

    /// Checks whether two documents are the same.
    pub fn same<B: Allocator>(&self, other: &Doc<B>) -> bool
        ensures { IsTrue result ↔ (self.now ≡ other.now) }
    {
        same_rows(&self.rows, &other.rows)
    }
}

// Checks whether the objects are a document.
fn is_document<A: Allocator>(objects: &[(ObjId, Object<A>)]) -> bool
    ensures { IsTrue result ↔ AreDocument objects.now }
{
    is_sorted(objects) && is_rooted(objects)
}

// What the types of their parts say of objects and their ids.
fn know_rows<A: Allocator>(objects: &[(ObjId, Object<A>)])
    ensures { All IsRow objects.now }
{
    for pair in objects {
        know_id(pair.0);
        pair.1.every_part();
    }
}

// Checks whether the first one is the root, and each of the others has a place.
fn is_rooted<A: Allocator>(objects: &[(ObjId, Object<A>)]) -> bool
    ensures { IsTrue result ↔ AreRooted objects.now }
{
    match objects.split_first() {
        Some((first, others)) => is_root(first) && are_placed(others),
        None => false,
    }
}

// Checks whether it is the root, a `Document` without a place.
fn is_root<A: Allocator>(pair: &(ObjId, Object<A>)) -> bool
    ensures { IsTrue result ↔ IsRoot pair.now }
{
    pair.0 == ObjId::ROOT && pair.1.kind() == Kind::Document && pair.1.place().is_none()
}

// Checks whether each of them has a place.
fn are_placed<A: Allocator>(objects: &[(ObjId, Object<A>)]) -> bool
    ensures { result ≡ list_all is_placed objects.now }
{
    objects.iter().all(|pair| is_placed(pair))
}

// Checks whether the object has a place.
fn is_placed<A: Allocator>(pair: &(ObjId, Object<A>)) -> bool
    ensures { result ≡ is_placed pair.now }
{
    pair.1.place().is_some()
}
