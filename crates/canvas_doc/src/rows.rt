// The live objects in the order of their ids.
ghost use Rattle.std.specs.Prelude.{All, ◌≡◌, ◌↔◌, ◌++◌, ◌∷◌, [], true, false, IsTrue, IfOk, OnOk, OnErr, Some, T};
ghost use Rattle.std.specs.Option.{option_copied};
ghost use Rattle.std.specs.FinMap as map;
ghost use Rattle.std.specs.FinMap.Entries.{where_key};
ghost use Rattle.canvas_model.specs.Document.{live, place_of};
ghost use Rattle.canvas_model.specs.Ids.{id_cmp};
ghost use Rattle.canvas_doc.specs.Known.{IsRow};
ghost use Rattle.canvas_doc.specs.Sorted.{is_other};
ghost use Rattle.canvas_doc.specs.Spots.{AreSpots, is_lesser};

use crate::object::same_object;
use crate::spots::{Spots, add_spot};
use crate::{ObjId, Object};
use canvas_blocks::BlockList;
use std::alloc::{AllocError, Allocator};

/// The live objects with their ids, in id order.
pub type Rows<A> = BlockList<(ObjId, Object<A>), A>;

/// The object, if it is live.
pub fn object_of<A: Allocator>(rows: &Rows<A>, id: ObjId) -> Option<&Object<A>>
    ensures { T (map.is_sorted id_cmp rows.now) → option_copied result ≡ map.find id_cmp id rows.now }
{
    let row = rows.after_edge(
        |row: &(ObjId, Object<A>)| -> bool
            ensures { result ≡ is_lesser id row.now.0 }
        { row.0 < id },
    )?;
    if row.0 == id { Some(&row.1) } else { None }
}

/// Adds the row of an object that isn't live. If memory runs out, nothing has changed.
pub fn put_row<A: Allocator + Copy>(
    rows: &mut Rows<A>,
    id: ObjId,
    object: Object<A>,
) -> Result<(), AllocError>
    requires sorted { T (map.is_sorted id_cmp rows.old) }
    requires gone { live (map.from_sorted rows.old) id ≡ false }
    ensures ok { OnOk result (rows.new ≡ map.put id_cmp id object rows.old) }
    ensures err { OnErr result (rows.new ≡ rows.old) }
{
    rows.insert_at_edge(
        |row: &(ObjId, Object<A>)| -> bool
            ensures { result ≡ is_lesser id row.now.0 }
        { row.0 < id },
        (id, object),
    )
}

/// Puts an object in place of a live one, and gives that one back.
pub fn replace_row<A: Allocator + Copy>(
    rows: &mut Rows<A>,
    id: ObjId,
    object: Object<A>,
) -> Object<A>
    requires sorted { T (map.is_sorted id_cmp rows.old) }
    requires live { live (map.from_sorted rows.old) id ≡ true }
    ensures object { map.find id_cmp id rows.old ≡ Some result }
    ensures rows { rows.new ≡ map.put id_cmp id object rows.old }
{
    let old = rows.replace_value_at_edge(
        |row: &(ObjId, Object<A>)| -> bool
            ensures { result ≡ is_lesser id row.now.0 }
        { row.0 < id },
        object,
    );
    old.unwrap()
}

/// Takes the row of a live object out.
pub fn take_row<A: Allocator>(rows: &mut Rows<A>, id: ObjId)
    requires sorted { T (map.is_sorted id_cmp rows.old) }
    requires live { live (map.from_sorted rows.old) id ≡ true }
    ensures { rows.new ≡ where_key id_cmp (is_other id_cmp id) rows.old }
{
    let _ = rows.remove_at_edge(
        |row: &(ObjId, Object<A>)| -> bool
            ensures { result ≡ is_lesser id row.now.0 }
        { row.0 < id },
    );
}

/// The rows of these objects, whose ids rise strictly, and their spots. Errors: out of memory.
pub fn rows_and_spots<A: Allocator + Copy>(
    objects: Vec<(ObjId, Object<A>), A>,
) -> Result<(Rows<A>, Spots<A>), AllocError>
    requires sorted { T (map.is_sorted id_cmp objects.items) }
    requires known { All IsRow objects.items }
    ensures rows { IfOk result (λ both. both.0 ≡ objects.items) }
    ensures spots { IfOk result (λ both. AreSpots (place_of (map.from_sorted objects.items)) both.1) }
{
    let alloc = *objects.allocator();
    let mut rows = BlockList::new(alloc);
    let mut spots = BlockList::new(alloc);
    for (id, object) in objects {
        append(&mut rows, &mut spots, id, object)?;
    }
    Ok((rows, spots))
}

// Adds an object whose id is greater than those of all others, and its spot where it stands somewhere. No document is made of
// them if memory runs out.
fn append<A: Allocator + Copy>(
    rows: &mut Rows<A>,
    spots: &mut Spots<A>,
    id: ObjId,
    object: Object<A>,
) -> Result<(), AllocError>
    requires sorted { T (map.is_sorted id_cmp (rows.old ++ (id, object) ∷ [])) }
    requires known { All IsRow rows.old }
    requires spots { AreSpots (place_of (map.from_sorted rows.old)) spots.old }
    ensures rows { OnOk result (rows.new ≡ rows.old ++ (id, object) ∷ []) }
    ensures spots { OnOk result (AreSpots (place_of (map.from_sorted (rows.old ++ (id, object) ∷ []))) spots.new) }
{
    append_spot(rows, spots, id, &object)?;
    rows.push((id, object))
}

// Adds the spot of such an object, where it stands somewhere.
fn append_spot<A: Allocator + Copy>(
    rows: &Rows<A>,
    spots: &mut Spots<A>,
    id: ObjId,
    object: &Object<A>,
) -> Result<(), AllocError>
    requires sorted { T (map.is_sorted id_cmp (rows.now ++ (id, object.now) ∷ [])) }
    requires known { All IsRow rows.now }
    requires spots { AreSpots (place_of (map.from_sorted rows.now)) spots.old }
    ensures { OnOk result (AreSpots (place_of (map.from_sorted (rows.now ++ (id, object.now) ∷ []))) spots.new) }
{
    match object.place() {
        Some(place) => add_spot(rows, spots, id, place),
        None => Ok(()),
    }
}

/// The same rows under another allocator. Errors: out of memory.
pub fn copy_rows<A: Allocator, B: Allocator + Copy>(
    alloc: B,
    rows: &Rows<A>,
) -> Result<Rows<B>, AllocError>
    ensures { IfOk result (λ copies. copies ≡ rows.now) }
{
    let mut copies = BlockList::new(alloc);
    let mut rest = rows.iter();
    while let Some(row) = rest.next() {
        let object = row.1.copy_in(alloc)?;
        copies.push((row.0, object))?;
    }
    Ok(copies)
}

/// Checks whether two lists of rows are the same.
pub fn same_rows<A: Allocator, B: Allocator>(rows: &Rows<A>, others: &Rows<B>) -> bool
    ensures { IsTrue result ↔ (rows.now ≡ others.now) }
{
    if rows.len() != others.len() {
        return false;
    }
    let mut rest = rows.iter();
    let mut other_rest = others.iter();
    while let Some(row) = rest.next() {
        let Some(other) = other_rest.next() else {
            return false;
        };
        if !same_object(row, other) {
            return false;
        }
    }
    true
}
