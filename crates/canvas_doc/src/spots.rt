// The objects that stand somewhere, in the order of their parents, positions and ids: of each its spot. It has the first digits of
// the position, so that most comparisons of two spots needn't look a position up.
ghost use Rattle.std.specs.Prelude.{◌≡◌, ◌≢◌, ◌↔◌, IsTrue, IfOk, OnOk, OnErr, Some, T, drop};
ghost use Rattle.std.specs.List.{Contains, insert};
ghost use Rattle.std.specs.Option.{option_copied};
ghost use Rattle.std.specs.FinMap as map;
ghost use Rattle.canvas_model.specs.Ids.{id_cmp};
ghost use Rattle.canvas_model.specs.Children.{AreChildren, parent_of};
ghost use Rattle.canvas_model.specs.Document.{place_of};
ghost use Rattle.canvas_model.specs.Order.{IsLowEnd};
ghost use Rattle.canvas_model.specs.Sibling.{IsNext};
ghost use Rattle.canvas_pos.specs.Digits.{first_digits};
ghost use Rattle.canvas_doc.specs.Known.{HasObjects};
ghost use Rattle.canvas_doc.specs.Spots.{AreSpots, IsCut, IsFirst, IsStart, Places, is_before, is_lesser, is_lower, new_spot, parent_at, pos_at, spot_at};

use crate::ObjId;
use crate::place::Place;
use crate::rows::{Rows, object_of};
use canvas_blocks::{BlockList, Iter};
use canvas_pos::{Pos, digit_order};
use std::alloc::{AllocError, Allocator};
use std::cmp::Ordering;

/// An object that stands somewhere: its parent, the first digits of its position, and its id.
#[derive(Clone, Copy, Debug)]
pub struct Spot {
    pub parent: ObjId,
    pub digits: u64,
    pub id: ObjId,
}

/// The spots of all objects that stand somewhere.
pub type Spots<A> = BlockList<Spot, A>;

impl Spot {
    /// The spot of an object at this place.
    pub fn new<A: Allocator>(id: ObjId, place: &Place<A>) -> Spot
        ensures { result ≡ new_spot id place.now }
    {
        Spot {
            parent: place.parent,
            digits: place.pos.first_digits(),
            id,
        }
    }
}

/// The position of the object, if it is live and has one.
pub fn pos_of<A: Allocator>(rows: &Rows<A>, id: ObjId) -> Option<&Pos<A>>
    ensures { T (map.is_sorted id_cmp rows.now) → option_copied result ≡ pos_at (place_of (map.from_sorted rows.now)) id }
{
    let object = object_of(rows, id)?;
    let place = object.place()?;
    Some(&place.pos)
}

/// The spots from the place on where the one of this parent, position and id stands or would go.
pub fn from_cut<'a, A: Allocator, B: Allocator>(
    rows: &Rows<A>,
    spots: &'a Spots<A>,
    parent: ObjId,
    pos: &Pos<B>,
    id: ObjId,
) -> Iter<'a, Spot, A>
    requires sorted { T (map.is_sorted id_cmp rows.now) }
    requires known { HasObjects (map.from_sorted rows.now) }
    requires spots { AreSpots (place_of (map.from_sorted rows.now)) spots.now }
    ensures { (i : _) × IsCut (place_of (map.from_sorted rows.now)) parent pos.now id spots.now i × (result ≡ drop i spots.now) }
{
    let digits = pos.first_digits();
    spots.iter_from_edge(
        |spot: &Spot| -> bool
            ensures { T (map.is_sorted id_cmp rows.entry.now) → HasObjects (map.from_sorted rows.entry.now) → digits ≡ first_digits pos.entry.now
                → spot_at (place_of (map.from_sorted rows.entry.now)) spot.now.id ≡ Some spot.now
                → result ≡ is_before (place_of (map.from_sorted rows.entry.now)) parent pos.entry.now id spot.now }
        { stands_before(rows, spot, parent, digits, pos, id) },
    )
}

/// The spots from those under this parent on.
pub fn from_start<A: Allocator>(spots: &Spots<A>, parent: ObjId) -> Iter<'_, Spot, A>
    ensures { (i : _) × IsStart parent spots.now i × (result ≡ drop i spots.now) }
{
    spots.iter_from_edge(
        |spot: &Spot| -> bool
            ensures { result ≡ is_lesser parent spot.now.parent }
        { spot.parent < parent },
    )
}

/// The spots from the place on where the search for the least position greater than `after` under this parent begins.
pub fn from_first<'a, A: Allocator, B: Allocator>(
    rows: &Rows<A>,
    spots: &'a Spots<A>,
    parent: ObjId,
    after: Option<&Pos<B>>,
) -> Iter<'a, Spot, A>
    requires sorted { T (map.is_sorted id_cmp rows.now) }
    requires known { HasObjects (map.from_sorted rows.now) }
    requires spots { AreSpots (place_of (map.from_sorted rows.now)) spots.now }
    ensures { (i : _) × IsFirst (place_of (map.from_sorted rows.now)) parent (option_copied after.entry) spots.now i × (result ≡ drop i spots.now) }
{
    match after {
        Some(low) => from_cut(rows, spots, parent, low, ObjId::ROOT),
        None => from_start(spots, parent),
    }
}

/// Adds the spot of an object that stands at this place. If memory runs out, nothing has changed.
pub fn add_spot<A: Allocator + Copy>(
    rows: &Rows<A>,
    spots: &mut Spots<A>,
    id: ObjId,
    place: &Place<A>,
) -> Result<(), AllocError>
    requires sorted { T (map.is_sorted id_cmp rows.now) }
    requires known { HasObjects (map.from_sorted rows.now) }
    requires spots { (s : Spot) → Contains spots.old s → spot_at (place_of (map.from_sorted rows.now)) s.id ≡ Some s }
    ensures ok { OnOk result ((i : _) × IsCut (place_of (map.from_sorted rows.now)) place.now.parent place.now.pos id spots.old i × (spots.new ≡ insert spots.old i (new_spot id place.now))) }
    ensures err { OnErr result (spots.new ≡ spots.old) }
{
    let pos = &place.pos;
    let digits = pos.first_digits();
    let parent = place.parent;
    spots.insert_at_edge(
        |spot: &Spot| -> bool
            ensures { T (map.is_sorted id_cmp rows.entry.now) → HasObjects (map.from_sorted rows.entry.now) → digits ≡ first_digits pos.entry.now
                → spot_at (place_of (map.from_sorted rows.entry.now)) spot.now.id ≡ Some spot.now
                → result ≡ is_before (place_of (map.from_sorted rows.entry.now)) parent pos.entry.now id spot.now }
        { stands_before(rows, spot, parent, digits, pos, id) },
        Spot::new(id, place),
    )
}

/// Adds the spot of a live object that has none yet, where it stands somewhere. If memory runs out, nothing has changed.
pub fn put_spot<A: Allocator + Copy>(
    rows: &Rows<A>,
    spots: &mut Spots<A>,
    id: ObjId,
) -> Result<(), AllocError>
    requires sorted { T (map.is_sorted id_cmp rows.now) }
    requires known { HasObjects (map.from_sorted rows.now) }
    requires spots { AreSpots (place_of (map.remove (map.from_sorted rows.now) id)) spots.old }
    ensures ok { OnOk result (AreSpots (place_of (map.from_sorted rows.now)) spots.new) }
    ensures err { OnErr result (spots.new ≡ spots.old) }
{
    match place_in(rows, id) {
        Some(place) => add_spot(rows, spots, id, place),
        None => Ok(()),
    }
}

/// Takes the spot of an object out that stands somewhere.
pub fn take_spot<A: Allocator>(rows: &Rows<A>, spots: &mut Spots<A>, id: ObjId)
    requires sorted { T (map.is_sorted id_cmp rows.now) }
    requires known { HasObjects (map.from_sorted rows.now) }
    requires spots { AreSpots (place_of (map.from_sorted rows.now)) spots.old }
    ensures { AreSpots (place_of (map.remove (map.from_sorted rows.now) id)) spots.new }
{
    if let Some(place) = place_in(rows, id) {
        let pos = &place.pos;
        let digits = pos.first_digits();
        let parent = place.parent;
        let _ = spots.remove_at_edge(
            |spot: &Spot| -> bool
                ensures { T (map.is_sorted id_cmp rows.entry.now) → HasObjects (map.from_sorted rows.entry.now) → digits ≡ first_digits pos.entry.now
                    → spot_at (place_of (map.from_sorted rows.entry.now)) spot.now.id ≡ Some spot.now
                    → result ≡ is_before (place_of (map.from_sorted rows.entry.now)) parent pos.entry.now id spot.now }
            { stands_before(rows, spot, parent, digits, pos, id) },
        );
    }
}

/// Moves the spot of an object that stands somewhere to another place.
pub fn move_spot<A: Allocator + Copy>(
    rows: &Rows<A>,
    spots: &mut Spots<A>,
    id: ObjId,
    place: &Place<A>,
)
    requires sorted { T (map.is_sorted id_cmp rows.now) }
    requires known { HasObjects (map.from_sorted rows.now) }
    requires spots { AreSpots (place_of (map.from_sorted rows.now)) spots.old }
    requires stands { (parent : _) × (parent_at (place_of (map.from_sorted rows.now)) id ≡ Some parent) }
    ensures { (p : Places) → ((q : _) → q ≢ id → p q ≡ place_of (map.from_sorted rows.now) q) → p id ≡ Some place.now → AreSpots p spots.new }
{
    if let Some(old) = place_in(rows, id) {
        let old_pos = &old.pos;
        let old_digits = old_pos.first_digits();
        let old_parent = old.parent;
        let pos = &place.pos;
        let digits = pos.first_digits();
        let parent = place.parent;
        spots.move_to_edge(
            |spot: &Spot| -> bool
                ensures { T (map.is_sorted id_cmp rows.entry.now) → HasObjects (map.from_sorted rows.entry.now) → old_digits ≡ first_digits old_pos.entry.now
                    → spot_at (place_of (map.from_sorted rows.entry.now)) spot.now.id ≡ Some spot.now
                    → result ≡ is_before (place_of (map.from_sorted rows.entry.now)) old_parent old_pos.entry.now id spot.now }
            { stands_before(rows, spot, old_parent, old_digits, old_pos, id) },
            |spot: &Spot| -> bool
                ensures { T (map.is_sorted id_cmp rows.entry.now) → HasObjects (map.from_sorted rows.entry.now) → digits ≡ first_digits pos.entry.now
                    → spot_at (place_of (map.from_sorted rows.entry.now)) spot.now.id ≡ Some spot.now
                    → result ≡ is_before (place_of (map.from_sorted rows.entry.now)) parent pos.entry.now id spot.now }
            { stands_before(rows, spot, parent, digits, pos, id) },
            Spot::new(id, place),
        );
    }
}

// Where the object stands, if it is live and stands somewhere.
fn place_in<A: Allocator>(rows: &Rows<A>, id: ObjId) -> Option<&Place<A>>
    ensures { T (map.is_sorted id_cmp rows.now) → option_copied result ≡ place_of (map.from_sorted rows.now) id }
{
    object_of(rows, id)?.place()
}

// Checks whether an object's spot stands before the one of this parent, position and id; `digits` are the position's first ones. The
// object's own position is looked up only if the digits are the same.
fn stands_before<A: Allocator, B: Allocator>(
    rows: &Rows<A>,
    spot: &Spot,
    parent: ObjId,
    digits: u64,
    pos: &Pos<B>,
    id: ObjId,
) -> bool
    ensures { T (map.is_sorted id_cmp rows.now) → HasObjects (map.from_sorted rows.now) → digits ≡ first_digits pos.now
        → spot_at (place_of (map.from_sorted rows.now)) spot.now.id ≡ Some spot.now
        → result ≡ is_before (place_of (map.from_sorted rows.now)) parent pos.now id spot.now }
{
    digit_order();
    let _pos = pos.bytes();
    match spot.parent.cmp(&parent).then(spot.digits.cmp(&digits)) {
        Ordering::Less => true,
        Ordering::Equal => stands_lower(pos_of(rows, spot.id), spot.id, pos, id),
        Ordering::Greater => false,
    }
}

// Checks whether a child at the first position stands before one at the second.
fn stands_lower<A: Allocator, B: Allocator>(
    pos: Option<&Pos<A>>,
    id: ObjId,
    other: &Pos<B>,
    other_id: ObjId,
) -> bool
    ensures { result ≡ is_lower (option_copied pos.entry) id other.now other_id }
{
    match pos {
        Some(pos) => match pos.compare(other) {
            Ordering::Less => true,
            Ordering::Equal => id < other_id,
            Ordering::Greater => false,
        },
        None => true,
    }
}

/// Checks whether the spot is under this parent at this position.
pub fn stands_there<A: Allocator, B: Allocator>(
    rows: &Rows<A>,
    spot: &Spot,
    parent: ObjId,
    pos: &Pos<B>,
) -> bool
    ensures { T (map.is_sorted id_cmp rows.now) → IsTrue result ↔ (spot.now.parent ≡ parent) × (pos_at (place_of (map.from_sorted rows.now)) spot.now.id ≡ Some pos.now) }
{
    if spot.parent != parent {
        return false;
    }
    match pos_of(rows, spot.id) {
        Some(other) => other.same(pos),
        None => false,
    }
}

/// The least position greater than `after` among the children of `parent` other than `except`.
pub fn next_of<'a, A: Allocator, B: Allocator>(
    rows: &'a Rows<A>,
    spots: &Spots<A>,
    parent: ObjId,
    after: Option<&Pos<B>>,
    except: ObjId,
) -> Option<&'a Pos<A>>
    requires sorted { T (map.is_sorted id_cmp rows.now) }
    requires known { HasObjects (map.from_sorted rows.now) }
    requires spots { AreSpots (place_of (map.from_sorted rows.now)) spots.now }
    ensures { IsNext (map.from_sorted rows.now) parent except (option_copied after.entry) (option_copied result) }
{
    let mut rest = from_first(rows, spots, parent, after);
    while let Some(spot) = rest.next() {
        if spot.parent != parent {
            return None;
        }
        if spot.id != except {
            let pos = pos_of(rows, spot.id)?;
            if is_after(pos, after) {
                return Some(pos);
            }
        }
    }
    None
}

// Checks whether the position is greater than this one, if there is one.
fn is_after<A: Allocator, B: Allocator>(pos: &Pos<A>, after: Option<&Pos<B>>) -> bool
    ensures { IsTrue result ↔ IsLowEnd (option_copied after.entry) pos.now }
{
    match after {
        Some(low) => low.compare(pos) == Ordering::Less,
        None => true,
    }
}

/// The ids of the spots under this parent. Errors: out of memory.
pub fn ids_under<A: Allocator, B: Allocator>(
    alloc: B,
    spots: &Spots<A>,
    parent: ObjId,
) -> Result<Vec<ObjId, B>, AllocError>
    ensures { (d : _) → AreSpots (place_of d) spots.now → IfOk result (λ ids. AreChildren d parent ids.items) }
{
    let mut ids = Vec::new(alloc);
    let mut rest = from_start(spots, parent);
    while let Some(spot) = rest.next() {
        if spot.parent != parent {
            return Ok(ids);
        }
        ids.push(spot.id)?;
    }
    Ok(ids)
}

/// Checks whether a spot stands under this parent.
pub fn is_any_under<A: Allocator>(spots: &Spots<A>, parent: ObjId) -> bool
    ensures { (d : _) → AreSpots (place_of d) spots.now → IsTrue result ↔ (q : ObjId) × (parent_of d q ≡ Some parent) }
{
    let mut rest = from_start(spots, parent);
    match rest.next() {
        Some(spot) => spot.parent == parent,
        None => false,
    }
}

/// The same spots under another allocator. Errors: out of memory.
pub fn copy_spots<A: Allocator, B: Allocator + Copy>(
    alloc: B,
    spots: &Spots<A>,
) -> Result<Spots<B>, AllocError>
    ensures { IfOk result (λ copies. copies ≡ spots.now) }
{
    let mut copies = BlockList::new(alloc);
    let mut rest = spots.iter();
    while let Some(spot) = rest.next() {
        copies.push(*spot)?;
    }
    Ok(copies)
}
