// Positions and places.
ghost use Rattle.std.specs.Prelude.{◌≡◌, true, IfOk, IfErr, Some};
ghost use Rattle.serde_json.specs.View.{view};
ghost use Rattle.std.specs.Option.{option_copied};
ghost use Rattle.canvas_codec.specs.Parts.{maybe};
ghost use Rattle.canvas_codec.specs.Faults.{RefusesShape};
ghost use Rattle.canvas_forms.specs.Places.{pos_form, pos_fault, place_form};

use crate::ids::{read_id, write_id};
use crate::json_tree::{array, members, two};
use canvas_codec::JsonFault;
use canvas_doc::Place;
use canvas_pos::{Pos, PosError};
use serde_json::Value as Json;
use std::alloc::{AllocError, Allocator, Global};

// The JSON of a place.
pub(crate) fn write_place<A: Allocator>(alloc: Global, place: &Place<A>) -> Result<Json, AllocError>
    ensures { IfOk result (λ j. view j ≡ place_form.write place.now) }
{
    let parent = write_id(alloc, place.parent)?;
    let pos = Json::try_from_str(alloc, place.pos.as_str())?;
    array(alloc, [parent, pos])
}

// The JSON of a place that may be missing.
pub(crate) fn write_maybe_place<A: Allocator>(
    alloc: Global,
    place: Option<&Place<A>>,
) -> Result<Json, AllocError>
    ensures { IfOk result (λ j. view j ≡ (maybe place_form).write (option_copied place.entry)) }
{
    match place {
        Some(place) => write_place(alloc, place),
        None => Ok(Json::Null),
    }
}

// The position of which a JSON tree is the text.
#[tactic(auto, using(crate::proofs::Positions::is_position_from, crate::proofs::Positions::pos_refused))]
fn read_pos<A: Allocator>(alloc: A, json: &Json) -> Result<Pos<A>, JsonFault>
    ensures ok { IfOk result (λ p. pos_form.read (view json.now) ≡ Some (p, true)) }
    ensures fault { IfErr result (RefusesShape (pos_form.read (view json.now))) }
{
    let Some(text) = json.as_str() else {
        return Err(JsonFault::NotAValue);
    };
    match Pos::read(alloc, text.as_bytes()) {
        Ok(pos) => Ok(pos),
        Err(e) => Err(fault_of(e)),
    }
}

// What a fault of a position is answered as.
fn fault_of(e: PosError) -> JsonFault
    ensures { result ≡ pos_fault e }
{
    match e {
        PosError::Memory => JsonFault::Memory,
        _ => JsonFault::NotAValue,
    }
}

// The place that a JSON tree is read as, and whether its numbers were in range.
#[tactic(auto, using(crate::proofs::Members::not_two, crate::proofs::Members::no_array, crate::proofs::Members::is_array, crate::proofs::Members::and_true))]
pub(crate) fn read_place<A: Allocator>(alloc: A, json: &Json) -> Result<(Place<A>, bool), JsonFault>
    ensures ok { IfOk result (λ r. place_form.read (view json.now) ≡ Some r) }
    ensures fault { IfErr result (RefusesShape (place_form.read (view json.now))) }
{
    let Some(items) = members(json) else {
        return Err(JsonFault::NotAValue);
    };
    let Some((parent, pos)) = two(items) else {
        return Err(JsonFault::NotAValue);
    };
    let Some((parent, fits)) = read_id(parent) else {
        return Err(JsonFault::NotAValue);
    };
    match read_pos(alloc, pos) {
        Ok(pos) => Ok((Place { parent, pos }, fits)),
        Err(e) => Err(e),
    }
}

// The place that a JSON tree is read as, or none for `null`, and whether its numbers were in range.
pub(crate) fn read_maybe_place<A: Allocator>(
    alloc: A,
    json: &Json,
) -> Result<(Option<Place<A>>, bool), JsonFault>
    ensures ok { IfOk result (λ r. (maybe place_form).read (view json.now) ≡ Some r) }
    ensures fault { IfErr result (RefusesShape ((maybe place_form).read (view json.now))) }
{
    if let Json::Null = json {
        return Ok((None, true));
    }
    match read_place(alloc, json) {
        Ok((place, fits)) => Ok((Some(place), fits)),
        Err(e) => Err(e),
    }
}
