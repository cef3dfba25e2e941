//! Outcomes as JSON.
ghost use Rattle.std.specs.Prelude.{◌≡◌, IfOk, IfErr, Some, codes};
ghost use Rattle.serde_json.specs.Data.{array};
ghost use Rattle.serde_json.specs.View.{view, items_view};
ghost use Rattle.canvas_judge.specs.Seen.{seen_outcome};
ghost use Rattle.canvas_model.specs.Verdict.{Refused};
ghost use Rattle.canvas_codec.specs.Parts.{each_in, each_written};
ghost use Rattle.canvas_codec.specs.Faults.{RefusesShape};
ghost use Rattle.canvas_forms.specs.Version.{version_two};
ghost use Rattle.canvas_forms.specs.Ids.{id_form};
ghost use Rattle.canvas_forms.specs.Outcomes.{outcome_form, outcome_after, reason_form, reason_of};

use crate::ids::{read_id, write_id};
use crate::json_tree::{array, members, one, two, whole32, worded};
use crate::places::{read_maybe_place, read_place, write_maybe_place, write_place};
use canvas_codec::JsonFault;
use canvas_codec::parts::{ended, whole};
use canvas_doc::{ObjId, Place};
use canvas_judge::{Outcome, Reason};
use serde_json::Value as Json;
use std::alloc::{AllocError, Allocator, Global};

/// The JSON of an outcome: an array that begins with the word of what became of the request. The error is that memory ran out.
pub fn write_outcome<A: Allocator>(alloc: Global, outcome: &Outcome<A>) -> Result<Json, AllocError>
    ensures { IfOk result (λ j. view j ≡ (outcome_form version_two).write (seen_outcome outcome.now)) }
{
    match outcome {
        Outcome::Joined(client) => {
            let word = Json::try_from_str(alloc, "joined")?;
            array(alloc, [word, Json::from(*client)])
        }
        Outcome::Created(place) => {
            let word = Json::try_from_str(alloc, "created")?;
            let place = write_place(alloc, place)?;
            array(alloc, [word, place])
        }
        Outcome::WasSet => {
            let word = Json::try_from_str(alloc, "wasset")?;
            array(alloc, [word])
        }
        Outcome::Moved(place) => {
            let word = Json::try_from_str(alloc, "moved")?;
            let place = write_place(alloc, place)?;
            array(alloc, [word, place])
        }
        Outcome::Removed(ids) => {
            let word = Json::try_from_str(alloc, "removed")?;
            let ids = write_ids(alloc, ids.as_slice())?;
            array(alloc, [word, ids])
        }
        Outcome::Refused { reason, stands } => write_refused(alloc, *reason, stands),
    }
}

// The JSON of a refusal.
fn write_refused<A: Allocator>(
    alloc: Global,
    reason: Reason,
    stands: &Option<Place<A>>,
) -> Result<Json, AllocError>
    ensures { IfOk result (λ j. view j ≡ (outcome_form version_two).write (Refused reason stands.now)) }
{
    let word = Json::try_from_str(alloc, "refused")?;
    let stands = write_maybe_place(alloc, stands.as_ref())?;
    array(alloc, [word, Json::from(reason.number()), stands])
}

// The JSON of a list of ids.
fn write_ids(alloc: Global, ids: &[ObjId]) -> Result<Json, AllocError>
    ensures { IfOk result (λ j. view j ≡ array (each_written id_form.write ids.now)) }
{
    let mut items = Vec::with_capacity(alloc, ids.len())?;
    for id in ids {
        items.push(write_id(alloc, *id)?)?;
    }
    Ok(Json::from(items))
}

/// The outcome that a JSON tree is read as, and whether each whole number in it was in range.
///
/// `NotAValue` for a JSON tree that is that of no outcome, whatever its whole numbers; `OutOfRange` is never answered.
#[tactic(auto, using(crate::proofs::Members::no_word, crate::proofs::Members::word_first))]
pub fn read_outcome<A: Allocator + Copy>(
    alloc: A,
    json: &Json,
) -> Result<(Outcome<A>, bool), JsonFault>
    ensures ok { IfOk result
        (λ r. (outcome_form version_two).read (view json.now) ≡ Some (seen_outcome r.0, r.1)) }
    ensures fault { IfErr result (RefusesShape ((outcome_form version_two).read (view json.now))) }
{
    let Some((word, rest)) = worded(json) else {
        return Err(JsonFault::NotAValue);
    };
    if word == "joined" {
        read_joined(rest)
    } else if word == "created" {
        read_created(alloc, rest)
    } else if word == "wasset" {
        read_was_set(rest)
    } else if word == "moved" {
        read_moved(alloc, rest)
    } else if word == "removed" {
        read_removed(alloc, rest)
    } else if word == "refused" {
        read_refused(alloc, rest)
    } else {
        Err(JsonFault::NotAValue)
    }
}

// A new client, by the members after its word.
#[tactic(auto, using(crate::proofs::Members::not_one, crate::proofs::Members::and_true))]
fn read_joined<A: Allocator>(rest: &[Json]) -> Result<(Outcome<A>, bool), JsonFault>
    ensures ok { IfOk result (λ r. outcome_after version_two (codes "joined") (items_view rest.now)
        ≡ Some (seen_outcome r.0, r.1)) }
    ensures fault { IfErr result
        (RefusesShape (outcome_after version_two (codes "joined") (items_view rest.now))) }
{
    let Some(client) = one(rest) else {
        return Err(JsonFault::NotAValue);
    };
    match whole32(client) {
        Some((client, fits)) => Ok((Outcome::Joined(client), fits)),
        None => Err(JsonFault::NotAValue),
    }
}

// A creation, by the members after its word.
#[tactic(auto, using(crate::proofs::Members::not_one, crate::proofs::Members::and_true))]
fn read_created<A: Allocator>(alloc: A, rest: &[Json]) -> Result<(Outcome<A>, bool), JsonFault>
    ensures ok { IfOk result (λ r. outcome_after version_two (codes "created") (items_view rest.now)
        ≡ Some (seen_outcome r.0, r.1)) }
    ensures fault { IfErr result
        (RefusesShape (outcome_after version_two (codes "created") (items_view rest.now))) }
{
    let Some(place) = one(rest) else {
        return Err(JsonFault::NotAValue);
    };
    match read_place(alloc, place) {
        Ok((place, fits)) => Ok((Outcome::Created(place), fits)),
        Err(e) => Err(e),
    }
}

// A Set that was granted, by the members after its word.
fn read_was_set<A: Allocator>(rest: &[Json]) -> Result<(Outcome<A>, bool), JsonFault>
    ensures ok { IfOk result (λ r. outcome_after version_two (codes "wasset") (items_view rest.now)
        ≡ Some (seen_outcome r.0, r.1)) }
    ensures fault { IfErr result
        (RefusesShape (outcome_after version_two (codes "wasset") (items_view rest.now))) }
{
    match ended(rest) {
        Some((_, fits)) => Ok((Outcome::WasSet, fits)),
        None => Err(JsonFault::NotAValue),
    }
}

// A move, by the members after its word.
#[tactic(auto, using(crate::proofs::Members::not_one, crate::proofs::Members::and_true))]
fn read_moved<A: Allocator>(alloc: A, rest: &[Json]) -> Result<(Outcome<A>, bool), JsonFault>
    ensures ok { IfOk result (λ r. outcome_after version_two (codes "moved") (items_view rest.now)
        ≡ Some (seen_outcome r.0, r.1)) }
    ensures fault { IfErr result
        (RefusesShape (outcome_after version_two (codes "moved") (items_view rest.now))) }
{
    let Some(place) = one(rest) else {
        return Err(JsonFault::NotAValue);
    };
    match read_place(alloc, place) {
        Ok((place, fits)) => Ok((Outcome::Moved(place), fits)),
        Err(e) => Err(e),
    }
}

// A removal, by the members after its word.
#[tactic(auto, using(crate::proofs::Members::not_one, crate::proofs::Members::no_array, crate::proofs::Members::is_array, crate::proofs::Members::and_true))]
fn read_removed<A: Allocator>(alloc: A, rest: &[Json]) -> Result<(Outcome<A>, bool), JsonFault>
    ensures ok { IfOk result (λ r. outcome_after version_two (codes "removed") (items_view rest.now)
        ≡ Some (seen_outcome r.0, r.1)) }
    ensures fault { IfErr result
        (RefusesShape (outcome_after version_two (codes "removed") (items_view rest.now))) }
{
    let Some(ids) = one(rest) else {
        return Err(JsonFault::NotAValue);
    };
    let Some(ids) = members(ids) else {
        return Err(JsonFault::NotAValue);
    };
    match read_ids(alloc, ids) {
        Ok((ids, fits)) => Ok((Outcome::Removed(ids), fits)),
        Err(e) => Err(e),
    }
}

// A refusal, by the members after its word.
#[tactic(auto, using(crate::proofs::Members::not_two, crate::proofs::Members::and_true))]
fn read_refused<A: Allocator>(alloc: A, rest: &[Json]) -> Result<(Outcome<A>, bool), JsonFault>
    ensures ok { IfOk result (λ r. outcome_after version_two (codes "refused") (items_view rest.now)
        ≡ Some (seen_outcome r.0, r.1)) }
    ensures fault { IfErr result
        (RefusesShape (outcome_after version_two (codes "refused") (items_view rest.now))) }
{
    let Some((reason, stands)) = two(rest) else {
        return Err(JsonFault::NotAValue);
    };
    let Some((reason, reason_fits)) = read_reason(reason) else {
        return Err(JsonFault::NotAValue);
    };
    match read_maybe_place(alloc, stands) {
        Ok((stands, fits)) => Ok((Outcome::Refused { reason, stands }, reason_fits & fits)),
        Err(e) => Err(e),
    }
}

// The reason whose number a JSON tree is, and whether it is one.
fn read_reason(json: &Json) -> Option<(Reason, bool)>
    ensures { result ≡ (reason_form version_two).read (view json.now) }
{
    let (n, fits) = whole(json, 1, 8)?;
    Some((reason_of(n), fits))
}

// The reason of this number.
fn reason_of(n: u64) -> Reason
    ensures { result ≡ reason_of n }
{
    match n {
        2 => Reason::BadId,
        3 => Reason::Gone,
        4 => Reason::ParentGone,
        5 => Reason::BadParent,
        6 => Reason::Cycle,
        7 => Reason::Crowded,
        8 => Reason::TooDeep,
        _ => Reason::IsRoot,
    }
}

// The ids that the members of an array are read as, and whether their numbers were in range.
fn read_ids<A: Allocator>(alloc: A, items: &[Json]) -> Result<(Vec<ObjId, A>, bool), JsonFault>
    ensures ok { IfOk result
        (λ r. each_in id_form.read (items_view items.now) ≡ Some (r.0.items, r.1)) }
    ensures fault { IfErr result (RefusesShape (each_in id_form.read (items_view items.now))) }
{
    let mut ids = Vec::with_capacity(alloc, items.len())?;
    let mut all_fit = true;
    for item in items {
        let Some((id, fits)) = read_id(item) else {
            return Err(JsonFault::NotAValue);
        };
        ids.push(id)?;
        all_fit = all_fit & fits;
    }
    Ok((ids, all_fit))
}
