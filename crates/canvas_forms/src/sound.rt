//! What the types of changes, outcomes and documents say of them: their positions and names are such, and their numbers in range. These
//! functions change nothing when they run: call them where a proof needs it of what is written.
ghost use Rattle.std.specs.Prelude.{◌≡◌, true};
ghost use Rattle.std.specs.List.{All};
ghost use Rattle.std.specs.FinMap as map;
ghost use Rattle.canvas_model.specs.Ids.{IsId};
ghost use Rattle.canvas_model.specs.Change.{HoldsShallow};
ghost use Rattle.canvas_codec.specs.Parts.{maybe};
ghost use Rattle.canvas_judge.specs.Seen.{seen_outcome};
ghost use Rattle.canvas_forms.specs.Version.{version_two};
ghost use Rattle.canvas_forms.specs.Ids.{client_form};
ghost use Rattle.canvas_forms.specs.Places.{place_form};
ghost use Rattle.canvas_forms.specs.Changes.{change_form};
ghost use Rattle.canvas_forms.specs.Outcomes.{outcome_form};
ghost use Rattle.canvas_forms.specs.Rows.{row_form, rows_form};
ghost use Rattle.canvas_forms.specs.RowOrder.{are_in_order};

use canvas_doc::{Change, Doc, ObjId, Object, Place};
use canvas_judge::Outcome;
use std::alloc::Allocator;

/// What is written of a document: its positions and names are such, its numbers are in range, and its rows stand in order.
pub fn sound_doc<A: Allocator>(doc: &Doc<A>)
    ensures sound { rows_form.sound (map.entries doc.now) ≡ true }
    ensures in_range { rows_form.fits (map.entries doc.now) ≡ true }
    ensures orderly { are_in_order (rows_form.write (map.entries doc.now)) ≡ true }
{
    let _objects = doc.objects();
}

/// What is written of a row: its position and its names are such, and its numbers are in range.
pub fn sound_row<A: Allocator>(row: &(ObjId, Object<A>))
    ensures sound { row_form.sound row.now ≡ true }
    ensures in_range { row_form.fits row.now ≡ true }
{
    know_id(row.0);
    row.1.every_part();
}

/// What is written of a change: its position and its name are such, its numbers are in range, and its value isn't too deep.
pub fn sound_change<A: Allocator>(change: &Change<A>)
    ensures sound { change_form.sound change.now ≡ true }
    ensures shallow { HoldsShallow change.now }
    ensures in_range { change_form.fits change.now ≡ true }
{
    change.every_part();
    let _variant = change.variant();
}

/// What is written of an outcome: its position is one, and its numbers are in range.
#[tactic(auto, using(crate::proofs::SoundTexts::ids_sound, crate::proofs::Ranges::ids_fit, crate::proofs::Ranges::reason_fits))]
pub fn sound_outcome<A: Allocator>(outcome: &Outcome<A>)
    ensures sound { (outcome_form version_two).sound (seen_outcome outcome.now) ≡ true }
    ensures in_range { (outcome_form version_two).fits (seen_outcome outcome.now) ≡ true }
{
    match outcome {
        Outcome::Created(place) => sound_place(place),
        Outcome::Moved(place) => sound_place(place),
        Outcome::Refused { stands, .. } => sound_stands(stands),
        Outcome::Joined(client) => know_client(*client),
        Outcome::WasSet => {}
        Outcome::Removed(ids) => know_ids(ids.as_slice()),
    }
}

// Of a place that may be missing.
fn sound_stands<A: Allocator>(stands: &Option<Place<A>>)
    ensures sound { (maybe place_form).sound stands.now ≡ true }
    ensures in_range { (maybe place_form).fits stands.now ≡ true }
{
    match stands {
        Some(place) => sound_place(place),
        None => {}
    }
}

// Of a place.
#[tactic(auto, using(crate::proofs::Ranges::place_sound, crate::proofs::Ranges::place_fits))]
fn sound_place<A: Allocator>(place: &Place<A>)
    ensures sound { place_form.sound place.now ≡ true }
    ensures in_range { place_form.fits place.now ≡ true }
{
    place.every_part();
}

// Of ids.
fn know_ids(ids: &[ObjId])
    ensures { All IsId ids.now }
{
    for id in ids {
        know_id(*id);
    }
}

// Of an id.
fn know_id(id: ObjId)
    ensures { IsId id }
{}

/// What is written of a client: its id is in range.
#[tactic(auto, using(crate::proofs::Ranges::client_fits))]
pub fn know_client(client: u32)
    ensures { client_form.fits client ≡ true }
{}
