// Where a client stands that asks to be told unasked.
ghost use Rattle.std.specs.Prelude.{◌≡◌, codes, IfNone, IfSome, option_map};
ghost use Rattle.serde_json.specs.Data.{array, item, string};
ghost use Rattle.serde_json.specs.View.{view, items_view};
ghost use Rattle.canvas_live.specs.Word.{IsLiveJson, live_form, parts_of};

use canvas_codec::parts::whole;
use canvas_forms::json_tree::{two, whole32, worded};
use serde_json::Value as Json;

// The most entries that a log may have.
const LAST_VERSION: u64 = 4_611_686_018_427_387_904;

/// A client, and the version up to which it was told all.
#[derive(Clone, Copy, Debug, PartialEq, Eq)]
pub struct Place {
    /// The client's id.
    pub client: u32,
    /// The version.
    pub version: u64,
}

// Returns the place of which this is the JSON tree.
pub(crate) fn place_of(json: &Json) -> Option<Place>
    ensures some { IfSome result (IsLiveJson (view json.now)) }
    ensures none { IfNone result ((place : Place) → IsLiveJson (view json.now) place → ⊥) }
{
    match read_place(json) {
        Some((place, true)) => Some(place),
        _ => None,
    }
}

// What a JSON tree is read as, and whether its numbers were in range.
#[tactic(auto, using(canvas_forms::proofs::Members::no_word))]
fn read_place(json: &Json) -> Option<(Place, bool)>
    ensures { option_map (λ r. (parts_of r.0, r.1)) result ≡ live_form.read (view json.now) }
{
    let (word, rest) = worded(json)?;
    if word == "live" {
        read_members(rest)
    } else {
        None
    }
}

// The same, by the members after the word.
#[tactic(auto, using(canvas_forms::proofs::Members::not_two, canvas_forms::proofs::Members::and_true))]
fn read_members(rest: &[Json]) -> Option<(Place, bool)>
    ensures { option_map (λ r. (parts_of r.0, r.1)) result ≡ live_form.read (array (item (string (codes "live")) (items_view rest.now))) }
{
    let (client, version) = two(rest)?;
    let (client, client_fits) = whole32(client)?;
    let (version, version_fits) = whole(version, 0, LAST_VERSION)?;
    Some((Place { client, version }, client_fits & version_fits))
}
