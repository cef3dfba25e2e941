// The lines that answer requests.
ghost use Rattle.std.specs.Prelude.{◌≡◌, IfOk, string_bytes};
ghost use Rattle.canvas_judge.specs.Seen.{seen_outcome};
ghost use Rattle.canvas_model.specs.Text as text;
ghost use Rattle.canvas_scene.specs.Answers.{outcome_line, carried_text, outcome_text};

use canvas_doc::Place;
use canvas_judge::Outcome;
use std::alloc::{AllocError, Global};

/// The line that answers a request which became the log's entry of this version.
pub fn answer_line(alloc: Global, version: u64, outcome: &Outcome) -> Result<String, AllocError>
    ensures { IfOk result (λ line.
        string_bytes line ≡ outcome_line version (seen_outcome outcome.now)) }
{
    let outcome = outcome_text(alloc, outcome)?;
    format!(in alloc; "{version} {outcome}\n")
}

// What became of a request.
fn outcome_text(alloc: Global, outcome: &Outcome) -> Result<String, AllocError>
    ensures { IfOk result (λ text. string_bytes text ≡ outcome_text (seen_outcome outcome.now)) }
{
    match outcome {
        Outcome::Joined(client) => format!(in alloc; "joined {client}"),
        Outcome::Created(place) => {
            let place = place_text(alloc, place)?;
            format!(in alloc; "created {place}")
        }
        Outcome::WasSet => String::from_str(alloc, "set"),
        Outcome::Moved(place) => {
            let place = place_text(alloc, place)?;
            format!(in alloc; "moved {place}")
        }
        Outcome::Removed(ids) => {
            let mut text = String::from_str(alloc, "removed")?;
            for id in ids {
                write!(text, " {id}")?;
            }
            Ok(text)
        }
        Outcome::Refused { reason, stands } => {
            let number = reason.number();
            let carried = carried_text(alloc, stands)?;
            format!(in alloc; "refused {number} {reason}{carried}")
        }
    }
}

// The place that a refusal carries.
fn carried_text(alloc: Global, stands: &Option<Place>) -> Result<String, AllocError>
    ensures { IfOk result (λ text. string_bytes text ≡ carried_text stands.now) }
{
    match stands {
        Some(place) => {
            let place = place_text(alloc, place)?;
            format!(in alloc; " stands {place}")
        }
        None => Ok(String::new(alloc)),
    }
}

/// The parent's id, a blank and the position.
pub fn place_text(alloc: Global, place: &Place) -> Result<String, AllocError>
    ensures { IfOk result (λ t. string_bytes t ≡ text.place_text place.now) }
{
    let parent = place.parent;
    let pos = place.pos.as_str();
    format!(in alloc; "{parent} {pos}")
}
