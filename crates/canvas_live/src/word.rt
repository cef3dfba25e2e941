// Which word of live connections bytes are.
ghost use Rattle.std.specs.Prelude.{◌≤◌, IfNone, IfOk, IfSome};
ghost use Rattle.serde_json.specs.Data.{depth};
ghost use Rattle.serde_json.specs.Read.{max_depth};
ghost use Rattle.serde_json.specs.View.{view};
ghost use Rattle.canvas_live.specs.Words.{IsNoWordJson, IsWordJson, SpellsNoWord, SpellsWord};

use crate::here::{Here, here_of};
use crate::place::{Place, place_of};
use serde_json::Value as Json;
use std::alloc::{AllocError, Global};

/// A word of a live connection.
#[derive(Debug, Drop)]
pub enum Word {
    /// The client asks to be told what is published from this place on.
    Live(Place),
    /// The client shows the others this of itself.
    Here(Here),
}

/// Reads a word: JSON of `["live",ID,VERSION]` or `["here",ID,VALUE]`, the numbers in range. Returns `None` exactly if the bytes are no text of
/// either. Errors: out of memory. It parses the bytes once, in time proportional to their number.
pub fn word_in(alloc: Global, bytes: &[u8]) -> Result<Option<Word>, AllocError>
    ensures some { IfOk result (λ found. IfSome found (SpellsWord bytes.now)) }
    ensures none { IfOk result (λ found. IfNone found (SpellsNoWord bytes.now)) }
{
    match Json::from_slice(alloc, bytes) {
        Ok(json) => word_of(alloc, &json),
        Err(error) => if error.is_memory() {
            Err(AllocError)
        } else {
            Ok(None)
        },
    }
}

// Reads the same from a JSON tree.
fn word_of(alloc: Global, json: &Json) -> Result<Option<Word>, AllocError>
    requires { depth (view json.now) ≤ max_depth }
    ensures some { IfOk result (λ found. IfSome found (IsWordJson (view json.now))) }
    ensures none { IfOk result (λ found. IfNone found (IsNoWordJson (view json.now))) }
{
    if let Some(place) = place_of(json) {
        return Ok(Some(Word::Live(place)));
    }
    match here_of(alloc, json)? {
        Some(here) => Ok(Some(Word::Here(here))),
        None => Ok(None),
    }
}
