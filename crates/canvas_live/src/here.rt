// What a client shows the others of itself, which no log has.
ghost use Rattle.std.specs.Prelude.{◌≡◌, ◌<◌, ◌≤◌, ◌↔◌, ℕ, codes, string_bytes, IfNone, IfOk, IfSome, IsTrue, option_map};
ghost use Rattle.serde_json.specs.Data.{Data, array, depth, item, null, string};
ghost use Rattle.serde_json.specs.Read.{max_depth};
ghost use Rattle.serde_json.specs.View.{view, items_view};
ghost use Rattle.canvas_live.specs.Presence.{IsHereJson, IsReadable, TellsHere, here_form, here_start};

use canvas_forms::json_tree::{array, two, whole32, worded};
use serde_json::Value as Json;
use std::alloc::{AllocError, Global};

/// The most bytes that the text of a value may have.
pub const MOST_VALUE_BYTES: usize = 1024;

/// What a client shows of itself, in the server's text.
#[derive(Debug, Drop)]
pub struct Here {
    /// The client's id.
    pub client: u32,
    /// The text: `["here",CLIENT,VALUE]`, with no blank outside the texts in it.
    pub text: Vec<u8>,
    /// The number of bytes of the value's own text.
    pub value_bytes: usize,
    /// The text is that of the client and of some value, whose own text has this number of bytes.
    pub ghost told: { ∥ ((value : Data) × TellsHere text.items client value value_bytes) ∥₁ },
}

impl Here {
    /// Returns what the server sends if the client's connection has ended: its value is null. Errors: out of memory.
    pub fn gone(alloc: Global, client: u32) -> Result<Here, AllocError>
        ensures client { IfOk result (λ here. here.client ≡ client) }
        ensures told { IfOk result (λ here. TellsHere here.text.items here.client null here.value_bytes) }
    {
        let word = Json::try_from_str(alloc, "here")?;
        let json = array(alloc, [word, Json::from(client), Json::Null])?;
        write_here(alloc, client, &json)
    }

    /// Checks whether the value's own text has more than `MOST_VALUE_BYTES` bytes.
    pub fn is_too_large(&self) -> bool
        ensures { IsTrue result ↔ (MOST_VALUE_BYTES < self.now.value_bytes) }
    {
        self.value_bytes > MOST_VALUE_BYTES
    }
}

// Reads what a client shows from a JSON tree: `["here",ID,VALUE]`, the id in range. Returns `None` exactly if it is no such tree. Errors: out of memory.
pub(crate) fn here_of(alloc: Global, json: &Json) -> Result<Option<Here>, AllocError>
    requires { depth (view json.now) ≤ max_depth }
    ensures some { IfOk result (λ found. IfSome found (λ here. (value : Data) × IsHereJson (view json.now) here.client value
        × TellsHere here.text.items here.client value here.value_bytes)) }
    ensures none { IfOk result (λ found. IfNone found ((client : ℕ) (value : Data) → IsHereJson (view json.now) client value → ⊥)) }
{
    match read_client(json) {
        Some((client, true)) => Ok(Some(write_here(alloc, client, json)?)),
        _ => Ok(None),
    }
}

// Returns the client of a JSON tree of the word, and whether its id is in range.
#[tactic(auto, using(canvas_forms::proofs::Members::no_word))]
fn read_client(json: &Json) -> Option<(u32, bool)>
    ensures { result ≡ option_map (λ r. (r.0.0, r.1)) (here_form.read (view json.now)) }
{
    let (word, rest) = worded(json)?;
    if word == "here" {
        read_members(rest)
    } else {
        None
    }
}

// Does the same by the members after the word.
#[tactic(auto, using(canvas_forms::proofs::Members::not_two, canvas_forms::proofs::Members::and_true))]
fn read_members(rest: &[Json]) -> Option<(u32, bool)>
    ensures { result ≡ option_map (λ r. (r.0.0, r.1)) (here_form.read (array (item (string (codes "here")) (items_view rest.now)))) }
{
    let (client, _) = two(rest)?;
    whole32(client)
}

// Writes the JSON tree of the word, whose client this is. Errors: out of memory.
fn write_here(alloc: Global, client: u32, json: &Json) -> Result<Here, AllocError>
    requires { IsReadable (view json.now) client }
    ensures client { IfOk result (λ here. here.client ≡ client) }
    ensures told { IfOk result (λ here. (value : Data) × IsHereJson (view json.now) here.client value
        × TellsHere here.text.items here.client value here.value_bytes) }
{
    let text = json.to_vec(alloc)?;
    let start = here_start(alloc, client)?;
    let value_bytes = text.len() - start.len() - 1;
    Ok(Here {
        client,
        text,
        value_bytes,
    })
}

// Returns the server's text of the word up to the value. Errors: out of memory.
fn here_start(alloc: Global, client: u32) -> Result<String, AllocError>
    ensures { IfOk result (λ text. string_bytes text ≡ here_start client) }
{
    format!(in alloc; "[\"here\",{client},")
}
