// What the JSON of a line says that is no row: its id, and its kind.
ghost use Rattle.std.specs.Prelude.{◌≡◌, is_some};
ghost use Rattle.serde_json.specs.View.{view};
ghost use Rattle.canvas_forms.specs.Ids.{id_form};
ghost use Rattle.canvas_forms.specs.Kinds.{kind_form};
ghost use Rattle.app_admin.specs.RowFaults.{id_fault, id_in, is_rooted_or_made, order_fault, tree_fault};

use app_faults::RowFault;
use canvas_doc::{Kind, ObjId};
use canvas_forms::json_tree::{four, members, two, whole32};
use serde_json::Value as Json;

/// Why a JSON tree is no row after one with this id, as far as its id and its kind say it.
pub(crate) fn tree_fault(last: Option<ObjId>, json: &Json) -> Option<RowFault>
    ensures { result ≡ tree_fault last (view json.now) }
{
    let Some(items) = members(json) else {
        return Some(RowFault::NotARow);
    };
    let Some((id, kind, _place, _props)) = four(items) else {
        return Some(RowFault::NotARow);
    };
    let Some(id) = id_in(id) else {
        return Some(RowFault::Id);
    };
    if let Some(fault) = id_fault(last, id) {
        return Some(fault);
    }
    if is_kind(kind) {
        None
    } else {
        Some(RowFault::Kind)
    }
}

/// Why a row with this id must not come after one with that id, or first.
pub(crate) fn id_fault(last: Option<ObjId>, id: ObjId) -> Option<RowFault>
    ensures { result ≡ id_fault last id }
{
    if is_rooted_or_made(id) {
        order_fault(last, id)
    } else {
        Some(RowFault::Id)
    }
}

// Checks whether an id is the root's, or that of a client.
fn is_rooted_or_made(id: ObjId) -> bool
    ensures { result ≡ is_rooted_or_made id }
{
    if id.client == 0 {
        id == ObjId::ROOT
    } else {
        true
    }
}

// Why an id must not come after that one, or first.
fn order_fault(last: Option<ObjId>, id: ObjId) -> Option<RowFault>
    ensures { result ≡ order_fault last id }
{
    match last {
        None => if id == ObjId::ROOT {
            None
        } else {
            Some(RowFault::Root)
        },
        Some(last) => if id == ObjId::ROOT {
            Some(RowFault::Root)
        } else if last < id {
            None
        } else {
            Some(RowFault::Order)
        },
    }
}

// The id that a JSON tree is.
fn id_in(json: &Json) -> Option<ObjId>
    ensures { result ≡ id_in (view json.now) }
{
    let (id, fits) = read_id(json)?;
    if fits { Some(id) } else { None }
}

// The id that a JSON tree is read as, and whether its numbers were in range.
#[tactic(auto, using(canvas_forms::proofs::Members::not_two, canvas_forms::proofs::Members::no_array, canvas_forms::proofs::Members::is_array, canvas_forms::proofs::Members::and_true))]
fn read_id(json: &Json) -> Option<(ObjId, bool)>
    ensures { result ≡ id_form.read (view json.now) }
{
    let (client, counter) = two(members(json)?)?;
    let (client, client_fits) = whole32(client)?;
    let (counter, counter_fits) = whole32(counter)?;
    Some((ObjId { client, counter }, client_fits & counter_fits))
}

// Checks whether a JSON tree is the word of a kind.
fn is_kind(json: &Json) -> bool
    ensures { result ≡ is_some (kind_form.read (view json.now)) }
{
    match json.as_str() {
        Some("document" | "page" | "frame" | "shape" | "text") => true,
        _ => false,
    }
}
