// Ids of objects.
ghost use Rattle.std.specs.Prelude.{◌≡◌, IfOk};
ghost use Rattle.serde_json.specs.View.{view};
ghost use Rattle.canvas_forms.specs.Ids.{id_form};

use crate::json_tree::{array, members, two, whole32};
use canvas_model::ObjId;
use serde_json::Value as Json;
use std::alloc::{AllocError, Global};

// The JSON of an id.
pub(crate) fn write_id(alloc: Global, id: ObjId) -> Result<Json, AllocError>
    ensures { IfOk result (λ j. view j ≡ id_form.write id) }
{
    array(alloc, [Json::from(id.client), Json::from(id.counter)])
}

// The id that a JSON tree is read as, and whether its numbers were in range.
#[tactic(auto, using(crate::proofs::Members::not_two, crate::proofs::Members::no_array, crate::proofs::Members::is_array, crate::proofs::Members::and_true))]
pub(crate) fn read_id(json: &Json) -> Option<(ObjId, bool)>
    ensures { result ≡ id_form.read (view json.now) }
{
    let (client, counter) = two(members(json)?)?;
    let (client, client_fits) = whole32(client)?;
    let (counter, counter_fits) = whole32(counter)?;
    Some((ObjId { client, counter }, client_fits & counter_fits))
}
