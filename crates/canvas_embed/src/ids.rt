// Ids as text.
ghost use Rattle.std.specs.Prelude.{◌≡◌, IfOk};
ghost use Rattle.serde_json.specs.View.{view};
ghost use Rattle.canvas_embed.specs.Ids.{EncodesIds, ids_form};

use canvas_doc::ObjId;
use canvas_forms::json_tree::array;
use serde_json::Value as Json;
use std::alloc::{AllocError, Global};

// The text of ids: an array, in which each is an array of its client and its counter.
pub(crate) fn ids_text(alloc: Global, ids: &[ObjId]) -> Result<Vec<u8>, AllocError>
    ensures { IfOk result (λ text. EncodesIds text.items ids.now) }
{
    let text = write_ids(alloc, ids)?.to_vec(alloc)?;
    Ok(text)
}

// The JSON of ids.
fn write_ids(alloc: Global, ids: &[ObjId]) -> Result<Json, AllocError>
    ensures { IfOk result (λ json. view json ≡ ids_form.write ids.now) }
{
    let mut items = Vec::with_capacity(alloc, ids.len())?;
    for id in ids {
        items.push(array(alloc, [Json::from(id.client), Json::from(id.counter)])?)?;
    }
    let json = Json::from(items);
    Ok(json)
}
