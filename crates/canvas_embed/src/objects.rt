// One object of a client's view.
ghost use Rattle.std.specs.Prelude.{◌≡◌, ◌↔◌, false, IfOk, IfSome, IfNone, IsTrue};
ghost use Rattle.canvas_model.specs.Chain.{InTree};
ghost use Rattle.canvas_model.specs.Document.{live};
ghost use Rattle.canvas_embed.specs.Objects.{IsChildrenText, IsObjectText};

use crate::ids::ids_text;
use canvas_client::Client;
use canvas_doc::ObjId;
use canvas_judge::is_above;
use canvas_wire::encode_row;
use std::alloc::{AllocError, Global};

/// The text of the object and its id as a row: its kind, its place, and its properties; none where the client's view hasn't the
/// object. Errors: out of memory.
pub fn object_text(alloc: Global, client: &Client, id: ObjId) -> Result<Option<Vec<u8>>, AllocError>
    ensures some { IfOk result (λ made. IfSome made (λ text. IsObjectText client.now id text.items)) }
    ensures none { IfOk result (λ made. IfNone made (live client.now.view id ≡ false)) }
{
    let Some(object) = client.view().object(id) else {
        return Ok(None);
    };
    let copy = object.copy_in(alloc)?;
    let text = encode_row(alloc, &(id, copy))?;
    Ok(Some(text))
}

/// The text of the ids of the objects in the view whose place names this one, in order: `[[1,2],..]`, each a client and a counter. The
/// object itself needn't be in the view. Errors: out of memory.
pub fn children_text(alloc: Global, client: &Client, id: ObjId) -> Result<Vec<u8>, AllocError>
    ensures { IfOk result (λ text. IsChildrenText client.now id text.items) }
{
    let ids = client.view().children(alloc, id)?;
    ids_text(alloc, &ids)
}

/// Checks whether the client shows the object in its tree: a chain of parents leads from it to the root.
pub fn is_in_tree(client: &Client, id: ObjId) -> bool
    ensures { IsTrue result ↔ InTree client.now.view id }
{
    is_above(client.view(), ObjId::ROOT, id)
}
