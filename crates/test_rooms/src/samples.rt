// Ids of objects and creations of pages, in one call each.

use canvas_doc::{Change, Kind, ObjId, Place};
use canvas_pos::Pos;
use std::alloc::Global;
use std::test::Fail;

/// The object of this counter of a client.
pub fn object(client: u32, counter: u32) -> ObjId {
    ObjId { client, counter }
}

/// The creation of a page. Fails if memory runs out.
pub fn new_page(alloc: Global, id: ObjId) -> Result<Change, Fail> {
    let pos = Pos::read(alloc, b"O")?;
    let parent = ObjId::ROOT;
    Ok(Change::create(id, Kind::Page, Place { parent, pos }))
}
