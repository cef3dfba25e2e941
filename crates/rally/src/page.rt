// What each node of a rally does.
ghost use Rattle.std.specs.Prelude.{◌≡◌, IfOk};
ghost use Rattle.canvas_model.specs.Local.{Set};
ghost use Rattle.rally.specs.Pages.{AsksForPage, IsSetOf};

use canvas_client::EditRequest;
use canvas_doc::{Kind, ObjId};
use canvas_threads::Plan;
use canvas_value::{Name, Value};
use std::alloc::{AllocError, Global};

// The property that is set.
const PROPERTY: &[u8] = b"n";

/// A plan: a page, and so many sets of a property of it.
#[derive(Clone, Copy, Debug, PartialEq, Eq)]
pub struct Page {
    /// How often the property is set.
    pub sets: u32,
}

impl Plan for Page {
    ghost use Rattle.rally.specs.Pages.{AsksForPage};

    ghost asks = { λ page id requests. AsksForPage id page.sets requests };

    fn edits(self, alloc: Global, id: u32) -> Result<Vec<EditRequest>, AllocError> {
        let page = ObjId {
            client: id,
            counter: 1,
        };
        let mut edits = Vec::new(alloc);
        edits.push(EditRequest::create(Kind::Page, ObjId::ROOT, None))?;
        for n in 0..self.sets {
            edits.push(set(alloc, page, n)?)?;
        }
        Ok(edits)
    }
}

// A request that sets the property of an object to this number. Errors: out of memory.
fn set(alloc: Global, id: ObjId, n: u32) -> Result<EditRequest, AllocError>
    ensures { IfOk result (IsSetOf id) }
{
    let Ok(name) = Name::read(alloc, PROPERTY) else {
        return Err(AllocError);
    };
    match EditRequest::set(id, name, Value::number(i64::from(n))) {
        Ok(request) => Ok(request),
        Err(_) => unreachable!(),
    }
}
