// The rows of a document as JSON.
ghost use Rattle.std.specs.Prelude.{◌≡◌, ◌++◌, IfOk, OnOk};
ghost use Rattle.std.specs.FinMap as map;
ghost use Rattle.canvas_wire.specs.Text.{row_text};
ghost use Rattle.app_admin.specs.Texts as texts;
ghost use Rattle.app_admin.specs.Texts.{between_if, rows_text};

use canvas_doc::{Doc, ObjId, Object};
use canvas_wire::encode_row;
use std::alloc::{AllocError, Global};

/// How rows are laid out.
#[derive(Clone, Copy, Debug, PartialEq, Eq)]
pub enum Layout {
    /// As one JSON array, a row a line.
    Array,
    /// Each in a line of its own.
    Lines,
}

impl Layout {
    // What stands before the first row.
    fn head(self) -> &'static [u8]
        ensures { result.now ≡ texts.head self }
    {
        match self {
            Layout::Array => b"[\n",
            Layout::Lines => b"",
        }
    }

    // What stands between two rows.
    fn between(self, later: bool) -> &'static [u8]
        ensures { result.now ≡ between_if self later }
    {
        match (later, self) {
            (false, _) => b"",
            (true, Layout::Array) => b",\n",
            (true, Layout::Lines) => b"\n",
        }
    }

    // What stands behind the last row.
    fn end(self) -> &'static [u8]
        ensures { result.now ≡ texts.end_of_rows self }
    {
        match self {
            Layout::Array => b"\n]\n",
            Layout::Lines => b"\n",
        }
    }
}

/// The rows of a document as JSON, laid out so: the root's, and then the others by id. A row is `[id,kind,place,props]`, as in a
/// checkpoint. Errors: out of memory.
pub fn rows_text(alloc: Global, doc: &Doc, layout: Layout) -> Result<Vec<u8>, AllocError>
    ensures { IfOk result (λ text. text.items ≡ rows_text layout (map.entries doc.now)) }
{
    let mut text = Vec::from_slice(alloc, layout.head())?;
    let mut later = false;
    for row in doc.objects() {
        text.extend_from_slice(layout.between(later))?;
        push_row(alloc, &mut text, row)?;
        later = true;
    }
    text.extend_from_slice(layout.end())?;
    Ok(text)
}

// Adds the text of a row.
fn push_row(alloc: Global, text: &mut Vec<u8>, row: &(ObjId, Object)) -> Result<(), AllocError>
    ensures { OnOk result (text.new.items ≡ text.old.items ++ row_text row.now) }
{
    let row = encode_row(alloc, row)?;
    text.extend_from_slice(&row)?;
    Ok(())
}
