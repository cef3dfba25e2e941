// Copies of the document.
ghost use Rattle.std.specs.Prelude.{◌≡◌, ◌<◌, ◌^◌, ◌++◌, ◌∷◌, ℕ, List, [], IfOk, OnOk, string_bytes};
ghost use Rattle.std.specs.FinMap as map;
ghost use Rattle.serde_json.specs.Written.{comma_if, compact_text};
ghost use Rattle.canvas_model.specs.Document as document;
ghost use Rattle.canvas_model.specs.Messages as messages;
ghost use Rattle.canvas_judge.specs.Seen.{seen_copy};
ghost use Rattle.canvas_forms.specs.Rows.{rows_form};
ghost use Rattle.canvas_wire.specs.Messages.{copy_start};
ghost use Rattle.canvas_wire.specs.Text.{EncodesMessage, EncodesRows, row_text};

use canvas_doc::{Doc, ObjId, Object};
use canvas_forms::rows::write_row;
use canvas_forms::sound::sound_doc;
use canvas_judge::DocCopy;
use std::alloc::{AllocError, Allocator, Global};

// The JSON text of a copy. The JSON tree of one row at a time stands in memory beside it.
pub(crate) fn encode_copy<A: Allocator>(
    alloc: Global,
    copy: &DocCopy<A>,
) -> Result<Vec<u8>, AllocError>
    ensures { IfOk result (λ b. EncodesMessage b.items (seen_copy copy.now)) }
{
    sound_doc(&copy.doc);
    let mut text = copy_start(alloc, copy.version, copy.done)?;
    push_rows(alloc, &copy.doc, &mut text)?;
    text.push_str("]")?;
    Ok(text.into_bytes())
}

/// The JSON text of a document's rows, as it stands in each copy of that document. The error is that memory ran out. The JSON tree of
/// one row at a time stands in memory beside it.
pub fn encode_rows<A: Allocator>(alloc: Global, doc: &Doc<A>) -> Result<Vec<u8>, AllocError>
    ensures { IfOk result (λ b. EncodesRows b.items doc.now) }
{
    sound_doc(doc);
    let mut text = String::new(alloc);
    push_rows(alloc, doc, &mut text)?;
    Ok(text.into_bytes())
}

/// Returns the JSON text of a copy of a document, up to the text of its rows: of the document at this version, for a client whose first `done`
/// edits were judged by then. The text of the rows, by [`encode_rows`], and a `]` follow. Errors: out of memory.
pub fn encode_copy_start(alloc: Global, version: u64, done: u64) -> Result<Vec<u8>, AllocError>
    ensures { (doc : document.Doc) (rows : List ℕ) → EncodesRows rows doc → IfOk result (λ start. EncodesMessage (start.items ++ (rows ++ 93 ∷ [])) (messages.Copy version done doc)) }
{
    let start = copy_start(alloc, version, done)?.into_bytes();
    Ok(start)
}

// The text of a copy up to its rows.
fn copy_start(alloc: Global, version: u64, done: u64) -> Result<String, AllocError>
    ensures text { IfOk result (λ text. string_bytes text ≡ copy_start version done) }
    ensures version { version < 2 ^ 64 }
    ensures done { done < 2 ^ 64 }
{
    format!(in alloc; "[\"copy\",{version},{done},")
}

// Adds the JSON text of the document's rows. If memory runs out, `text` may have grown.
fn push_rows<A: Allocator>(alloc: Global, doc: &Doc<A>, text: &mut String) -> Result<(), AllocError>
    ensures { OnOk result (string_bytes text.new
        ≡ string_bytes text.old ++ compact_text (rows_form.write (map.entries doc.now))) }
{
    text.push_str("[")?;
    let mut later = false;
    for row in doc.objects() {
        let row = row_text(alloc, row)?;
        text.push_str(comma(later))?;
        text.push_str(row.as_str())?;
        later = true;
    }
    text.push_str("]")?;
    Ok(())
}

// The JSON text of a row.
fn row_text<A: Allocator>(alloc: Global, row: &(ObjId, Object<A>)) -> Result<String, AllocError>
    ensures { IfOk result (λ text. string_bytes text ≡ row_text row.now) }
{
    let text = write_row(alloc, row)?.to_string(alloc)?;
    Ok(text)
}

// A comma, where something stands before.
fn comma(later: bool) -> &'static str
    ensures { result.now ≡ comma_if later }
{
    if later { "," } else { "" }
}
