// The text by which a document is shown: its version, and its tree.
ghost use Rattle.std.specs.Prelude.{IfOk};
ghost use Rattle.canvas_lines.specs.Reports.{IsReportText};

use bumpalo::Bump;
use canvas_doc::Doc;
use canvas_tree::grow;
use std::alloc::{AllocError, Global};

/// The text of a document at a version: `version V` and a line feed, and the text of the document's tree at level 0. The tree is grown
/// in an arena, which ends with it. Errors: out of memory.
pub fn report_text(alloc: Global, version: u64, doc: &Doc) -> Result<Vec<u8>, AllocError>
    ensures { IfOk result (λ text. IsReportText version doc.now text.items) }
{
    let arena = Bump::new(alloc);
    let tree = grow(&arena, doc)?;
    let head = format!(in alloc; "version {version}\n")?;
    let mut text = Vec::from_slice(alloc, head.as_bytes())?;
    tree.text(alloc, 0, &mut text)?;
    Ok(text)
}
