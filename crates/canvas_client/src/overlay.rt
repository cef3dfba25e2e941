// Edits that wait, laid over a copy of the document.
ghost use Rattle.std.specs.Prelude.{◌≡◌, IfOk, drop};
ghost use Rattle.canvas_model.specs.Overlay.{over};

use canvas_doc::Doc;
use canvas_pending::Pending;
use std::alloc::{AllocError, Allocator};

/// A copy of the document with the waiting edits from this index on laid over it in order. Errors: out of memory.
pub fn overlaid<A: Allocator + Copy, B: Allocator + Copy>(
    alloc: A,
    doc: &Doc<B>,
    waiting: &Pending<A>,
    first: usize,
) -> Result<Doc<A>, AllocError>
    ensures { IfOk result (λ view. view ≡ over doc.now (drop first waiting.now)) }
{
    let mut view = doc.copy(alloc)?;
    for at in first..waiting.len() {
        view.overlay(waiting.get(at).unwrap())?;
    }
    Ok(view)
}
