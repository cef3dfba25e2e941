// The report of a document.
ghost use Rattle.std.specs.Prelude.{◌≡◌, ◌++◌, IfOk, OnOk, string_bytes};
ghost use Rattle.canvas_scene.specs.Report.{lines_of_object, object_line, object_lines, version_line};

use crate::answers::place_text;
use canvas_doc::{Doc, ObjId, Object};
use canvas_tree::write_props;
use std::alloc::{AllocError, Global};

/// Writes the version, and then the objects. Fails only if memory runs out, and then `out` may
/// have grown.
pub(crate) fn write_report(
    alloc: Global,
    version: u64,
    doc: &Doc,
    out: &mut Vec<u8>,
) -> Result<(), AllocError>
    ensures { OnOk result (
        out.new.items ≡ out.old.items ++ version_line version ++ object_lines doc.now) }
{
    let head = format!(in alloc; "version {version}\n")?;
    out.extend_from_slice(head.as_bytes())?;
    write_objects(alloc, doc, out)
}

// Writes a line for each live object, in id order, and after it one for each of its properties, in
// the order of their names.
fn write_objects(alloc: Global, doc: &Doc, out: &mut Vec<u8>) -> Result<(), AllocError>
    ensures { OnOk result (out.new.items ≡ out.old.items ++ object_lines doc.now) }
{
    for object in doc.objects() {
        write_object(alloc, object, out)?;
    }
    Ok(())
}

// Writes the line of one object, and one for each of its properties.
fn write_object(
    alloc: Global,
    object: &(ObjId, Object),
    out: &mut Vec<u8>,
) -> Result<(), AllocError>
    ensures { OnOk result (out.new.items ≡ out.old.items ++ lines_of_object object.now) }
{
    let line = object_line(alloc, object)?;
    out.extend_from_slice(line.as_bytes())?;
    write_props(alloc, object.1.props(), 1, out)
}

// The line of one object: its id, its kind, and its place unless it is the root.
fn object_line(alloc: Global, object: &(ObjId, Object)) -> Result<String, AllocError>
    ensures { IfOk result (λ line. string_bytes line ≡ object_line object.now) }
{
    let id = object.0;
    let kind = object.1.kind();
    match object.1.place() {
        Some(place) => {
            let place = place_text(alloc, place)?;
            format!(in alloc; "{id} {kind} {place}\n")
        }
        None => format!(in alloc; "{id} {kind}\n"),
    }
}
