// The document that rows make.
ghost use Rattle.std.specs.Prelude.{◌≡◌, IfErr, IfOk, IfSome};
ghost use Rattle.std.specs.FinMap as map;
ghost use Rattle.canvas_model.specs.Document as document;
ghost use Rattle.app_admin.specs.RowFaults.{IsBadRow, IsDepthFault, IsMakeFault, IsPlaceFault, most_client};

use crate::reading_rows::Rows;
use app_faults::{Fault, RowFault};
use canvas_doc::{Doc, ObjId, Object};
use canvas_judge::{Counts, State};
use canvas_model::DEPTH_LIMIT;
use std::alloc::{AllocError, Global};

/// The state of the document that these rows are. Its clients have made the objects, and no edit of theirs was judged. It has the counts of each
/// client up to the greatest that made one, which is at most 1000000, or at most 1000 for each row if that is more, and never above 16777216.
///
/// The errors: `BadLine`, for the first row whose client is above that; else for the first whose parent isn't there or can't have it, or that
/// has the place of another; else for the first that is deeper than 100, or not below the root; `NoDocument`, if there are no rows, or
/// they aren't in the order of `read_rows`; `Memory`.
pub fn document_of(alloc: Global, read: Rows) -> Result<State, Fault>
    ensures document { IfOk result (λ state. map.entries state.doc ≡ read.rows.items) }
    ensures faults { IfErr result (IsMakeFault read.rows.items read.lines.items) }
{
    let Rows { rows, lines } = read;
    if let Some((line, fault)) = late_client(&rows, &lines) {
        return Err(Fault::BadLine { line, fault });
    }
    let clients = counts_of(alloc, &rows)?;
    let made = Doc::from_objects(rows)?;
    let Some(doc) = made else {
        return Err(Fault::NoDocument);
    };
    if let Some((line, fault)) = misplaced(&doc, &lines) {
        return Err(Fault::BadLine { line, fault });
    }
    if let Some((line, fault)) = far_away(&doc, &lines) {
        return Err(Fault::BadLine { line, fault });
    }
    let found = State::from_parts(doc, clients)?;
    let Some(state) = found else {
        return Err(Fault::NoDocument);
    };
    Ok(state)
}

// The greatest client that an object among this number may have.
fn most_client(count: usize) -> u32
    ensures { result ≡ most_client count }
{
    if count < 1_001 {
        1_000_000
    } else if count < 16_778 {
        count as u32 * 1_000
    } else {
        1 << 24
    }
}

// The line of the first row whose client is too great, and that.
fn late_client(rows: &[(ObjId, Object)], lines: &[u64]) -> Option<(u64, RowFault)>
    ensures { IfSome result (λ bad. IsBadRow rows.now lines.now bad.0 bad.1) }
{
    let most = most_client(rows.len());
    let mut left = lines;
    for row in rows {
        let (line, more) = left.split_first()?;
        if row.0.client > most {
            return Some((*line, RowFault::Client { most }));
        }
        left = more;
    }
    None
}

// The counts of the clients that made these objects.
fn counts_of(alloc: Global, rows: &[(ObjId, Object)]) -> Result<Vec<Counts>, AllocError> {
    let mut clients = Vec::new(alloc);
    for row in rows {
        count(&mut clients, row.0)?;
    }
    Ok(clients)
}

// Counts an object as one of its client's.
fn count(clients: &mut Vec<Counts>, id: ObjId) -> Result<(), AllocError> {
    if id == ObjId::ROOT || id.client == 0 {
        return Ok(());
    }
    let at = id.client as usize - 1;
    if clients.len() <= at {
        clients.resize(at + 1, Counts { done: 0, used: 0 })?;
    }
    if let Some(counts) = clients.get_mut(at) {
        counts.used = counts.used.max(id.counter);
    }
    Ok(())
}

// The line of the first row that must not have its place, as far as its parent and its siblings say it, and why.
fn misplaced(doc: &Doc, lines: &[u64]) -> Option<(u64, RowFault)>
    ensures { IfSome result (λ bad. IsBadRow (map.entries doc.now) lines.now bad.0 bad.1) }
{
    let mut left = lines;
    for row in doc.objects() {
        let (line, more) = left.split_first()?;
        if let Some(fault) = place_fault(doc, row) {
            return Some((*line, fault));
        }
        left = more;
    }
    None
}

// Why an object must not have its place.
fn place_fault(doc: &Doc, row: &(ObjId, Object)) -> Option<RowFault>
    ensures { IfSome result (λ fault. (place : document.Place) × (row.now.1.place ≡ Some place) × IsPlaceFault doc.now row.now place fault) }
{
    let place = row.1.place()?;
    let Some(parent) = doc.kind_of(place.parent) else {
        return Some(RowFault::NoParent);
    };
    if !row.1.kind().may_stand_under(parent) {
        Some(RowFault::ParentKind)
    } else if doc.taken(place.parent, &place.pos, row.0) {
        Some(RowFault::Position)
    } else {
        None
    }
}

// The line of the first row that is too deep, or not below the root, and whichever it is.
fn far_away(doc: &Doc, lines: &[u64]) -> Option<(u64, RowFault)>
    ensures { IfSome result (λ bad. IsBadRow (map.entries doc.now) lines.now bad.0 bad.1) }
{
    let mut left = lines;
    for row in doc.objects() {
        let (line, more) = left.split_first()?;
        if let Some(fault) = depth_fault(doc, row.0) {
            return Some((*line, fault));
        }
        left = more;
    }
    None
}

// Why an object must not be so far from the root. It climbs no higher than an object may be deep, but for the first that is.
fn depth_fault(doc: &Doc, id: ObjId) -> Option<RowFault>
    ensures { IfSome result (IsDepthFault doc.now id) }
{
    match doc.depth(id) {
        Some(depth) => if depth > DEPTH_LIMIT {
            Some(RowFault::TooDeep)
        } else {
            None
        },
        None => Some(RowFault::Circle),
    }
}
