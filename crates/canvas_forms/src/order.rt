//! Whether rows stand in order. It is told from their JSON trees: ids are compared whatever the range of their numbers.
ghost use Rattle.std.specs.Prelude.{◌≡◌};
ghost use Rattle.std.specs.Ordering.{is_eq};
ghost use Rattle.serde_json.specs.View.{view, items_view};
ghost use Rattle.canvas_forms.specs.RowOrder.{wide_cmp, wide_root, integer_in, wide_in, is_document, head_in, is_root, is_row, is_after, are_each_after, are_rows};

use crate::json_tree::{four, members, two};
use serde_json::Value as Json;
use std::cmp::Ordering;

/// An id whose numbers may be out of range.
#[derive(Clone, Copy, Drop)]
pub struct WideId {
    pub client: i128,
    pub counter: i128,
}

/// What a row says besides its properties.
#[derive(Clone, Copy, Drop)]
pub struct RowHead {
    pub id: WideId,
    pub is_document: bool,
    pub is_placed: bool,
}

/// Checks whether the first row is the root's, and each other has a place and a greater id than the one before it.
pub fn are_rows(rows: &[Json]) -> bool
    ensures { result ≡ are_rows (items_view rows.now) }
{
    match rows.first() {
        Some(first) => is_root(head(first)) && are_after(rows),
        None => false,
    }
}

/// Checks whether a row is the root's, a document without a place, or another's that has a place.
pub fn is_row(row: &Json) -> bool
    ensures { result ≡ is_row (head_in (view row.now)) }
{
    match head(row) {
        Some(row) => if has_root_id(row) {
            row.is_document && !row.is_placed
        } else {
            row.is_placed
        },
        None => false,
    }
}

// Checks whether each row but the first has a place and a greater id than the one before it.
fn are_after(rows: &[Json]) -> bool
    ensures { result ≡ are_each_after (items_view rows.now) }
{
    rows.is_sorted_by(
        |row: &Json, next: &Json| -> bool
            ensures { result ≡ is_after (head_in (view row.now)) (head_in (view next.now)) }
        { is_after(head(row), head(next)) },
    )
}

// Checks whether a row says that it is the root, a document without a place.
fn is_root(row: Option<RowHead>) -> bool
    ensures { result ≡ is_root row }
{
    match row {
        Some(row) => has_root_id(row) && row.is_document && !row.is_placed,
        None => false,
    }
}

// Checks whether a row is of the root's id.
fn has_root_id(row: RowHead) -> bool
    ensures { result ≡ is_eq (wide_cmp row.id wide_root) }
{
    let root = WideId {
        client: 0,
        counter: 0,
    };
    compare(row.id, root).is_eq()
}

// Checks whether the next row has a place and a greater id.
fn is_after(row: Option<RowHead>, next: Option<RowHead>) -> bool
    ensures { result ≡ is_after row next }
{
    match (row, next) {
        (Some(row), Some(next)) => compare(row.id, next.id).is_lt() && next.is_placed,
        _ => false,
    }
}

// The order of two ids, by client and then counter.
fn compare(id: WideId, other: WideId) -> Ordering
    ensures { result ≡ wide_cmp id other }
{
    id.client
        .cmp(&other.client)
        .then(id.counter.cmp(&other.counter))
}

// What a row says besides its properties.
#[tactic(auto, using(crate::proofs::RowHeads::not_four))]
fn head(row: &Json) -> Option<RowHead>
    ensures { result ≡ head_in (view row.now) }
{
    let (id, kind, place, _) = four(members(row)?)?;
    Some(RowHead {
        id: wide_id(id)?,
        is_document: is_document(kind),
        is_placed: !place.is_null(),
    })
}

// The id that a JSON tree is, whatever the range of its numbers.
#[tactic(auto, using(crate::proofs::RowHeads::not_two))]
fn wide_id(json: &Json) -> Option<WideId>
    ensures { result ≡ wide_in (view json.now) }
{
    let (client, counter) = two(members(json)?)?;
    Some(WideId {
        client: integer(client)?,
        counter: integer(counter)?,
    })
}

// The whole number that a JSON tree is.
fn integer(json: &Json) -> Option<i128>
    ensures { result ≡ integer_in (view json.now) }
{
    match json {
        Json::Number(n) => n.as_i128(),
        _ => None,
    }
}

// Checks whether a JSON tree is the word of a document.
fn is_document(json: &Json) -> bool
    ensures { result ≡ is_document (view json.now) }
{
    match json {
        Json::String(text) => text.as_str() == "document",
        _ => false,
    }
}
