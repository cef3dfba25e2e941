//! The parts of JSON trees: arrays of a few members, the word at the head, whole numbers of 32 bits.
ghost use Rattle.std.specs.Prelude.{◌≡◌, ◌≢◌, IfOk, IfSome, IfNone, option_map};
ghost use Rattle.serde_json.specs.Data.{array, item, no_items};
ghost use Rattle.serde_json.specs.View.{view, items_view};
ghost use Rattle.canvas_codec.specs.Parts.{whole_in};
ghost use Rattle.canvas_forms.specs.JsonTree.{count, worded, members};

use canvas_codec::parts::{split_word, whole};
use serde_json::Value as Json;
use std::alloc::{AllocError, Global};

/// The array of these members. The error is that memory ran out.
pub fn array<const N: usize>(alloc: Global, items: [Json; N]) -> Result<Json, AllocError>
    ensures { IfOk result (λ j. view j ≡ array (items_view items.entry)) }
{
    Ok(Json::from(Vec::from_array(alloc, items)?))
}

/// The members of an array; none for any other JSON tree.
pub fn members(json: &Json) -> Option<&[Json]>
    ensures { option_map (λ r. items_view r.now) result ≡ members (view json.now) }
{
    match json {
        Json::Array(items) => Some(items.as_slice()),
        _ => None,
    }
}

/// The word that an array begins with, and its other members; none for any other JSON tree.
pub fn worded(json: &Json) -> Option<(&str, &[Json])>
    ensures { option_map (λ r. (r.0.now, items_view r.1.now)) result ≡ worded (view json.now) }
{
    match json {
        Json::Array(items) => split_word(items.as_slice()),
        _ => None,
    }
}

/// The one member, where there is just one; else none.
#[tactic(auto, using(crate::proofs::Members::one_view, crate::proofs::Members::count_view))]
pub fn one(items: &[Json]) -> Option<&Json>
    ensures some { IfSome result (λ r. items_view items.now ≡ item (view r.now) no_items) }
    ensures none { IfNone result (count (items_view items.now) ≢ 1) }
{
    if items.len() != 1 {
        return None;
    }
    Some(&items[0])
}

/// The two members, where there are just two; else none.
#[tactic(auto, using(crate::proofs::Members::two_view, crate::proofs::Members::count_view))]
pub fn two(items: &[Json]) -> Option<(&Json, &Json)>
    ensures some { IfSome result (λ r. items_view items.now ≡ item (view r.0.now) (item (view r.1.now) no_items)) }
    ensures none { IfNone result (count (items_view items.now) ≢ 2) }
{
    if items.len() != 2 {
        return None;
    }
    Some((&items[0], &items[1]))
}

/// The three members, where there are just three; else none.
#[tactic(auto, using(crate::proofs::Members::three_view, crate::proofs::Members::count_view))]
pub fn three(items: &[Json]) -> Option<(&Json, &Json, &Json)>
    ensures some { IfSome result (λ r. items_view items.now
        ≡ item (view r.0.now) (item (view r.1.now) (item (view r.2.now) no_items))) }
    ensures none { IfNone result (count (items_view items.now) ≢ 3) }
{
    if items.len() != 3 {
        return None;
    }
    Some((&items[0], &items[1], &items[2]))
}

/// The four members, where there are just four; else none.
#[tactic(auto, using(crate::proofs::Members::four_view, crate::proofs::Members::count_view))]
pub fn four(items: &[Json]) -> Option<(&Json, &Json, &Json, &Json)>
    ensures some { IfSome result (λ r. items_view items.now
        ≡ item (view r.0.now) (item (view r.1.now) (item (view r.2.now) (item (view r.3.now) no_items)))) }
    ensures none { IfNone result (count (items_view items.now) ≢ 4) }
{
    if items.len() != 4 {
        return None;
    }
    Some((&items[0], &items[1], &items[2], &items[3]))
}

/// A whole number, and whether it is one of 32 bits, where 0 stands for one that isn't; none for any other JSON tree.
pub fn whole32(json: &Json) -> Option<(u32, bool)>
    ensures { result ≡ whole_in 0 4294967295 (view json.now) }
{
    let (n, fits) = whole(json, 0, u32::MAX as u64)?;
    Some((n as u32, fits))
}
