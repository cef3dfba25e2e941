//! The parts of JSON that every message is read from.
//!
//! A reader answers what it read, and whether each whole number in it was in range, where 0 stands
//! for one that wasn't. So a JSON tree is read once, and a caller still can tell a JSON tree of another shape
//! from one with a number out of range.
ghost use Rattle.std.specs.Prelude.{◌≡◌, option_map};
ghost use Rattle.serde_json.specs.View.{view, items_view};
ghost use Rattle.canvas_codec.specs.Parts.{whole_in, head_word, end_in};
ghost use Rattle.canvas_codec.specs.Laws.{ArraysAreForms, ChoicesAreForms, EachReadOutOfRange, EachReadStands, EachUnreadHasNoShape, EndIsForm, MaybesAreForms, MembersAreForms, OneWordIsForm, OthersAreForms, RestsAreForms, TextsAreForms, WholesAreForms, WordedAreForms, WordsAreForms};

use serde_json::Value as Json;

/// A whole number of 64 bits, and whether it is one from `low` to `high`; none for any other JSON tree.
pub fn whole(json: &Json, low: u64, high: u64) -> Option<(u64, bool)>
    ensures { result ≡ whole_in low high (view json.now) }
{
    let Json::Number(n) = json else {
        return None;
    };
    match n.as_u64() {
        Some(n) => if low <= n && n <= high {
            Some((n, true))
        } else {
            Some((0, false))
        },
        None => if n.is_i64() { Some((0, false)) } else { None },
    }
}

/// The word that an array begins with, and its other members; none where it begins with anything
/// else.
pub fn split_word(items: &[Json]) -> Option<(&str, &[Json])>
    ensures { option_map (λ r. (r.0.now, items_view r.1.now)) result
        ≡ head_word (items_view items.now) }
{
    let (head, rest) = items.split_first()?;
    let word = head.as_str()?;
    Some((word, rest))
}

/// Nothing, where no more members follow; none where some do.
#[tactic(auto, using(crate::proofs::Ended::not_ended))]
pub fn ended(items: &[Json]) -> Option<((), bool)>
    ensures { result ≡ end_in (items_view items.now) }
{
    if items.is_empty() {
        Some(((), true))
    } else {
        None
    }
}

/// What is read of a JSON tree says exactly what the JSON tree is, for every form. It does nothing when it
/// runs: call it where a proof needs the laws.
pub fn every_form<X>()
    ensures read { EachReadStands X }
    ensures out_of_range { EachReadOutOfRange X }
    ensures unread { EachUnreadHasNoShape X }
{}

/// The parts are forms, and so is what is put together from forms. It does nothing when it runs:
/// call it where a proof needs the laws.
pub fn every_part<D, X, Y>()
    ensures whole { WholesAreForms }
    ensures text { TextsAreForms }
    ensures word { WordsAreForms }
    ensures other { OthersAreForms D X Y }
    ensures maybe { MaybesAreForms X }
    ensures end { EndIsForm }
    ensures member { MembersAreForms X Y }
    ensures rest { RestsAreForms X }
    ensures array { ArraysAreForms X }
    ensures worded { WordedAreForms X }
    ensures one_word { OneWordIsForm X }
    ensures choice { ChoicesAreForms X Y }
{}
