//! Values as JSON, both ways.
ghost use Rattle.std.specs.Prelude.{◌≡◌, ◌≤◌, true, Some, IfOk, IfErr, string_bytes};
ghost use Rattle.serde_json.specs.Data.{array};
ghost use Rattle.serde_json.specs.View.{view, number_view, items_view};
ghost use Rattle.serde_json.specs.Read.{read as read_text};
ghost use Rattle.canvas_model.specs.Value.{Value as PlainValue, colour, depth, list, max_depth, values_of};
ghost use Rattle.canvas_codec.specs.Codec.{StandsFor, IsCodec};
ghost use Rattle.canvas_codec.specs.Json.{colour_in, integer_in, json as json_tree, read as meant, read_all as all_meant, value_form};
ghost use Rattle.canvas_value.specs.Range.{fits};
ghost use Rattle.canvas_codec.specs.Text.{json_text as text_of};
ghost use Rattle.canvas_codec.specs.Laws.{JsonIsOfOne, TextsSpellOne, NamesPassTest};
ghost use Rattle.canvas_codec.specs.Faults.{RefusesShape, Refuses, IsJsonFault};

use crate::JsonFault;
use crate::parts::{split_word, whole};
use canvas_value::{Value, ValueVariant};
use serde_json::{Number, Value as Json};
use std::alloc::{AllocError, Allocator, Global};

/// The JSON of a value: a number, `true` or `false`, a string, `["rgba",n]` for a colour, and
/// `["list",value,..]` for a list. The JSON tree stands under the global allocator.
pub fn to_json<A: Allocator>(alloc: Global, value: &Value<A>) -> Result<Json, AllocError>
    ensures json_tree { IfOk result (λ j. view j ≡ json_tree value.now) }
    ensures range { fits value.now ≡ true }
{
    write(alloc, value)
}

/// The JSON text of a value, with no space outside its texts. The error is that memory was
/// refused.
///
/// Read as JSON, the text of a value that passes [`Value::check`] gives its JSON tree again.
pub fn json_text<A: Allocator>(alloc: Global, value: &Value<A>) -> Result<String, AllocError>
    ensures text { IfOk result (λ s. string_bytes s ≡ text_of value.now) }
    ensures reads_back { depth value.now ≤ max_depth
        → IfOk result (λ s. read_text (string_bytes s) ≡ Some (json_tree value.now)) }
{
    to_json(alloc, value)?.to_string(alloc)
}

/// The value of which this is the JSON. How deep it nests is left to [`Value::check`].
///
/// `NotAValue` for any other JSON tree, as one with a number that isn't a whole number of 64 bits.
/// `OutOfRange` where the JSON tree is that of a value but for a number past the signed 64 bits, or
/// a colour past 32 bits. `Memory` can be answered in place of each of these.
pub fn from_json<A: Allocator + Copy>(alloc: A, json: &Json) -> Result<Value<A>, JsonFault>
    ensures ok { IfOk result (λ v. json_tree v ≡ view json.now) }
    ensures range { IfOk result (λ v. fits v ≡ true) }
    ensures only { IfOk result (λ v. (w : PlainValue) → json_tree w ≡ view json.now → w ≡ v) }

    // The JSON tree of a value whose numbers are in range fails only if memory runs out.
    ensures only_memory { (w : PlainValue) → StandsFor value_form (view json.now) w
        → IfErr result (λ e. e ≡ JsonFault.Memory) }
    ensures fault { IfErr result (IsJsonFault (view json.now)) }
{
    judge(alloc, json)
}

// The value of which this is the JSON: what was read, if each number in it was in range.
fn judge<A: Allocator + Copy>(alloc: A, json: &Json) -> Result<Value<A>, JsonFault>
    ensures ok { IfOk result (λ v. meant (view json.now) ≡ Some (v, true)) }
    ensures fault { IfErr result (Refuses (meant (view json.now))) }
{
    let (value, fits) = read(alloc, json)?;
    if fits {
        Ok(value)
    } else {
        Err(JsonFault::OutOfRange)
    }
}

/// The value that a JSON tree is read as, and whether each number in it was in range.
///
/// `NotAValue` for a JSON tree that isn't that of a value, whatever its whole numbers; `OutOfRange` is
/// never answered.
#[cycle(read)]
pub fn read<A: Allocator + Copy>(alloc: A, json: &Json) -> Result<(Value<A>, bool), JsonFault>
    ensures ok { IfOk result (λ r. meant (view json.now) ≡ Some r) }
    ensures fault { IfErr result (RefusesShape (meant (view json.now))) }
{
    match json {
        Json::Null => Err(JsonFault::NotAValue),
        Json::Bool(b) => Ok((Value::truth(*b), true)),
        Json::Number(n) => match integer(n) {
            Some((n, fits)) => Ok((Value::number(n), fits)),
            None => Err(JsonFault::NotAValue),
        },
        Json::String(s) => Ok((Value::text(String::from_str(alloc, s.as_str())?), true)),
        Json::Array(items) => read_array(alloc, items.as_slice()),
        Json::Object(_) => Err(JsonFault::NotAValue),
    }
}

// The signed number of 64 bits, and whether it is one: none where it isn't a whole number.
fn integer(n: &Number) -> Option<(i64, bool)>
    ensures { result ≡ integer_in (number_view n.now) }
{
    match n.as_i64() {
        Some(n) => Some((n, true)),
        None => if n.is_u64() { Some((0, false)) } else { None },
    }
}

// The value that an array is read as: a colour or a list, by its first member.
#[cycle(read)]
fn read_array<A: Allocator + Copy>(alloc: A, items: &[Json]) -> Result<(Value<A>, bool), JsonFault>
    ensures ok { IfOk result (λ r. meant (array (items_view items.now)) ≡ Some r) }
    ensures fault { IfErr result (RefusesShape (meant (array (items_view items.now)))) }
{
    let Some((word, rest)) = split_word(items) else {
        return Err(JsonFault::NotAValue);
    };
    if word == "rgba" {
        read_colour(rest)
    } else if word == "list" {
        match read_items(alloc, rest) {
            Ok((items, fit)) => Ok((Value::list(items), fit)),
            Err(e) => Err(e),
        }
    } else {
        Err(JsonFault::NotAValue)
    }
}

// The colour that the members after the word are read as.
fn read_colour<A: Allocator>(items: &[Json]) -> Result<(Value<A>, bool), JsonFault>
    ensures ok { IfOk result (λ r. colour_in (items_view items.now) ≡ Some r) }
    ensures fault { IfErr result (RefusesShape (colour_in (items_view items.now))) }
{
    if items.len() != 1 {
        return Err(JsonFault::NotAValue);
    }
    match whole(&items[0], 0, u32::MAX as u64) {
        Some((c, fits)) => Ok((Value::colour(c as u32), fits)),
        None => Err(JsonFault::NotAValue),
    }
}

// The values that the members after the word are read as.
#[cycle(read)]
fn read_items<A: Allocator + Copy>(
    alloc: A,
    items: &[Json],
) -> Result<(Vec<Value<A>, A>, bool), JsonFault>
    ensures ok { IfOk result
        (λ r. all_meant (items_view items.now) ≡ Some (values_of r.0.items, r.1)) }
    ensures fault { IfErr result (RefusesShape (all_meant (items_view items.now))) }
{
    let mut found = Vec::with_capacity(alloc, items.len())?;
    let mut all_fit = true;
    for item in items {
        let (value, fits) = read(alloc, item)?;
        found.push(value)?;
        all_fit = all_fit & fits;
    }
    Ok((found, all_fit))
}

// The JSON of a value.
#[cycle(write)]
fn write<A: Allocator>(alloc: Global, value: &Value<A>) -> Result<Json, AllocError>
    ensures json_tree { IfOk result (λ j. view j ≡ json_tree value.now) }
    ensures range { fits value.now ≡ true }
{
    match value.variant() {
        ValueVariant::Number(n) => Ok(Json::from(*n)),
        ValueVariant::Truth(b) => Ok(Json::from(*b)),
        ValueVariant::Colour(c) => write_colour(alloc, *c),
        ValueVariant::Text(s) => Json::try_from_str(alloc, s.as_str()),
        ValueVariant::List(members) => write_list(alloc, members),
    }
}

// The JSON of a colour.
fn write_colour(alloc: Global, c: u32) -> Result<Json, AllocError>
    ensures { IfOk result (λ j. view j ≡ json_tree (colour c)) }
{
    let mut items = Vec::with_capacity(alloc, 2)?;
    items.push(Json::try_from_str(alloc, "rgba")?)?;
    items.push(Json::from(c))?;
    Ok(Json::from(items))
}

// The JSON of a list.
#[cycle(write)]
fn write_list<A: Allocator>(alloc: Global, members: &[Value<A>]) -> Result<Json, AllocError>
    ensures { IfOk result (λ j. view j ≡ json_tree (list (values_of members.now))) }
{
    let mut items = Vec::with_capacity(alloc, members.len().saturating_add(1))?;
    items.push(Json::try_from_str(alloc, "list")?)?;
    for member in members {
        items.push(write(alloc, member)?)?;
    }
    Ok(Json::from(items))
}

/// The laws of the JSON of values and names: a JSON tree is that of one value at most, and a text spells
/// one at most; values have a form, and names are the texts of theirs. It does nothing when it
/// runs: call it where a proof needs the laws.
pub fn every_spelling()
    ensures json_tree { JsonIsOfOne }
    ensures text { TextsSpellOne }
    ensures form { IsCodec value_form }
    ensures name { NamesPassTest }
{}
