// Names and values as bytes.
ghost use Rattle.std.specs.Prelude.{IfErr, IfOk};
ghost use Rattle.serde_json.specs.View.{view};
ghost use Rattle.canvas_codec.specs.Codec.{StandsFor};
ghost use Rattle.canvas_codec.specs.Json.{value_form};
ghost use Rattle.canvas_wire.specs.Faults.{IsJson};
ghost use Rattle.canvas_embed.specs.Faults.{IsUnjudged, IsUnparsed, IsValueError};
ghost use Rattle.canvas_embed.specs.Values.{IsValueText};

use crate::ValueError;
use canvas_codec::{JsonFault, from_json};
use canvas_doc::Value;
use serde_json::Value as Json;
use std::alloc::Global;

/// The value of which the bytes are the JSON, where it isn't too deep.
pub fn read_value(alloc: Global, bytes: &[u8]) -> Result<Value, ValueError>
    ensures ok { IfOk result (IsValueText bytes.now) }
    ensures err { IfErr result (IsValueError bytes.now) }
{
    let json = parse(alloc, bytes)?;
    let value = judge(alloc, &json)?;
    if value.check().is_err() {
        return Err(ValueError::TooDeep);
    }
    Ok(value)
}

// The value of which this is the JSON tree, however deep.
fn judge(alloc: Global, json: &Json) -> Result<Value, ValueError>
    ensures ok { IfOk result (StandsFor value_form (view json.now)) }
    ensures err { IfErr result (IsUnjudged (view json.now)) }
{
    match from_json(alloc, json) {
        Ok(value) => Ok(value),
        Err(JsonFault::NotAValue) => Err(ValueError::NotAValue),
        Err(JsonFault::OutOfRange) => Err(ValueError::OutOfRange),
        Err(JsonFault::Memory) => Err(ValueError::Memory),
    }
}

// The JSON tree of which the bytes are JSON.
pub(crate) fn parse(alloc: Global, bytes: &[u8]) -> Result<Json, ValueError>
    ensures ok { IfOk result (λ json. IsJson bytes.now (view json)) }
    ensures err { IfErr result (IsUnparsed bytes.now) }
{
    match Json::from_slice(alloc, bytes) {
        Ok(json) => Ok(json),
        Err(error) => if error.is_memory() {
            Err(ValueError::Memory)
        } else {
            Err(ValueError::NotJson)
        },
    }
}
