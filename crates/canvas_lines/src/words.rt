//! The words of a line, and what they spell.
ghost use Rattle.std.specs.Prelude.{IfErr, IfOk};
ghost use Rattle.canvas_model.specs.Words.{IsCut};
ghost use Rattle.serde_json.specs.View.{view};
ghost use Rattle.canvas_lines.specs.Errors.{IsLineError, IsUncut, IsUnspelled};
ghost use Rattle.canvas_lines.specs.Spelling.{SpellsName, SpellsPlace, SpellsPosition, SpellsJson, SpellsValue, SpellsVerb};

use crate::error::LineError;
use canvas_codec::{JsonFault, from_json};
use canvas_doc::{Name, ObjId, Place, Value};
use canvas_model::words::cut;
use canvas_pos::{Pos, PosError};
use canvas_value::NameError;
use serde_json::Value as Json;
use std::alloc::Global;

/// The word before the first blank, and what follows it.
pub fn cut_word(text: &[u8]) -> Result<(&[u8], &[u8]), LineError>
    ensures ok { IfOk result (λ r. IsCut 32 text.now r.0.now r.1.now) }
    ensures err { IfErr result (IsUncut text.now) }
{
    match cut(text, b' ') {
        Some(parts) => Ok(parts),
        None => Err(LineError::Unreadable),
    }
}

/// What a change does to its object.
#[derive(Clone, Copy, Debug, PartialEq, Eq)]
pub enum Verb {
    /// Makes it, at a place.
    Create,
    /// Gives it a property.
    Set,
    /// Takes a property away.
    Clear,
    /// Puts it at another place.
    Move,
    /// Removes it, with all that lies below it.
    Delete,
}

/// The verb that is spelled so.
pub fn read_verb(word: &[u8]) -> Result<Verb, LineError>
    ensures ok { IfOk result (SpellsVerb word.now) }
    ensures err { IfErr result (IsUnspelled (SpellsVerb word.now)) }
{
    match word {
        b"create" => Ok(Verb::Create),
        b"set" => Ok(Verb::Set),
        b"clear" => Ok(Verb::Clear),
        b"move" => Ok(Verb::Move),
        b"delete" => Ok(Verb::Delete),
        _ => Err(LineError::Unreadable),
    }
}

/// The place that is spelled so: the parent's id, a blank, and the rest as the position.
pub fn read_place(alloc: Global, text: &[u8]) -> Result<Place, LineError>
    ensures ok { IfOk result (SpellsPlace text.now) }
    ensures err { IfErr result (IsLineError (SpellsPlace text.now)) }
{
    let (parent, pos) = cut_word(text)?;
    let parent = ObjId::try_from(parent)?;
    let pos = read_position(alloc, pos)?;
    Ok(Place { parent, pos })
}

// The bytes as a position.
fn read_position(alloc: Global, bytes: &[u8]) -> Result<Pos, LineError>
    ensures ok { IfOk result (SpellsPosition bytes.now) }
    ensures err { IfErr result (IsLineError (SpellsPosition bytes.now)) }
{
    match Pos::read(alloc, bytes) {
        Ok(pos) => Ok(pos),
        Err(PosError::Memory) => Err(LineError::Memory),
        Err(_) => Err(LineError::Unreadable),
    }
}

/// The name that is spelled so.
pub fn read_name(alloc: Global, word: &[u8]) -> Result<Name, LineError>
    ensures ok { IfOk result (SpellsName word.now) }
    ensures err { IfErr result (IsLineError (SpellsName word.now)) }
{
    match Name::read(alloc, word) {
        Ok(name) => Ok(name),
        Err(NameError::Memory) => Err(LineError::Memory),
        Err(_) => Err(LineError::Unreadable),
    }
}

/// The value whose JSON the text is, however deep.
pub fn read_value(alloc: Global, text: &[u8]) -> Result<Value, LineError>
    ensures ok { IfOk result (SpellsValue text.now) }
    ensures err { IfErr result (IsLineError (SpellsValue text.now)) }
{
    let json = read_json(alloc, text)?;
    match from_json(alloc, &json) {
        Ok(value) => Ok(value),
        Err(JsonFault::Memory) => Err(LineError::Memory),
        Err(_) => Err(LineError::Unreadable),
    }
}

// The JSON tree whose text it is.
fn read_json(alloc: Global, text: &[u8]) -> Result<Json, LineError>
    ensures ok { IfOk result (λ json. SpellsJson text.now (view json)) }
    ensures err { IfErr result (IsLineError (SpellsJson text.now)) }
{
    match Json::from_slice(alloc, text) {
        Ok(json) => Ok(json),
        Err(error) if error.is_memory() => Err(LineError::Memory),
        Err(_) => Err(LineError::Unreadable),
    }
}
