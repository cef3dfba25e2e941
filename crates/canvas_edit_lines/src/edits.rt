// How edits are read.
ghost use Rattle.std.specs.Prelude.{IfErr, IfOk};
ghost use Rattle.canvas_lines.specs.Errors.{IsLineError};
ghost use Rattle.canvas_edit_lines.specs.Edits.{SpellsEdit, SpellsEditRest, SpellsProperty, SpellsShallow, SpellsTarget};

use crate::words::{read_after, read_id, read_kind};
use canvas_client::EditRequest;
use canvas_codec::json::every_spelling;
use canvas_doc::{Name, ObjId, Value};
use canvas_lines::LineError;
use canvas_lines::words::{Verb, cut_word, read_name, read_value, read_verb};
use std::alloc::Global;

/// The edit that the text spells: a verb, a blank, and what that verb wants. The errors: `Unreadable`, where it spells none; `Memory`,
/// if memory runs out.
pub fn read_edit(alloc: Global, text: &[u8]) -> Result<EditRequest, LineError>
    ensures ok { IfOk result (SpellsEdit text.now) }
    ensures err { IfErr result (IsLineError (SpellsEdit text.now)) }
{
    let (verb, rest) = cut_word(text)?;
    let verb = read_verb(verb)?;
    read_edit_rest(alloc, verb, rest)
}

// The edit that is spelled by what follows the verb.
fn read_edit_rest(alloc: Global, verb: Verb, rest: &[u8]) -> Result<EditRequest, LineError>
    ensures ok { IfOk result (SpellsEditRest verb rest.now) }
    ensures err { IfErr result (IsLineError (SpellsEditRest verb rest.now)) }
{
    match verb {
        Verb::Create => read_creation(rest),
        Verb::Set => read_setting(alloc, rest),
        Verb::Clear => read_clearing(alloc, rest),
        Verb::Move => read_move(rest),
        Verb::Delete => read_deletion(rest),
    }
}

// A creation: a kind and a target.
fn read_creation(rest: &[u8]) -> Result<EditRequest, LineError>
    ensures ok { IfOk result (SpellsEditRest Verb.Create rest.now) }
    ensures err { IfErr result (IsLineError (SpellsEditRest Verb.Create rest.now)) }
{
    let (kind, target) = cut_word(rest)?;
    let kind = read_kind(kind)?;
    let (parent, after) = read_target(target)?;
    Ok(EditRequest::create(kind, parent, after))
}

// A property: an id, a name and the JSON of a value, which is the rest of the line.
fn read_setting(alloc: Global, rest: &[u8]) -> Result<EditRequest, LineError>
    ensures ok { IfOk result (SpellsEditRest Verb.Set rest.now) }
    ensures err { IfErr result (IsLineError (SpellsEditRest Verb.Set rest.now)) }
{
    let (id, property) = cut_word(rest)?;
    let id = read_id(id)?;
    let (name, value) = read_property(alloc, property)?;
    Ok(EditRequest::set(id, name, value)?)
}

// A property taken away: an id and a name.
fn read_clearing(alloc: Global, rest: &[u8]) -> Result<EditRequest, LineError>
    ensures ok { IfOk result (SpellsEditRest Verb.Clear rest.now) }
    ensures err { IfErr result (IsLineError (SpellsEditRest Verb.Clear rest.now)) }
{
    let (id, name) = cut_word(rest)?;
    let id = read_id(id)?;
    let name = read_name(alloc, name)?;
    Ok(EditRequest::clear(id, name))
}

// A move: an id and a target.
fn read_move(rest: &[u8]) -> Result<EditRequest, LineError>
    ensures ok { IfOk result (SpellsEditRest Verb.Move rest.now) }
    ensures err { IfErr result (IsLineError (SpellsEditRest Verb.Move rest.now)) }
{
    let (id, target) = cut_word(rest)?;
    let id = read_id(id)?;
    let (parent, after) = read_target(target)?;
    Ok(EditRequest::move_to(id, parent, after))
}

// A deletion: an id.
fn read_deletion(rest: &[u8]) -> Result<EditRequest, LineError>
    ensures ok { IfOk result (SpellsEditRest Verb.Delete rest.now) }
    ensures err { IfErr result (IsLineError (SpellsEditRest Verb.Delete rest.now)) }
{
    let id = read_id(rest)?;
    Ok(EditRequest::delete(id))
}

// A target: the parent's id, and what comes before in it.
fn read_target(text: &[u8]) -> Result<(ObjId, Option<ObjId>), LineError>
    ensures ok { IfOk result
        (λ target. SpellsTarget text.now (record { parent = target.0; after = target.1 })) }
    ensures err { IfErr result (IsLineError (SpellsTarget text.now)) }
{
    let (parent, after) = cut_word(text)?;
    let parent = read_id(parent)?;
    let after = read_after(after)?;
    Ok((parent, after))
}

// A property's name and its value.
fn read_property(alloc: Global, text: &[u8]) -> Result<(Name, Value), LineError>
    ensures ok { IfOk result (SpellsProperty text.now) }
    ensures err { IfErr result (IsLineError (SpellsProperty text.now)) }
{
    let (name, json) = cut_word(text)?;
    let name = read_name(alloc, name)?;
    let value = read_shallow(alloc, json)?;
    Ok((name, value))
}

// The value whose JSON the text is, if it isn't too deep.
fn read_shallow(alloc: Global, json: &[u8]) -> Result<Value, LineError>
    ensures ok { IfOk result (SpellsShallow json.now) }
    ensures err { IfErr result (IsLineError (SpellsShallow json.now)) }
{
    let value = read_value(alloc, json)?;
    // A text spells one value at most: where it is too deep, none is shallow.
    every_spelling();
    value.check()?;
    Ok(value)
}
