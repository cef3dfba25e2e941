// How changes are read.
ghost use Rattle.std.specs.Prelude.{IfErr, IfOk};
ghost use Rattle.canvas_lines.specs.Errors.{IsIdless, IsLineError};
ghost use Rattle.canvas_lines.specs.Spelling.{SpellsAfter, SpellsChange, SpellsIdFirst};

use crate::error::LineError;
use crate::words::{Verb, cut_word, read_name, read_place, read_value, read_verb};
use canvas_codec::json::every_spelling;
use canvas_doc::{Change, Kind, ObjId};
use std::alloc::Global;

/// The change that the text spells: a verb, a blank, and what that verb wants.
pub fn read_change(alloc: Global, text: &[u8]) -> Result<Change, LineError>
    ensures ok { IfOk result (SpellsChange text.now) }
    ensures err { IfErr result (IsLineError (SpellsChange text.now)) }
{
    let (verb, rest) = cut_word(text)?;
    let verb = read_verb(verb)?;
    read_after(alloc, verb, rest)
}

// The change that is spelled by what follows the verb.
fn read_after(alloc: Global, verb: Verb, rest: &[u8]) -> Result<Change, LineError>
    ensures ok { IfOk result (SpellsAfter verb rest.now) }
    ensures err { IfErr result (IsLineError (SpellsAfter verb rest.now)) }
{
    match verb {
        Verb::Create => read_creation(alloc, rest),
        Verb::Set => read_setting(alloc, rest),
        Verb::Clear => read_clearing(alloc, rest),
        Verb::Move => read_move(alloc, rest),
        Verb::Delete => read_deletion(rest),
    }
}

// A creation: an id, a kind and a place.
fn read_creation(alloc: Global, rest: &[u8]) -> Result<Change, LineError>
    ensures ok { IfOk result (SpellsAfter Verb.Create rest.now) }
    ensures err { IfErr result (IsLineError (SpellsAfter Verb.Create rest.now)) }
{
    let (id, rest) = cut_id(rest)?;
    let (kind, rest) = cut_word(rest)?;
    let kind = Kind::try_from(kind)?;
    let place = read_place(alloc, rest)?;
    Ok(Change::create(id, kind, place))
}

// A property: an id, a name and the JSON of a value, which is the rest of the line.
fn read_setting(alloc: Global, rest: &[u8]) -> Result<Change, LineError>
    ensures ok { IfOk result (SpellsAfter Verb.Set rest.now) }
    ensures err { IfErr result (IsLineError (SpellsAfter Verb.Set rest.now)) }
{
    let (id, rest) = cut_id(rest)?;
    let (name, text) = cut_word(rest)?;
    let name = read_name(alloc, name)?;
    let value = read_value(alloc, text)?;
    match Change::set(id, name, Some(value)) {
        Ok(change) => Ok(change),
        Err(error) => {
            // A text spells one value at most: where it is too deep, none is shallow.
            every_spelling();
            Err(LineError::from(error))
        }
    }
}

// A property taken away: an id and a name.
fn read_clearing(alloc: Global, rest: &[u8]) -> Result<Change, LineError>
    ensures ok { IfOk result (SpellsAfter Verb.Clear rest.now) }
    ensures err { IfErr result (IsLineError (SpellsAfter Verb.Clear rest.now)) }
{
    let (id, rest) = cut_id(rest)?;
    let name = read_name(alloc, rest)?;
    Ok(Change::set(id, name, None)?)
}

// A move: an id and a place.
fn read_move(alloc: Global, rest: &[u8]) -> Result<Change, LineError>
    ensures ok { IfOk result (SpellsAfter Verb.Move rest.now) }
    ensures err { IfErr result (IsLineError (SpellsAfter Verb.Move rest.now)) }
{
    let (id, rest) = cut_id(rest)?;
    let place = read_place(alloc, rest)?;
    Ok(Change::move_to(id, place))
}

// A deletion: an id.
fn read_deletion(rest: &[u8]) -> Result<Change, LineError>
    ensures ok { IfOk result (SpellsAfter Verb.Delete rest.now) }
    ensures err { IfErr result (IsLineError (SpellsAfter Verb.Delete rest.now)) }
{
    let id = ObjId::try_from(rest)?;
    Ok(Change::delete(id))
}

// The id that stands before the first blank, and what follows it.
fn cut_id(rest: &[u8]) -> Result<(ObjId, &[u8]), LineError>
    ensures ok { IfOk result (λ r. SpellsIdFirst rest.now r.0 r.1.now) }
    ensures err { IfErr result (IsIdless rest.now) }
{
    let (id, rest) = cut_word(rest)?;
    let id = ObjId::try_from(id)?;
    Ok((id, rest))
}
