// The words of an edit, and what they spell.
ghost use Rattle.std.specs.Prelude.{IfErr, IfOk};
ghost use Rattle.canvas_lines.specs.Errors.{IsLineError};
ghost use Rattle.canvas_edit_lines.specs.Words.{SpellsChildBefore, SpellsId, SpellsKind};

use canvas_doc::{Kind, ObjId};
use canvas_lines::LineError;

// The object id that is spelled so.
pub(crate) fn read_id(word: &[u8]) -> Result<ObjId, LineError>
    ensures ok { IfOk result (SpellsId word.now) }
    ensures err { IfErr result (IsLineError (SpellsId word.now)) }
{
    match ObjId::try_from(word) {
        Ok(id) => Ok(id),
        Err(_) => Err(LineError::Unreadable),
    }
}

// The kind that is spelled so.
pub(crate) fn read_kind(word: &[u8]) -> Result<Kind, LineError>
    ensures ok { IfOk result (SpellsKind word.now) }
    ensures err { IfErr result (IsLineError (SpellsKind word.now)) }
{
    match Kind::try_from(word) {
        Ok(kind) => Ok(kind),
        Err(_) => Err(LineError::Unreadable),
    }
}

// The id of the child that comes before, or none for `-`.
pub(crate) fn read_after(word: &[u8]) -> Result<Option<ObjId>, LineError>
    ensures ok { IfOk result (SpellsChildBefore word.now) }
    ensures err { IfErr result (IsLineError (SpellsChildBefore word.now)) }
{
    if word == b"-".as_slice() {
        return Ok(None);
    }
    let id = read_id(word)?;
    Ok(Some(id))
}
