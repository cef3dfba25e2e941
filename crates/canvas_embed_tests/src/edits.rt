//! Edits of each kind, those that are refused, and how deep objects may stand.
use crate::ids::{ABSENT, FIFTH, FOURTH, FRAME, INNERMOST, PAGE, SHAPE};
use crate::messages::WELCOME;
use crate::shows::{Number, Shown};
use crate::steps::Step;
use canvas_client::{Client, EditError};
use canvas_doc::ObjId;
use canvas_embed::{
    ClearError, CreateError, SetError, ValueError, clear, create, delete, move_to, set,
};
use canvas_value::NameError;
use std::alloc::Global;

/// An edit, and what it must answer.
#[derive(Clone, Copy)]
pub enum Edit {
    /// An object of a kind in a parent, behind one of its children or before them all.
    Create(u32, ObjId, Option<ObjId>, Result<(u64, ObjId), CreateError>),
    /// A property of an object, and the JSON of its value.
    Set(ObjId, &'static str, &'static str, Result<u64, SetError>),
    /// A property of an object that it is to have no more.
    Clear(ObjId, &'static str, Result<u64, ClearError>),
    /// An object that goes to a parent, behind one of its children or before them all.
    MoveTo(ObjId, ObjId, Option<ObjId>, Result<u64, EditError>),
    /// An object that is deleted.
    Delete(ObjId, Result<u64, EditError>),
}

/// Checks whether the client answers this edit as it must.
pub fn does_edit(alloc: Global, client: &mut Client, edit: &Edit) -> bool {
    match *edit {
        Edit::Create(kind, parent, after, wanted) => create(client, kind, parent, after) == wanted,
        Edit::Set(id, name, json, wanted) => {
            set(alloc, client, id, name.as_bytes(), json.as_bytes()) == wanted
        }
        Edit::Clear(id, name, wanted) => clear(alloc, client, id, name.as_bytes()) == wanted,
        Edit::MoveTo(id, parent, after, wanted) => move_to(client, id, parent, after) == wanted,
        Edit::Delete(id, wanted) => delete(client, id) == wanted,
    }
}

/// Objects that are created in a drawing.
pub const CREATIONS: &[Step] = &[
    WELCOME,
    Step::Draw,
    Step::Edit(Edit::Create(1, ObjId::ROOT, None, Ok((4, FOURTH)))),
    Step::Edit(Edit::Create(4, FRAME, Some(SHAPE), Ok((5, FIFTH)))),
    Step::Edit(Edit::Create(0, ObjId::ROOT, None, Err(CreateError::NoKind))),
    Step::Edit(Edit::Create(5, ObjId::ROOT, None, Err(CreateError::NoKind))),
    Step::Edit(Edit::Create(
        2,
        ObjId::ROOT,
        None,
        Err(CreateError::Edit(EditError::BadParent)),
    )),
    Step::Edit(Edit::Create(
        3,
        ABSENT,
        None,
        Err(CreateError::Edit(EditError::ParentNotShown)),
    )),
    Step::Edit(Edit::Create(
        3,
        FRAME,
        Some(PAGE),
        Err(CreateError::Edit(EditError::NotShown)),
    )),
];

/// Properties that are set and cleared in a drawing.
pub const PROPERTIES: &[Step] = &[
    WELCOME,
    Step::Draw,
    Step::Edit(Edit::Set(PAGE, "x", "1", Ok(4))),
    Step::Edit(Edit::Set(PAGE, "", "1", Err(SetError::Name(NameError::Empty)))),
    Step::Edit(Edit::Set(
        PAGE,
        "an_unusually_long_name_of_33_bytes",
        "1",
        Err(SetError::Name(NameError::TooLong)),
    )),
    Step::Edit(Edit::Set(PAGE, "X", "1", Err(SetError::Name(NameError::BadByte)))),
    Step::Edit(Edit::Set(PAGE, "x", "", Err(SetError::Value(ValueError::NotJson)))),
    Step::Edit(Edit::Set(PAGE, "x", "{}", Err(SetError::Value(ValueError::NotAValue)))),
    Step::Edit(Edit::Set(PAGE, "name", "\"a\"", Ok(5))),
    Step::Edit(Edit::Clear(PAGE, "x", Ok(6))),
    Step::Edit(Edit::Clear(PAGE, "!", Err(ClearError::Name(NameError::BadByte)))),
    Step::Edit(Edit::Clear(ABSENT, "x", Err(ClearError::Edit(EditError::NotShown)))),
    Step::Show(Shown::Tree(
        "0:0 document\n  1:1 page O\n    .name \"a\"\n    1:2 frame O\n      1:3 shape O\n",
    )),
];

/// Objects of a drawing that are moved and deleted.
pub const MOVES: &[Step] = &[
    WELCOME,
    Step::Draw,
    Step::Edit(Edit::MoveTo(SHAPE, PAGE, Some(FRAME), Ok(4))),
    Step::Edit(Edit::MoveTo(FRAME, FRAME, None, Err(EditError::OwnDescendant))),
    Step::Edit(Edit::Delete(FRAME, Ok(5))),
    Step::Edit(Edit::Delete(ObjId::ROOT, Err(EditError::IsRoot))),
    Step::Show(Shown::Tree("0:0 document\n  1:1 page O\n    1:3 shape g\n")),
];

/// A page with 99 frames in it, one in another, and one more.
pub const DEPTH: &[Step] = &[
    WELCOME,
    Step::Edit(Edit::Create(1, ObjId::ROOT, None, Ok((1, PAGE)))),
    Step::Nest(99),
    Step::Edit(Edit::Create(
        2,
        INNERMOST,
        None,
        Err(CreateError::Edit(EditError::TooDeep)),
    )),
    Step::Show(Shown::Number(Number::Lines, Some(101))),
];
