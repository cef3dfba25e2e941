//! Edits at places that are named, and at the ends of a parent's children.
use crate::ids::{ABSENT, FIFTH, FOURTH, FRAME, SHAPE};
use crate::messages::WELCOME;
use crate::shows::Shown;
use crate::steps::Step;
use canvas_client::{Client, EndError, PlaceError};
use canvas_doc::ObjId;
use canvas_embed::{
    CreateAtError, CreateEndError, MoveAtError, create_at, create_first, create_last, move_at,
    move_first, move_last,
};
use canvas_pos::PosError;
use std::alloc::Global;

/// An edit at a place, and what it must answer.
#[derive(Clone, Copy)]
pub enum Placed {
    /// An object of a kind in a parent, at a position.
    CreateAt(u32, ObjId, &'static str, Result<(u64, ObjId), CreateAtError>),
    /// An object of a kind before a parent's children.
    CreateFirst(u32, ObjId, Result<(u64, ObjId), CreateEndError>),
    /// An object of a kind behind a parent's children.
    CreateLast(u32, ObjId, Result<(u64, ObjId), CreateEndError>),
    /// An object that goes to a parent, at a position.
    MoveAt(ObjId, ObjId, &'static str, Result<u64, MoveAtError>),
    /// An object that goes before a parent's children.
    MoveFirst(ObjId, ObjId, Result<u64, EndError>),
    /// An object that goes behind a parent's children.
    MoveLast(ObjId, ObjId, Result<u64, EndError>),
}

/// Checks whether the client answers this edit as it must.
pub fn does_place(alloc: Global, client: &mut Client, placed: &Placed) -> bool {
    match *placed {
        Placed::CreateAt(kind, parent, position, wanted) => {
            create_at(alloc, client, kind, parent, position.as_bytes()) == wanted
        }
        Placed::CreateFirst(kind, parent, wanted) => create_first(client, kind, parent) == wanted,
        Placed::CreateLast(kind, parent, wanted) => create_last(client, kind, parent) == wanted,
        Placed::MoveAt(id, parent, position, wanted) => {
            move_at(alloc, client, id, parent, position.as_bytes()) == wanted
        }
        Placed::MoveFirst(id, parent, wanted) => move_first(client, id, parent) == wanted,
        Placed::MoveLast(id, parent, wanted) => move_last(client, id, parent) == wanted,
    }
}

/// Places that are named in a drawing.
pub const PLACES: &[Step] = &[
    WELCOME,
    Step::Draw,
    Step::Place(Placed::CreateAt(3, FRAME, "a", Ok((4, FOURTH)))),
    Step::Place(Placed::CreateAt(0, FRAME, "", Err(CreateAtError::NoKind))),
    Step::Place(Placed::CreateAt(3, FRAME, "", Err(CreateAtError::Position(PosError::Empty)))),
    Step::Place(Placed::CreateAt(
        3,
        FRAME,
        "O ",
        Err(CreateAtError::Position(PosError::TrailingZero)),
    )),
    Step::Place(Placed::CreateAt(
        3,
        FRAME,
        "a\n",
        Err(CreateAtError::Position(PosError::BadByte(1))),
    )),
    Step::Place(Placed::CreateAt(3, FRAME, "O", Err(CreateAtError::Edit(PlaceError::Taken)))),
    Step::Place(Placed::CreateAt(
        3,
        ABSENT,
        "O",
        Err(CreateAtError::Edit(PlaceError::ParentNotShown)),
    )),
    Step::Place(Placed::MoveAt(SHAPE, FRAME, "a", Err(MoveAtError::Edit(PlaceError::Taken)))),
    Step::Place(Placed::MoveAt(SHAPE, FRAME, "b", Ok(5))),
    Step::Place(Placed::MoveAt(
        FOURTH,
        FRAME,
        "b",
        Err(MoveAtError::Edit(PlaceError::Taken)),
    )),
    Step::Place(Placed::MoveAt(FOURTH, FRAME, "~~", Ok(6))),
    Step::Place(Placed::MoveAt(
        FOURTH,
        FRAME,
        "",
        Err(MoveAtError::Position(PosError::Empty)),
    )),
    Step::Place(Placed::MoveAt(
        ObjId::ROOT,
        FRAME,
        "c",
        Err(MoveAtError::Edit(PlaceError::IsRoot)),
    )),
    Step::Show(Shown::Tree(
        "0:0 document\n  1:1 page O\n    1:2 frame O\n      1:3 shape b\n      1:4 shape ~~\n",
    )),
];

/// The ends of the children of a drawing's frame.
pub const ENDS: &[Step] = &[
    WELCOME,
    Step::Draw,
    Step::Place(Placed::CreateLast(3, FRAME, Ok((4, FOURTH)))),
    Step::Place(Placed::CreateFirst(4, FRAME, Ok((5, FIFTH)))),
    Step::Place(Placed::CreateFirst(9, FRAME, Err(CreateEndError::NoKind))),
    Step::Place(Placed::CreateLast(
        2,
        SHAPE,
        Err(CreateEndError::Edit(EndError::Edit(PlaceError::BadParent))),
    )),
    Step::Place(Placed::MoveLast(FIFTH, FRAME, Ok(6))),
    Step::Place(Placed::MoveFirst(FOURTH, FRAME, Ok(7))),
    Step::Place(Placed::MoveLast(FRAME, FRAME, Err(EndError::Edit(PlaceError::OwnDescendant)))),
    Step::Place(Placed::MoveFirst(ABSENT, FRAME, Err(EndError::Edit(PlaceError::NotShown)))),
    Step::Show(Shown::Tree(
        "0:0 document\n  1:1 page O\n    1:2 frame O\n      1:4 shape N~~~\n      1:3 shape O\n      1:5 text O  \"\n",
    )),
];
