//! Clients that are saved and loaded, and bytes that are no client.
use crate::edits::Edit;
use crate::ids::{FOURTH, FRAME, SHAPE};
use crate::messages::{Hearing, WELCOME};
use crate::shows::{Number, Shown};
use crate::steps::Step;
use canvas_client::Received;
use canvas_doc::ObjId;
use canvas_embed::{Heard, LoadError, load};
use std::alloc::Global;

// What a client with a drawing is saved as.
const DRAWING: &str =
    "[\"client\",[1,3,0,0],[[\"create\",[1,1],\"page\",[[0,0],\"O\"]],[\"create\",[1,2],\"frame\",[[1,1],\"O\"]],[\"create\",[1,3],\"shape\",[[1,2],\"O\"]]],[[[0,0],\"document\",null,[]],[[1,1],\"page\",[[0,0],\"O\"],[]],[[1,2],\"frame\",[[1,1],\"O\"],[]],[[1,3],\"shape\",[[1,2],\"O\"],[]]]]";

/// A new client is saved, and one with a drawing, which goes on where it ended once it is loaded: with the next counter, the next number, and
/// its own entry.
pub const SAVED: &[Step] = &[
    Step::Show(Shown::Saved("[\"client\",[null,0,0,0],[],[[[0,0],\"document\",null,[]]]]")),
    WELCOME,
    Step::Draw,
    Step::Show(Shown::Saved(DRAWING)),
    Step::Reload,
    Step::Show(Shown::Number(Number::Id, Some(1))),
    Step::Show(Shown::Number(Number::Unacknowledged, Some(3))),
    Step::Show(Shown::Saved(DRAWING)),
    Step::Edit(Edit::Create(3, FRAME, Some(SHAPE), Ok((4, FOURTH)))),
    Step::Hear(Hearing::As(
        "[\"entry\",1,[1,1,[\"create\",[1,1],\"page\",[[0,0],\"O\"]],[\"created\",[[0,0],\"P\"]]]]",
        Ok(Heard::Received(Received::Took)),
    )),
    Step::Show(Shown::Number(Number::Acknowledged, Some(1))),
    Step::Show(Shown::Tree(
        "0:0 document\n  1:1 page P\n    1:2 frame O\n      1:3 shape O\n      1:4 shape g\n",
    )),
];

/// A value of each kind is saved and comes back.
pub const SAVED_VALUES: &[Step] = &[
    WELCOME,
    Step::Edit(Edit::Set(
        ObjId::ROOT,
        "a",
        "[\"list\",-1,true,\"\u{e9}\\n\",[\"rgba\",7]]",
        Ok(1),
    )),
    Step::Reload,
    Step::Show(Shown::Tree("0:0 document\n  .a [\"list\",-1,true,\"\u{e9}\\n\",[\"rgba\",7]]\n")),
];

// Why the text is no client, if it is none.
fn refusal(alloc: Global, text: &str) -> Option<LoadError> {
    load(alloc, text.as_bytes()).err()
}

/// A text, and why it is no client.
pub type Row = (&'static str, LoadError);

/// Texts that are no clients.
pub const NO_CLIENTS: &[Row] = &[
    ("", LoadError::NotJson),
    ("[\"client\"", LoadError::NotJson),
    ("[\"client\"]", LoadError::NotAClient),
    ("[\"idle\"]", LoadError::NotAClient),
    (
        "[\"client\",[null,0,0],[],[[[0,0],\"document\",null,[]]]]",
        LoadError::NotAClient,
    ),
    ("[\"client\",[null,0,0,0],[],[]]", LoadError::NotAClient),
    (
        "[\"client\",[4294967296,0,0,0],[],[[[0,0],\"document\",null,[]]]]",
        LoadError::OutOfRange,
    ),
    (
        "[\"client\",[1,0,0,4611686018427387905],[],[[[0,0],\"document\",null,[]]]]",
        LoadError::OutOfRange,
    ),
    (
        "[\"client\",[1,0,0,0],[[\"set\",[0,0],\"a\",[\"list\",[\"list\",[\"list\",[\"list\",[\"list\",[\"list\",[\"list\",[\"list\",[\"list\",[\"list\",[\"list\",[\"list\",[\"list\",[\"list\",[\"list\",[\"list\",[\"list\"]]]]]]]]]]]]]]]]]]],[[[0,0],\"document\",null,[]]]]",
        LoadError::TooDeep,
    ),
    (
        "[\"client\",[1,1,0,0],[[\"create\",[2,1],\"page\",[[0,0],\"O\"]]],[[[0,0],\"document\",null,[]]]]",
        LoadError::Inconsistent,
    ),
    (
        "[\"client\",[1,1,0,0],[[\"create\",[1,2],\"page\",[[0,0],\"O\"]]],[[[0,0],\"document\",null,[]]]]",
        LoadError::Inconsistent,
    ),
    (
        "[\"client\",[1,1,0,0],[[\"create\",[1,1],\"page\",[[0,0],\"O\"]],[\"create\",[1,1],\"page\",[[0,0],\"P\"]]],[[[0,0],\"document\",null,[]]]]",
        LoadError::Inconsistent,
    ),
    (
        "[\"client\",[null,0,0,0],[[\"delete\",[1,1]]],[[[0,0],\"document\",null,[]]]]",
        LoadError::Inconsistent,
    ),
    (
        "[\"client\",[0,0,0,0],[[\"create\",[0,0],\"page\",[[0,0],\"O\"]]],[[[0,0],\"document\",null,[]]]]",
        LoadError::Inconsistent,
    ),
    (
        "[\"client\",[1,0,0,4611686018427387904],[[\"delete\",[1,1]]],[[[0,0],\"document\",null,[]]]]",
        LoadError::Inconsistent,
    ),
];

/// The first of these rows, counted from 0, that is loaded, or refused for another reason.
pub fn first_wrong_client(alloc: Global, rows: &[Row]) -> Option<usize> {
    for (i, (text, wanted)) in rows.iter().enumerate() {
        if refusal(alloc, *text) != Some(*wanted) {
            return Some(i);
        }
    }
    None
}
