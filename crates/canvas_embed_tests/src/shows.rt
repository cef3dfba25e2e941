//! What a client shows: texts of its tree, its objects and itself, and numbers. One object, and its children.
use crate::edits::Edit;
use crate::ids::{ABSENT, FRAME, PAGE, SHAPE};
use crate::messages::WELCOME;
use crate::steps::Step;
use canvas_client::Client;
use canvas_doc::ObjId;
use canvas_embed::{
    ask_text, children_text, edit_text, is_in_tree, join_text, object_text, save, tree_text,
};
use std::alloc::{AllocError, Global};

/// A number of a client.
#[derive(Clone, Copy)]
pub enum Number {
    /// Its id, if it has one.
    Id,
    /// The version up to which it has taken the log.
    Version,
    /// How many of its edits the server has taken.
    Acknowledged,
    /// How many of its edits wait.
    Unacknowledged,
    /// How many lines its tree has.
    Lines,
}

/// What a client shows, and what that must be.
#[derive(Clone, Copy)]
pub enum Shown {
    /// The text of its tree.
    Tree(&'static str),
    /// What it is saved as.
    Saved(&'static str),
    /// The text of a Join.
    Join(&'static str),
    /// The text of an Ask, if it has an id.
    Ask(Option<&'static str>),
    /// The text of the edit with this number, if that waits.
    Waiting(u64, Option<&'static str>),
    /// The text of an object, if it is shown.
    Object(ObjId, Option<&'static str>),
    /// The text of an object's children.
    Children(ObjId, &'static str),
    /// Whether an object is in the tree.
    InTree(ObjId, bool),
    /// A number.
    Number(Number, Option<u64>),
}

// Checks whether the bytes are the text.
fn is(made: Result<Vec<u8>, AllocError>, text: &str) -> bool {
    match made {
        Ok(made) => made.as_slice() == text.as_bytes(),
        Err(_) => false,
    }
}

// Checks whether the bytes are the text, or both are none.
fn are_same(made: &Option<Vec<u8>>, text: Option<&str>) -> bool {
    match (made, text) {
        (Some(made), Some(text)) => made.as_slice() == text.as_bytes(),
        (None, None) => true,
        _ => false,
    }
}

// The same where the bytes may not have been made.
fn are(made: Result<Option<Vec<u8>>, AllocError>, text: Option<&str>) -> bool {
    match made {
        Ok(made) => are_same(&made, text),
        Err(_) => false,
    }
}

// How many lines the client's tree has.
fn lines(alloc: Global, client: &Client) -> Option<u64> {
    match tree_text(alloc, client) {
        Ok(text) => Some(text.iter().filter(|byte| **byte == b'\n').count() as u64),
        Err(_) => None,
    }
}

// A number of the client.
fn number_of(alloc: Global, client: &Client, number: Number) -> Option<u64> {
    match number {
        Number::Id => match client.id() {
            Some(id) => Some(id as u64),
            None => None,
        },
        Number::Version => Some(client.version()),
        Number::Acknowledged => Some(client.acknowledged()),
        Number::Unacknowledged => Some(client.unacknowledged()),
        Number::Lines => lines(alloc, client),
    }
}

/// Checks whether the client shows this as it must.
pub fn does_show(alloc: Global, client: &Client, shown: &Shown) -> bool {
    match *shown {
        Shown::Tree(text) => is(tree_text(alloc, client), text),
        Shown::Saved(text) => is(save(alloc, client), text),
        Shown::Join(text) => is(join_text(alloc), text),
        Shown::Ask(text) => are(ask_text(alloc, client), text),
        Shown::Waiting(i, text) => are(edit_text(alloc, client, i), text),
        Shown::Object(id, text) => are(object_text(alloc, client, id), text),
        Shown::Children(id, text) => is(children_text(alloc, client, id), text),
        Shown::InTree(id, wanted) => is_in_tree(client, id) == wanted,
        Shown::Number(kind, wanted) => number_of(alloc, client, kind) == wanted,
    }
}

/// The objects of a drawing, one that is absent, and what is below a deleted object: that is in the view, and not in the tree.
pub const OBJECTS: &[Step] = &[
    WELCOME,
    Step::Draw,
    Step::Show(Shown::Object(ObjId::ROOT, Some("[[0,0],\"document\",null,[]]"))),
    Step::Show(Shown::Children(ObjId::ROOT, "[[1,1]]")),
    Step::Show(Shown::InTree(ObjId::ROOT, true)),
    Step::Show(Shown::Object(FRAME, Some("[[1,2],\"frame\",[[1,1],\"O\"],[]]"))),
    Step::Show(Shown::Children(FRAME, "[[1,3]]")),
    Step::Show(Shown::InTree(FRAME, true)),
    Step::Show(Shown::Object(SHAPE, Some("[[1,3],\"shape\",[[1,2],\"O\"],[]]"))),
    Step::Show(Shown::Children(SHAPE, "[]")),
    Step::Show(Shown::InTree(SHAPE, true)),
    Step::Show(Shown::Object(ABSENT, None)),
    Step::Show(Shown::Children(ABSENT, "[]")),
    Step::Show(Shown::InTree(ABSENT, false)),
    Step::Edit(Edit::Delete(FRAME, Ok(4))),
    Step::Show(Shown::Object(FRAME, None)),
    Step::Show(Shown::Object(SHAPE, Some("[[1,3],\"shape\",[[1,2],\"O\"],[]]"))),
    Step::Show(Shown::Children(FRAME, "[[1,3]]")),
    Step::Show(Shown::InTree(SHAPE, false)),
];
