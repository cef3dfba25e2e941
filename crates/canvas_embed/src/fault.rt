// Why a call of bytes and numbers does nothing.
use canvas_client::{EditError, EndError, PlaceError};
use canvas_pos::PosError;
use canvas_value::NameError;
use canvas_wire::WireError;
use thiserror::Error;

/// Why bytes are the JSON of no value: the first reason that holds, in this order, each looked for over the whole text before the next.
/// But memory can be refused before.
#[derive(Clone, Copy, Debug, PartialEq, Eq, Error)]
pub enum ValueError {
    /// The bytes aren't JSON: not UTF-8, cut short, or nested more than 127 deep.
    #[error("the bytes aren't JSON")]
    NotJson,
    /// The JSON tree isn't that of a value, whatever its whole numbers.
    #[error("the JSON isn't that of a value")]
    NotAValue,
    /// It is that of a value but for a number out of its range.
    #[error("a number is out of range")]
    OutOfRange,
    /// All else fits, and lists nest more than 16 deep.
    #[error("a value has lists more than 16 deep")]
    TooDeep,
    /// Memory ran out.
    #[error("out of memory")]
    Memory,
}

/// Why nothing was created.
#[derive(Clone, Copy, Debug, PartialEq, Eq, Error)]
pub enum CreateError {
    /// The number is that of no kind.
    #[error("a kind is 1 to 4: page, frame, shape or text")]
    NoKind,
    /// The kind is one, and the client refuses the edit.
    #[error("{0}")]
    Edit(EditError),
}

/// Why nothing was created at a place: the first that holds, in this order. But memory can be refused before.
#[derive(Clone, Copy, Debug, PartialEq, Eq, Error)]
pub enum CreateAtError {
    /// The number is that of no kind.
    #[error("a kind is 1 to 4: page, frame, shape or text")]
    NoKind,
    /// The kind is one, and the bytes are no position.
    #[error("{0}")]
    Position(PosError),
    /// Both are what they should be, and the client refuses the edit.
    #[error("{0}")]
    Edit(PlaceError),
}

/// Why nothing was moved to a place: the first that holds, in this order. But memory can be refused before.
#[derive(Clone, Copy, Debug, PartialEq, Eq, Error)]
pub enum MoveAtError {
    /// The bytes are no position.
    #[error("{0}")]
    Position(PosError),
    /// They are one, and the client refuses the edit.
    #[error("{0}")]
    Edit(PlaceError),
}

/// Why nothing was created at an end of a parent's children.
#[derive(Clone, Copy, Debug, PartialEq, Eq, Error)]
pub enum CreateEndError {
    /// The number is that of no kind.
    #[error("a kind is 1 to 4: page, frame, shape or text")]
    NoKind,
    /// The kind is one, and there is no room at that end, or the client refuses the edit.
    #[error("{0}")]
    Edit(EndError),
}

/// Why no property was set: the first that holds, in this order. But memory can be refused before.
#[derive(Clone, Copy, Debug, PartialEq, Eq, Error)]
pub enum SetError {
    /// The bytes are no name.
    #[error("{0}")]
    Name(NameError),
    /// The name is one, and the bytes are the JSON of no value.
    #[error("{0}")]
    Value(ValueError),
    /// Both are what they should be, and the client refuses the edit.
    #[error("{0}")]
    Edit(EditError),
}

/// Why no property was taken away.
#[derive(Clone, Copy, Debug, PartialEq, Eq, Error)]
pub enum ClearError {
    /// The bytes are no name.
    #[error("{0}")]
    Name(NameError),
    /// The name is one, and the client refuses the edit.
    #[error("{0}")]
    Edit(EditError),
}

/// Why bytes are no client: the first that holds, in this order, each looked for over the whole text before the next. But memory can be
/// refused before.
#[derive(Clone, Copy, Debug, PartialEq, Eq, Error)]
pub enum LoadError {
    /// The bytes aren't JSON: not UTF-8, cut short, or nested more than 127 deep.
    #[error("the bytes aren't JSON")]
    NotJson,
    /// The JSON tree isn't that of a saved client, whatever its whole numbers, or its rows don't stand in order.
    #[error("the JSON isn't that of a client")]
    NotAClient,
    /// It is that of a client but for a number out of its range.
    #[error("a number is out of range")]
    OutOfRange,
    /// All else fits, and a value has lists more than 16 deep.
    #[error("a value has lists more than 16 deep")]
    TooDeep,
    /// All fits, but an edit that waits creates the root, an object that isn't the client's own, one above its counter, or one
    /// twice; or edits wait without an id; or the last edit's number is above 2^62.
    #[error("no client waits with these edits")]
    Inconsistent,
    /// Memory ran out.
    #[error("out of memory")]
    Memory,
}

/// Why no edit was made again: the first that holds, in this order. But memory can run out before.
#[derive(Clone, Copy, Debug, PartialEq, Eq, Error)]
pub enum ResumeError {
    /// The bytes are the text of no message, or memory ran out.
    #[error("{0}")]
    Message(WireError),
    /// They are that of a message, and it is no edit.
    #[error("the message is no edit")]
    NotAnEdit,
    /// It is an edit of another client, or this one has no id.
    #[error("the edit is another client's")]
    NotOwn,
    /// It is the client's own, and its number is above the next one.
    #[error("an edit before this one is missing")]
    Gap,
    /// Its number is the next one, and the client can't add the change: it creates an object that hasn't the client's id and its next
    /// counter, or the last number was given before.
    #[error("the client can't make this edit next")]
    NotNext,
}
