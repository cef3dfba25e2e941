// Why a client refuses an edit of its own.
ghost use Rattle.std.specs.Prelude.{◌≡◌};
ghost use Rattle.std.specs.Option.{option_map};
ghost use Rattle.canvas_client.specs.Asked.{number_of, refusal};
ghost use Rattle.canvas_client.specs.Ends.{end_error_number};
ghost use Rattle.canvas_client.specs.Placed.{as_edit_error, place_number_of, place_refusal};
ghost use Rattle.canvas_client.specs.declared.error.EditError.TheVariants.{Memory};
ghost use Rattle.canvas_client.specs.declared.error.PlaceError.TheVariants as place;
ghost use Rattle.canvas_client.specs.declared.error.EndError.TheVariants as end;

use std::alloc::AllocError;
use thiserror::Error;

/// Why a client refuses an edit: the first that holds, in this order. But memory can be refused before any of them is found.
#[derive(Clone, Copy, Debug, PartialEq, Eq, Error)]
pub enum EditError {
    /// The client has no id yet.
    #[error("the client has no id yet")]
    NotOpen = 1,
    /// The root can't be moved or deleted.
    #[error("the root stays where it is")]
    IsRoot = 7,
    /// The object isn't in the tree that the client shows, or the one to come after is no other child of that parent.
    #[error("the object isn't shown")]
    NotShown = 2,
    /// The parent isn't in the tree that the client shows.
    #[error("the parent isn't shown")]
    ParentNotShown = 3,
    /// The kind may not stand under that of the parent.
    #[error("the object may not stand under this parent")]
    BadParent = 4,
    /// The new parent is the object or lies below it.
    #[error("the parent is the object or lies below it")]
    OwnDescendant = 5,
    /// The new object, or the moved one or one below it, would stand deeper than 100, where the root is at 0. A move under the
    /// parent that the object has is never refused so.
    #[error("the object would stand too deep there")]
    TooDeep = 11,
    /// No position is left at the target.
    #[error("there is no room there")]
    Crowded = 6,
    /// The client has used all its counters, of which 4294967295 is the last.
    #[error("the client can create no more objects")]
    IdsSpent = 8,
    /// The number of the client's last edit is 2^62, which is the last one.
    #[error("the client can make no more edits")]
    Full = 9,
    /// Memory ran out.
    #[error("out of memory")]
    Memory = 10,
}

impl EditError {
    /// The number by which the error is known.
    pub fn number(self) -> u8
        ensures { result ≡ number_of (refusal self) }
    {
        self as u8
    }
}

impl From<AllocError> for EditError {
    ghost from_gives = { λ _ e. e ≡ Memory };

    fn from(_: AllocError) -> EditError {
        EditError::Memory
    }
}

/// Why a client refuses an edit at a place that the caller names: the first that holds, in this order. But memory can be refused before
/// any of them is found. All but `Taken` are those of `EditError`, with their numbers.
#[derive(Clone, Copy, Debug, PartialEq, Eq, Error)]
pub enum PlaceError {
    /// The client has no id yet.
    #[error("the client has no id yet")]
    NotOpen = 1,
    /// The root can't be moved.
    #[error("the root stays where it is")]
    IsRoot = 7,
    /// The object isn't in the tree that the client shows.
    #[error("the object isn't shown")]
    NotShown = 2,
    /// The parent isn't in the tree that the client shows.
    #[error("the parent isn't shown")]
    ParentNotShown = 3,
    /// The kind may not stand under that of the parent.
    #[error("the object may not stand under this parent")]
    BadParent = 4,
    /// The new parent is the object or lies below it.
    #[error("the parent is the object or lies below it")]
    OwnDescendant = 5,
    /// The new object, or the moved one or one below it, would stand deeper than 100, where the root is at 0. A move under the
    /// parent that the object has is never refused so.
    #[error("the object would stand too deep there")]
    TooDeep = 11,
    /// Another child of the parent has the position, in what the client shows.
    #[error("another object has the position")]
    Taken = 12,
    /// The client has used all its counters, of which 4294967295 is the last.
    #[error("the client can create no more objects")]
    IdsSpent = 8,
    /// The number of the client's last edit is 2^62, which is the last one.
    #[error("the client can make no more edits")]
    Full = 9,
    /// Memory ran out.
    #[error("out of memory")]
    Memory = 10,
}

impl PlaceError {
    /// The number by which the error is known.
    pub fn number(self) -> u8
        ensures { result ≡ place_number_of (place_refusal self) }
    {
        self as u8
    }

    // The refusal of the same rank: in the place of `Crowded` there is `Taken`.
    pub(crate) fn of_edit(error: EditError) -> Self
        ensures { option_map as_edit_error (place_refusal result) ≡ refusal error }
    {
        match error {
            EditError::NotOpen => PlaceError::NotOpen,
            EditError::IsRoot => PlaceError::IsRoot,
            EditError::NotShown => PlaceError::NotShown,
            EditError::ParentNotShown => PlaceError::ParentNotShown,
            EditError::BadParent => PlaceError::BadParent,
            EditError::OwnDescendant => PlaceError::OwnDescendant,
            EditError::TooDeep => PlaceError::TooDeep,
            EditError::Crowded => PlaceError::Taken,
            EditError::IdsSpent => PlaceError::IdsSpent,
            EditError::Full => PlaceError::Full,
            EditError::Memory => PlaceError::Memory,
        }
    }
}

impl From<AllocError> for PlaceError {
    ghost from_gives = { λ _ e. e ≡ place.Memory };

    fn from(_: AllocError) -> PlaceError {
        PlaceError::Memory
    }
}

/// Why a client makes no edit at an end of a parent's children: the first that holds, in this order. But memory can be refused before.
#[derive(Clone, Copy, Debug, PartialEq, Eq, Error)]
pub enum EndError {
    /// No position of at most 128 bytes lies at that end.
    #[error("there is no room there")]
    Crowded,
    /// A position lies there, and the client refuses the edit at it.
    #[error("{0}")]
    Edit(PlaceError),
}

impl EndError {
    /// The number by which the error is known: 6, or that of the client's refusal.
    pub fn number(self) -> u8
        ensures { result ≡ end_error_number self }
    {
        match self {
            EndError::Crowded => 6,
            EndError::Edit(error) => error.number(),
        }
    }
}

impl From<AllocError> for EndError {
    ghost from_gives = { λ _ e. e ≡ end.Edit place.Memory };

    fn from(_: AllocError) -> EndError {
        EndError::Edit(PlaceError::Memory)
    }
}
