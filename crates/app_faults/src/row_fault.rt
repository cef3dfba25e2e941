// Why a row of an import isn't taken, and the sentence for it.
use std::fmt;

/// Why a line of an import isn't taken: the first reason that holds, in this order. Up to `TooDeepValue` it is looked for in each line by
/// itself and in the id of the row before, and the first of these lines counts; then, once all lines are rows, in the whole document.
#[derive(Clone, Copy, Debug, PartialEq, Eq)]
pub enum RowFault {
    /// It is no JSON array of four members.
    NotARow,
    /// Its first member isn't two whole numbers from 0 to 4294967295, or the first of these is 0, and it isn't the root's id.
    Id,
    /// It is the first row, and not the root's, or a later one, and the root's.
    Root,
    /// Its id isn't above that of the row before.
    Order,
    /// Its second member is no kind.
    Kind,
    /// Its place is no place, or `null` though it isn't the root's; its properties aren't names with values, in the order of the names; or it is
    /// the root's, and no document without a place.
    Parts,
    /// A whole number in its place or its values is out of its range.
    Range,
    /// A value has lists more than 16 deep.
    TooDeepValue,
    /// The client of its id is too great for this number of rows (`document_of`).
    Client {
        /// The greatest that it may be.
        most: u32,
    },
    /// There is no row of its parent.
    NoParent,
    /// An object of its kind must not be a child of one of its parent's.
    ParentKind,
    /// Another child of its parent has its position.
    Position,
    /// It is more than 100 below the root.
    TooDeep,
    /// Its parents lead in a circle, and never to the root.
    Circle,
}

impl fmt::Display for RowFault {
    ghost use Rattle.std.specs.Prelude.{Some};
    ghost use Rattle.app_faults.specs.Rows.{row_sentence};

    ghost output = { λ fault. Some (row_sentence fault) };

    fn fmt<W: fmt::Write>(&self, f: &mut fmt::Formatter<W>) -> fmt::Result {
        match *self {
            RowFault::NotARow => write!(
                f,
                "no JSON array of an id, a kind, a place and properties"
            ),
            RowFault::Id => write!(
                f,
                "its id isn't two whole numbers from 0 to 4294967295, the first at least 1"
            ),
            RowFault::Root => write!(f, "the root [0,0] has to be the first row, and no other"),
            RowFault::Order => write!(f, "its id isn't above that of the row before"),
            RowFault::Kind => write!(f, "its kind isn't document, page, frame, shape or text"),
            RowFault::Parts => write!(
                f,
                "its place isn't [parent,position], null for the root alone, or its properties aren't [name,value], by name"
            ),
            RowFault::Range => write!(f, "a number is out of its range"),
            RowFault::TooDeepValue => write!(f, "a value has lists more than 16 deep"),
            RowFault::Client { most } => write!(
                f,
                "the client of its id is above {most}, the most for this number of rows"
            ),
            RowFault::NoParent => write!(f, "there is no row of its parent"),
            RowFault::ParentKind => write!(f, "its kind may not stand under its parent's"),
            RowFault::Position => write!(f, "another child of its parent has its position"),
            RowFault::TooDeep => write!(f, "it stands more than 100 below the root"),
            RowFault::Circle => write!(f, "its parents lead in a circle, and not to the root"),
        }
    }
}
