// What a shelf became by a call.

/// What a shelf became by a call.
#[derive(Clone, Copy, Debug, PartialEq, Eq)]
pub enum ShelfChange {
    /// A segment was made.
    Created,
    /// A segment got more bytes.
    Appended,
    /// All bytes of a segment are certain.
    Synced,
    /// A segment was taken off the list.
    Retired,
}
