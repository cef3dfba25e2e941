// What a client answers.

/// What a client answers a message.
#[derive(Clone, Copy, Debug, PartialEq, Eq)]
pub enum Received {
    /// It took the message.
    Took = 1,
    /// It has this version already, or it has an id already. Nothing has changed.
    Old = 2,
    /// The entry of a version before this one hasn't come yet. Nothing has changed.
    Ahead = 3,
    /// The message isn't one that this client takes as it is now. Nothing has changed.
    NotForMe = 4,
}
