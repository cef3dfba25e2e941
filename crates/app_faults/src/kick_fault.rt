// Why the numbers of the connections that an operator ends aren't taken.

/// Why no server takes the numbers of the connections that an operator ends.
#[derive(Clone, Copy, Debug, PartialEq, Eq)]
pub enum KickFault {
    /// Their file is there already, or the one beside it into which it is written.
    There,
    /// Their file can't be written.
    NotWritten,
    /// No server takes it in time.
    NotTaken,
}
