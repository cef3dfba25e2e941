// What a connection does between its turns.

/// Why a connection goes on.
#[derive(Clone, Copy, Debug, PartialEq, Eq)]
pub enum Woken {
    /// The peer may have sent more, or may take more, or something may be published.
    Goes,
    /// It is time to see whether the peer is still there.
    Pings,
    /// It has nothing to do for now.
    Rests,
    /// It has sent nothing for too long.
    Silent,
    /// It takes too little of what waits for it.
    Slow,
}

/// How a connection has ended.
#[derive(Clone, Copy, Debug, PartialEq, Eq)]
pub enum LineEnd {
    /// The peer has sent a closing frame.
    Left,
    /// A message was too large.
    TooLarge,
    /// The stream failed.
    Failed,
    /// The peer has sent nothing for too long.
    Silent,
    /// It takes too little of what waits for it.
    Slow,
    /// Memory ran out.
    Memory,
    /// The peer broke the protocol, or went without a word.
    Broken,
}

/// Who knows when a connection goes on. Nothing is promised of it: when that is no contract says.
pub trait Waits {
    /// Says what a connection does that has nothing to do now, without waiting for it. So many bytes have left by now, and so many wait.
    fn wait(&mut self, taken: u64, waiting: usize) -> Woken;

    /// Returns whether it is time to tell a client unasked what is published after this version; if it is, the connection goes on once something
    /// is published from now on. It isn't a moment after it was told something, unless something was just said to it.
    fn listens(&mut self, version: u64, has_said: bool) -> bool;

    /// So many messages were told unasked; none, if there are some that can't be told now, and are to be asked for in a moment.
    fn told(&mut self, count: usize);
}
