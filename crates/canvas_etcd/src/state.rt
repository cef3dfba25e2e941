// What a shelf over a store may still do.
#[derive(Clone, Copy, Debug, PartialEq, Eq)]
pub(crate) enum EtcdState {
    // Everything: it took the document over, and no call that changes something has failed since.
    Writing,
    // Nothing but list and read: it was opened for reading.
    Reading,
    // Nothing: a call that changes something has failed.
    Failed,
}
