// What a shelf in a folder may still do.
#[derive(Clone, Copy, Debug, PartialEq, Eq)]
pub(crate) enum FolderState {
    // Everything: it was opened for writing, and no call that makes or syncs has failed since.
    Writing,
    // Nothing but read: it was opened for reading, without the lock.
    Reading,
    // Neither make nor sync: a call that makes or syncs has failed since it was opened for writing.
    Failed,
}
