//! Keepers that tell what was asked of their shelf.
use canvas_journal::Journal;
use canvas_shelf::{Call, MemShelf};

/// A keeper that tells what calls were made of its shelf. What asks it is generic in it, since the type of a room over a journal is large.
pub trait Recorded {
    /// Checks whether a checkpoint was written: the shelf was asked to make segment 2.
    fn has_made_second(&self) -> bool;

    /// How often the shelf was synced.
    fn sync_count(&self) -> usize;
}

impl Recorded for Journal<MemShelf> {
    fn has_made_second(&self) -> bool {
        self.shelf().calls().contains(&Call::Create(2))
    }

    fn sync_count(&self) -> usize {
        self.shelf()
            .calls()
            .iter()
            .filter(|call| matches!(call, Call::Sync(_)))
            .count()
    }
}
