// Counts of changes that only proofs see.
ghost use Rattle.std.specs.Prelude.{◌≡◌, ℕ, ◌+◌};
ghost use Rattle.std.specs.Borrow.{ftrue};

use std::marker::Model;

/// How often something was changed. It takes no bytes, and its calls do nothing when they run.
#[derive(Drop)]
pub struct Changes {
    pub ghost count: { ℕ },
}

impl Model for Changes {
    ghost also_owns = { λ _. ftrue };
}

impl Changes {
    // A count to begin with; which one isn't said.
    pub(crate) fn new() -> Changes {
        Changes {}
    }

    // The count after one change more.
    pub(crate) fn raised(&self) -> Changes
        ensures { result.count ≡ self.now.count + 1 }
    {
        Changes {}
    }
}
