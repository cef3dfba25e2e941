// What a node does once it has joined.
ghost use Rattle.std.specs.Prelude.{◌≡◌, IfOk};

use canvas_client::EditRequest;
use std::alloc::{AllocError, Global};

/// What a node is to do once its client has joined.
pub trait Plan: Drop {
    ghost use Rattle.std.specs.Prelude.{List, ℕ};
    ghost use Rattle.canvas_model.specs.Local as local;

    /// That these edits are asked of a client of this id.
    ghost asks: { Self → ℕ → List local.EditRequest → Type 0 };

    /// The edits that a client of this id is to make, in their order. Errors: out of memory.
    fn edits(self, alloc: Global, id: u32) -> Result<Vec<EditRequest>, AllocError>
        ensures { IfOk result (λ edits. asks self id edits.items) };
}

/// A list of edits asks the same of each client.
impl Plan for Vec<EditRequest> {
    ghost use Rattle.std.specs.Prelude.{◌≡◌};

    ghost asks = { λ plan id requests. requests ≡ plan.items };

    fn edits(self, _alloc: Global, _id: u32) -> Result<Vec<EditRequest>, AllocError> {
        Ok(self)
    }
}
