// Edits that were saved beside a client, made again.
ghost use Rattle.std.specs.Prelude.{◌≡◌, ◌+◌, IfNone, IfOk, IfSome, OnErr, false, true};
ghost use Rattle.canvas_model.specs.Client.{last_number};
ghost use Rattle.canvas_model.specs.Local.{edited};
ghost use Rattle.canvas_client.specs.Asked.{StandsStill};
ghost use Rattle.canvas_client.specs.Placed.{MayAdd};

use crate::Client;
use canvas_doc::{Change, ChangeVariant, ObjId};
use std::alloc::{AllocError, Allocator};

impl<A: Allocator + Copy> Client<A> {
    /// Makes this change its next edit, if it may be that, and returns the edit's number. Returns `None` if it may not be that: the client has no
    /// id, all numbers are used, or an object is created that hasn't the client's id and its next counter; then nothing has changed. So a
    /// client that is loaded gets the edits again that were made since it was saved, whatever it shows. Errors: out of memory, and
    /// nothing has changed.
    pub fn resume(&mut self, change: Change<A>) -> Result<Option<u64>, AllocError>
        ensures may { IfOk result (λ made. IfSome made (λ n. MayAdd self.old change)) }
        ensures some { IfOk result (λ made. IfSome made (λ n. self.new ≡ edited self.old change)) }
        ensures number { IfOk result (λ made. IfSome made (λ n. n ≡ last_number self.old + 1)) }
        ensures stands { IfOk result (λ made. IfSome made (λ n. StandsStill self.old self.new)) }
        ensures none { IfOk result (λ made. IfNone made (MayAdd self.old change → ⊥)) }
        ensures unchanged { IfOk result (λ made. IfNone made (self.new ≡ self.old)) }
        ensures err { OnErr result (self.new ≡ self.old) }
    {
        if !self.may_be_next(&change) {
            return Ok(None);
        }
        let number = self.add_edit(change)?;
        Ok(Some(number))
    }

    // Checks whether the change may be the next edit.
    fn may_be_next(&self, change: &Change<A>) -> bool
        ensures yes { result ≡ true → MayAdd self.now change.now }
        ensures no { result ≡ false → MayAdd self.now change.now → ⊥ }
    {
        let Some(client) = self.id() else {
            return false;
        };
        if self.is_full() {
            return false;
        }
        match change.variant() {
            ChangeVariant::Create { id, .. } => self.is_next_id(client, *id),
            _ => true,
        }
    }

    // Checks whether an object has the client's id and the next counter.
    fn is_next_id(&self, client: u32, id: ObjId) -> bool
        ensures yes { result ≡ true → (id.client ≡ client) × (id.counter ≡ self.now.counter + 1) }
        ensures no { result ≡ false → (id.client ≡ client) × (id.counter ≡ self.now.counter + 1) → ⊥ }
    {
        if id.client != client {
            return false;
        }
        match self.next_counter() {
            Some(counter) => id.counter == counter,
            None => false,
        }
    }
}
