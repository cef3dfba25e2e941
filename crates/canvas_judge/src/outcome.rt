// What became of requests.
ghost use Rattle.std.specs.Prelude.{◌≡◌, ◌↔◌, IfOk, IsTrue};
ghost use Rattle.canvas_judge.specs.Seen.{seen_outcome};

use canvas_doc::{ObjId, Place};
use canvas_model::Reason;
use std::alloc::{AllocError, Allocator, Global};

/// What became of a request. Contracts see it by `seen_outcome`.
#[derive(Debug)]
pub enum Outcome<A: Allocator = Global> {
    /// A new client got this id.
    Joined(u32),
    /// The object was created at this place.
    Created(Place<A>),
    /// The property was set or cleared.
    WasSet,
    /// The object was moved to this place.
    Moved(Place<A>),
    /// These objects were removed, in id order.
    Removed(Vec<ObjId, A>),
    /// The change was refused.
    Refused {
        /// The first reason against it.
        reason: Reason,
        /// Where the object of a refused Move stands, if it has a place. `None` for any other change.
        stands: Option<Place<A>>,
    },
}

impl<A: Allocator> Drop for Outcome<A> {
    fn drop(self) {
        match self {
            Outcome::Joined(_) => {}
            Outcome::Created(_) => {}
            Outcome::WasSet => {}
            Outcome::Moved(_) => {}
            Outcome::Removed(_) => {}
            Outcome::Refused {
                reason: _,
                stands: _,
            } => {}
        }
    }
}

impl<A: Allocator> Outcome<A> {
    /// The same under another allocator. Errors: out of memory.
    pub fn copy_in<B: Allocator + Copy>(&self, alloc: B) -> Result<Outcome<B>, AllocError>
        ensures { IfOk result (λ copy. seen_outcome copy ≡ seen_outcome self.now) }
    {
        match self {
            Outcome::Joined(client) => Ok(Outcome::Joined(*client)),
            Outcome::Created(place) => Ok(Outcome::Created(place.copy_in(alloc)?)),
            Outcome::WasSet => Ok(Outcome::WasSet),
            Outcome::Moved(place) => Ok(Outcome::Moved(place.copy_in(alloc)?)),
            Outcome::Removed(ids) => {
                let mut copy = Vec::new(alloc);
                copy.extend_from_slice(ids)?;
                Ok(Outcome::Removed(copy))
            }
            Outcome::Refused { reason, stands } => {
                let stands = stands
                    .as_ref()
                    .map(|place| place.copy_in(alloc))
                    .transpose()?;
                Ok(Outcome::Refused {
                    reason: *reason,
                    stands,
                })
            }
        }
    }

    /// Checks whether both say the same.
    pub fn same<B: Allocator>(&self, other: &Outcome<B>) -> bool
        ensures { IsTrue result ↔ (seen_outcome self.now ≡ seen_outcome other.now) }
    {
        match (self, other) {
            (Outcome::Joined(client), Outcome::Joined(other)) => *client == *other,
            (Outcome::Created(place), Outcome::Created(other)) => place.same(other),
            (Outcome::WasSet, Outcome::WasSet) => true,
            (Outcome::Moved(place), Outcome::Moved(other)) => place.same(other),
            (Outcome::Removed(ids), Outcome::Removed(others)) => ids.as_slice()
                == others.as_slice(),
            (
                Outcome::Refused { reason, stands },
                Outcome::Refused {
                    reason: other_reason,
                    stands: other_stands,
                },
            ) => *reason == *other_reason && stand_alike(stands, other_stands),
            _ => false,
        }
    }
}

// Checks whether the two are the same place, or both none.
fn stand_alike<A: Allocator, B: Allocator>(
    place: &Option<Place<A>>,
    other: &Option<Place<B>>,
) -> bool
    ensures { IsTrue result ↔ (place.now ≡ other.now) }
{
    match (place, other) {
        (Some(place), Some(other)) => place.same(other),
        (None, None) => true,
        _ => false,
    }
}
