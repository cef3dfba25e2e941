// A client at a seat of its own, which makes edits.
ghost use Rattle.std.specs.Prelude.{◌≡◌, ◌++◌, ◌∷◌, List, [], IfOk, IsSome, OnOk};
ghost use Rattle.canvas_model.specs.Client.{new_client};
ghost use Rattle.canvas_model.specs.Local as local;
ghost use Rattle.canvas_threads.specs.Shown.{FollowsRoom, ShowsTheRoom};

use crate::Gate;
use crate::error::broken_off;
use crate::hall::Hall;
use crate::laws::every_follower;
use crate::seats::{exchange_at, join_at};
use canvas_board::RoomName;
use canvas_client::{Client, EditError, EditRequest};
use canvas_desk::SubmitError;
use canvas_journal::{KeepError, Keeper};
use canvas_room::Lock;
use room_handler::SeatLink;
use std::alloc::Global;
use std::sync::Wait;

/// A client, and its link to a seat of its own.
#[derive(Drop)]
pub(crate) struct SeatNode<N: RoomName, D: Drop, W: Drop> {
    pub(crate) link: SeatLink<N, D, W>,
    pub(crate) client: Client,
}

impl<K: Keeper + Drop, N: RoomName, Q: Wait + Drop, W: Wait + Drop> SeatNode<N, Lock<K, N, Q>, W> {
    /// Joins at a seat, and reads what came before.
    ///
    /// The errors are those of `join_at` and `exchange_at`, as `broken_off` has them.
    pub(crate) fn join(
        alloc: Global,
        link: SeatLink<N, Lock<K, N, Q>, W>,
    ) -> Result<Self, SubmitError>
        ensures { IfOk result (λ node. FollowsRoom N.opening [] node.link node.client) }
    {
        let client = Client::new(alloc)?;
        let mut node = SeatNode { link, client };
        node.ask_id()?;
        node.exchange(alloc)?;
        Ok(node)
    }

    // Asks for an id, for a new client.
    fn ask_id(&mut self) -> Result<(), SubmitError>
        requires { self.old.client ≡ new_client }
        ensures { OnOk result (FollowsRoom N.opening [] self.new.link self.new.client) }
    {
        match join_at(&mut self.client, &mut self.link) {
            Ok(()) => Ok(()),
            Err(error) => Err(broken_off(&self.client, error)),
        }
    }

    /// Sends what waits, and reads what the room has.
    ///
    /// The errors are those of `exchange_at`, as `broken_off` has them.
    pub(crate) fn exchange(&mut self, alloc: Global) -> Result<(), SubmitError>
        requires { IsSome self.old.client.id }
        ensures same { self.new.client.id ≡ self.old.client.id }
        ensures follows { OnOk result ((requests : List local.EditRequest) → FollowsRoom N.opening requests self.old.link self.old.client → FollowsRoom N.opening requests self.new.link self.new.client) }
        ensures shows { OnOk result ((requests : List local.EditRequest) → FollowsRoom N.opening requests self.old.link self.old.client → ShowsTheRoom N.opening requests self.new.client) }
    {
        match exchange_at(alloc, &mut self.client, &mut self.link) {
            Ok(()) => Ok(()),
            Err(error) => Err(broken_off(&self.client, error)),
        }
    }

    /// Makes these edits one after the other. After each it exchanges, between two calls of the gate, and rings in the hall. What the
    /// client refuses is passed over.
    ///
    /// The errors are those of `exchange_at`, as `broken_off` has them, and `NotKept(Memory)` if memory runs out besides.
    pub(crate) fn make_all<G: Gate>(
        &mut self,
        alloc: Global,
        edits: &[EditRequest],
        gate: &G,
        hall: &Hall,
        number: u64,
    ) -> Result<(), SubmitError>
        requires { FollowsRoom N.opening [] self.old.link self.old.client }
        ensures same { OnOk result (self.new.client.id ≡ self.old.client.id) }
        ensures follows { OnOk result (FollowsRoom N.opening edits.now self.new.link self.new.client) }
    {
        let mut calls = 0u64;
        for request in edits {
            if self.make(request)? {
                calls += 1;
                gate.before(number, calls);
                let exchanged = self.exchange(alloc);
                gate.after(number, calls);
                exchanged?;
                hall.ring(self.client.version());
            }
        }
        Ok(())
    }

    // Makes an edit, and tells whether the client made it or refused it. `NotKept(Memory)` if memory runs out.
    fn make(&mut self, request: &EditRequest) -> Result<bool, SubmitError>
        ensures same { OnOk result (self.new.client.id ≡ self.old.client.id) }
        ensures follows { OnOk result ((requests : List local.EditRequest) → FollowsRoom N.opening requests self.old.link self.old.client → FollowsRoom N.opening (requests ++ request.now ∷ []) self.new.link self.new.client) }
    {
        every_follower();
        match self.client.edit(request) {
            Ok(_) => Ok(true),
            Err(error) => {
                pass_over(error)?;
                Ok(false)
            }
        }
    }
}

// That an edit is passed over, since its client refuses it. `NotKept(Memory)` if memory runs out.
fn pass_over(error: EditError) -> Result<(), SubmitError>
    ensures { OnOk result (error ≡ EditError.Memory → ⊥) }
{
    match error {
        EditError::Memory => Err(SubmitError::NotKept(KeepError::Memory)),
        _ => Ok(()),
    }
}
