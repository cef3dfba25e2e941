// A client at a seat that hears what others publish.
ghost use Rattle.std.specs.Prelude.{◌≡◌, IsSome, List, OnOk};
ghost use Rattle.canvas_model.specs.Local as local;
ghost use Rattle.canvas_threads.specs.Shown.{FollowsRoom};

use crate::error::broken_off;
use crate::hall::Hall;
use crate::seats::hear_at;
use canvas_board::RoomName;
use canvas_client::Client;
use canvas_desk::SubmitError;
use canvas_room::Seat;
use std::alloc::Global;
use std::sync::Wait;

/// Hears what is published at a node's seat, and waits in the hall for more, until no node makes edits.
///
/// The errors are those of `hear_at`, as `broken_off` has them.
pub(crate) fn listen<N: RoomName, D: Drop, W: Wait>(
    alloc: Global,
    rt: &W,
    client: &mut Client,
    seat: &mut Seat<N, D>,
    hall: &Hall,
    node: u64,
) -> Result<(), SubmitError>
    requires { IsSome client.old.id }
    ensures same { OnOk result (client.new.id ≡ client.old.id) }
    ensures follows { OnOk result ((requests : List local.EditRequest) → FollowsRoom N.opening requests seat.old client.old → FollowsRoom N.opening requests seat.new client.new) }
{
    for _ in rt.forever() {
        if !hear_next(alloc, rt, client, seat, hall, node)? {
            return Ok(());
        }
    }
    unreachable!()
}

// Hears what is published at a node's seat. If that is nothing, and a node makes edits, it waits for more. Returns whether one did.
fn hear_next<N: RoomName, D: Drop, W: Wait>(
    alloc: Global,
    rt: &W,
    client: &mut Client,
    seat: &mut Seat<N, D>,
    hall: &Hall,
    node: u64,
) -> Result<bool, SubmitError>
    requires { IsSome client.old.id }
    ensures same { OnOk result (client.new.id ≡ client.old.id) }
    ensures follows { OnOk result ((requests : List local.EditRequest) → FollowsRoom N.opening requests seat.old client.old → FollowsRoom N.opening requests seat.new client.new) }
{
    let version = client.version();
    let listening = hall.listen(node, version);
    // Asked before it hears: if no node makes edits any more, it hears the last of them.
    let is_at_work = hall.is_at_work();
    hear_more(alloc, client, seat)?;
    if is_at_work && client.version() <= version {
        listening.wait(rt);
    }
    Ok(is_at_work)
}

// Hears what is published at a seat.
fn hear_more<N: RoomName, D: Drop>(
    alloc: Global,
    client: &mut Client,
    seat: &mut Seat<N, D>,
) -> Result<(), SubmitError>
    requires { IsSome client.old.id }
    ensures same { client.new.id ≡ client.old.id }
    ensures follows { OnOk result ((requests : List local.EditRequest) → FollowsRoom N.opening requests seat.old client.old → FollowsRoom N.opening requests seat.new client.new) }
{
    match hear_at(alloc, client, seat) {
        Ok(()) => Ok(()),
        Err(error) => Err(broken_off(client, error)),
    }
}
