// What a client hears that its seat pushes.
ghost use Rattle.std.specs.Prelude.{◌≡◌, IfErr, IfOk, IsSome, OnOk, map};
ghost use Rattle.std.specs.Option.{option_map};
ghost use Rattle.canvas_judge.specs.Seen.{seen_message};
ghost use Rattle.canvas_nodes.specs.GoesOn.{GoesOn};
ghost use Rattle.canvas_nodes.specs.Hears.{BreaksAtNews, BreaksCatching, HearsEach, HearsSome};
ghost use Rattle.canvas_board.specs.Marks.{board};
ghost use Rattle.room_handler.specs.Links.{Grants, RefusesRound};
ghost use Rattle.room_handler.specs.Table.{SeesOn};
ghost use Rattle.canvas_threads.specs.Pushes.{HearsAll, HearsPush, PushesNext, RefusesPush};

use canvas_board::RoomName;
use canvas_client::Client;
use canvas_judge::{Message, NoReason};
use canvas_nodes::LinkError;
use canvas_room::Seat;
use room_handler::{messages_of, push};
use std::alloc::Global;

/// Gives a client these messages, in this order. It keeps following its room if each is a message of some push to it, in whatever order
/// they come, and if some are lost or come again: `every_push`.
///
/// Errors: out of memory. The client has then received the messages before.
pub fn hear(client: &mut Client, messages: &[Message]) -> Result<(), LinkError>
    ensures hears { OnOk result (HearsEach client.old (map seen_message messages.now) client.new) }
    ensures breaks { IfErr result (λ e. HearsSome client.old (map seen_message messages.now) e client.new) }
    ensures goes_on { GoesOn client.old client.new }
{
    for message in messages {
        client.receive(message)?;
    }
    Ok(())
}

/// Gives a client each push of its seat, until there is none, or one doesn't raise the client's version.
///
/// Errors: out of memory; Refused, for the reason Stranger, if the client hasn't joined there. It has then received what came before.
pub(crate) fn hear_all<N: RoomName, D: Drop>(
    alloc: Global,
    client: &mut Client,
    seat: &mut Seat<N, D>,
) -> Result<(), LinkError>
    requires { IsSome client.old.id }
    ensures hears { OnOk result (HearsAll N.opening client.old seat.old client.new seat.new) }
    ensures breaks { IfErr result (λ e. BreaksCatching (Grants N.opening) (RefusesRound N.opening) e client.old seat.old client.new seat.new) }
    ensures goes_on { GoesOn client.old client.new }
{
    'pushes: loop {
        let version = client.version();
        if !hear_push(alloc, client, seat)? {
            return Ok(());
        }
        if client.version() <= version {
            return Ok(());
        }
    }
}

// Gives a client what its seat pushes. Returns whether there was anything.
fn hear_push<N: RoomName, D: Drop>(
    alloc: Global,
    client: &mut Client,
    seat: &mut Seat<N, D>,
) -> Result<bool, LinkError>
    requires { IsSome client.old.id }
    ensures hears { IfOk result (λ any. HearsPush N.opening any client.old seat.old client.new seat.new) }
    ensures breaks { IfErr result (λ e. BreaksAtNews (Grants N.opening) (RefusesRound N.opening) e client.old seat.old client.new seat.new) }
    ensures goes_on { GoesOn client.old client.new }
{
    match next(alloc, client, seat)? {
        Some(told) => {
            hear(client, &told)?;
            Ok(true)
        }
        None => Ok(false),
    }
}

// Returns what a seat pushes to a client from its version on; `None` if nothing is published after that. Never blocks.
fn next<N: RoomName, D: Drop>(
    alloc: Global,
    client: &Client,
    seat: &mut Seat<N, D>,
) -> Result<Option<Vec<Message>>, LinkError>
    requires { IsSome client.now.id }
    ensures pushes { IfOk result (λ told. PushesNext N.opening client.now seat.old (option_map (λ messages. map seen_message messages.items) told) seat.new) }
    ensures refuses { IfErr result (λ e. RefusesPush N.opening client.now seat.old e seat.new) }
{
    let Some(id) = client.id() else {
        unreachable!()
    };
    if published(seat)? <= client.version() {
        return Ok(None);
    }
    match push(alloc, seat, id, client.version())? {
        Some(told) => Ok(Some(messages_of(alloc, told)?)),
        // Something is published after its version, so the client hasn't joined.
        None => Err(LinkError::Refused(NoReason::Stranger)),
    }
}

// Returns how many entries are published, as a seat reads it.
fn published<N: RoomName, D: Drop>(seat: &mut Seat<N, D>) -> Result<u64, LinkError>
    ensures version { IfOk result (λ version. version ≡ (board N.opening seat.new).version) }
    ensures memory { IfErr result (λ e. e ≡ LinkError.Memory) }
    ensures sees { SeesOn N.opening seat.old seat.new }
{
    match seat.version() {
        Ok(version) => Ok(version),
        // A seat keeps its room, so it is never closed.
        Err(_) => Err(LinkError::Memory),
    }
}
