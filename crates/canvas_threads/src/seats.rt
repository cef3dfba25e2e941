// What a client does at a seat.
ghost use Rattle.std.specs.Prelude.{◌≡◌, IfErr, IsNone, IsSome, OnOk};
ghost use Rattle.canvas_model.specs.Client.{new_client};
ghost use Rattle.canvas_nodes.specs.GoesOn.{GoesOn};
ghost use Rattle.canvas_board.specs.Marks.{IsLegalHistory};
ghost use Rattle.room_handler.specs.Table.{SeesOn};
ghost use Rattle.canvas_threads.specs.Exchanges.{CatchesUpAt, JoinsAt, KeepsFollowing, MayJoinAt};
ghost use Rattle.canvas_threads.specs.Pushes.{HearsAll, RestsAt};

use crate::pushes::hear_all;
use canvas_board::RoomName;
use canvas_client::{Client, every_told_entry};
use canvas_journal::Keeper;
use canvas_model::{every_log, every_view};
use canvas_nodes::{LinkError, exchange, join};
use canvas_room::{Lock, Seat};
use room_handler::{SeatLink, every_exchange};
use std::alloc::Global;
use std::sync::Wait;

/// Joins at a seat, for a new client: it follows then what the seat has seen, as one that has made no edit.
///
/// The errors are those of `canvas_nodes::join`: Refused where the room refuses the Join, and Memory if memory runs out. The client
/// is then new still, or it follows: only if memory runs out after it was given its id.
pub fn join_at<K: Keeper + Drop, N: RoomName, R: Wait + Drop, W: Wait + Drop>(
    client: &mut Client,
    link: &mut SeatLink<N, Lock<K, N, R>, W>,
) -> Result<(), LinkError>
    requires { client.old ≡ new_client }
    ensures joins { OnOk result (JoinsAt N.opening link.old client.new link.new) }
    ensures breaks { IfErr result (λ _. MayJoinAt N.opening link.old client.new link.new) }
    ensures legal { OnOk result (IsLegalHistory N.opening link.new) }
    ensures goes_on { GoesOn client.old client.new }
    ensures id { OnOk result (IsSome client.new.id) }
{
    join(client, link)
}

/// An exchange at a seat: all edits that wait are sent, in their order, and then the client asks until it has all that the seat has seen.
///
/// Where the client followed what the seat had seen, and no other edit took a number of one of its edits, it follows what the seat has
/// seen since: it shows the document at its version with what waits laid over it, and each edit that it knows to be judged stands there
/// once. This holds of an exchange that breaks off too. After one that doesn't, where nobody else made an edit under its id, nothing
/// waits, and the client shows the document of all that the seat has seen; so clients whose seats have seen equal histories show equal
/// documents.
///
/// The errors are those of `canvas_nodes::exchange`: Refused where the room refuses an edit or the client, and Memory if memory runs
/// out.
pub fn exchange_at<K: Keeper + Drop, N: RoomName, R: Wait + Drop, W: Wait + Drop>(
    alloc: Global,
    client: &mut Client,
    link: &mut SeatLink<N, Lock<K, N, R>, W>,
) -> Result<(), LinkError>
    requires { IsSome client.old.id }
    ensures follows { KeepsFollowing N.opening client.old link.old client.new link.new }
    ensures up_to_date { OnOk result (CatchesUpAt N.opening client.old link.old client.new link.new) }
    ensures goes_on { GoesOn client.old client.new }
    ensures sees { SeesOn N.opening link.old link.new }
{
    every_log();
    every_view();
    every_told_entry();
    every_exchange::<N>();
    exchange(alloc, client, link)
}

/// Hears at a seat what is published after the client's version, as a client that is pushed it: push after push, each the answer to an Ask
/// that the client might have sent, without its Idle. It ends once nothing is published after its version, or a push doesn't raise that.
/// Never blocks.
///
/// A client that followed what the seat had seen, if no other edit took a number of one of its edits, follows what the seat has seen
/// since, as after `exchange_at`. This is so if it breaks off too. If it doesn't, no edit waits and no other client made an edit under
/// its id, the client shows the document of all that the seat has seen.
///
/// Errors: out of memory; Refused, for the reason Stranger, if the client hasn't joined in this room.
pub fn hear_at<N: RoomName, D: Drop>(
    alloc: Global,
    client: &mut Client,
    seat: &mut Seat<N, D>,
) -> Result<(), LinkError>
    requires { IsSome client.old.id }
    ensures hears { OnOk result (HearsAll N.opening client.old seat.old client.new seat.new) }
    ensures follows { KeepsFollowing N.opening client.old seat.old client.new seat.new }
    ensures rests { OnOk result (RestsAt N.opening client.old seat.old client.new seat.new) }
    ensures goes_on { GoesOn client.old client.new }
    ensures sees { SeesOn N.opening seat.old seat.new }
{
    every_log();
    every_view();
    every_told_entry();
    hear_all(alloc, client, seat)
}
