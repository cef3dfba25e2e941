//! Exchanges of a client over a link to a seat.
ghost use Rattle.std.specs.Prelude.{◌≡◌};

use canvas_board::RoomName;
use canvas_client::Client;
use canvas_doc::{Kind, ObjId};
use canvas_journal::Keeper;
use canvas_judge::{Message, NoReason};
use canvas_nodes::LinkError;
use canvas_room::{BlankRoom, Lock, Room};
use canvas_threads::{exchange_at, join_at};
use room_handler::SeatLink;
use std::alloc::Global;
use std::marker::Brand;
use std::sync::Wait;
use std::test::Fail;
use test_rooms::{Bench, SeatOf, room_in_memory};

// A link to a seat of a room.
type LinkOf<K, N, Q, W> = SeatLink<N, Lock<K, N, Q>, W>;

// A client that has joined.
fn joined<K: Keeper + Drop, N: RoomName, Q: Wait + Drop, W: Wait + Drop>(
    alloc: Global,
    link: &mut LinkOf<K, N, Q, W>,
) -> Result<Client, Fail> {
    let mut client = Client::new(alloc)?;
    join_at(&mut client, link)?;
    Ok(client)
}

// Makes two edits, and exchanges.
fn edit<K: Keeper + Drop, N: RoomName, Q: Wait + Drop, W: Wait + Drop>(
    alloc: Global,
    client: &mut Client,
    link: &mut LinkOf<K, N, Q, W>,
) -> Result<(), Fail> {
    client.create(Kind::Page, ObjId::ROOT, None)?;
    client.delete(ObjId {
        client: 1,
        counter: 1,
    })?;
    if let Some(_) = client.id() {
        exchange_at(alloc, client, link)?;
    }
    Ok(())
}

// The version of a client that has joined and done so, and how many of its edits wait.
fn versions<K: Keeper + Drop, N: RoomName, Q: Wait + Drop, W: Wait + Drop>(
    alloc: Global,
    link: &mut LinkOf<K, N, Q, W>,
) -> Result<(u64, u64), Fail> {
    let mut client = joined(alloc, link)?;
    edit(alloc, &mut client, link)?;
    Ok((client.version(), client.unacknowledged()))
}

// What is refused to a client of a room that has seen nothing of it.
fn refused<K: Keeper + Drop, N: RoomName, Q: Wait + Drop, W: Wait + Drop>(
    alloc: Global,
    link: &mut LinkOf<K, N, Q, W>,
) -> Result<Option<LinkError>, Fail> {
    let mut client = Client::new(alloc)?;
    client.receive(&Message::<Global>::Welcome(7))?;
    match client.id() {
        Some(_) => Ok(exchange_at(alloc, &mut client, link).err()),
        None => Ok(None),
    }
}

// Checks whether after an exchange nothing waits, and the client is at version 3; and whether a stranger is refused.
fn exchanges_over<K: Keeper + Drop, N: RoomName, Q: Wait + Drop, W: Wait + Drop>(
    alloc: Global,
    link: &mut LinkOf<K, N, Q, W>,
) -> Result<bool, Fail> {
    let versions = versions(alloc, link)?;
    let stranger = refused(alloc, link)?;
    Ok(versions == (3, 0) && stranger == Some(LinkError::Refused(NoReason::Stranger)))
}

// The same over a link to the last of these seats.
fn exchanges_by<K: Keeper + Drop, N: RoomName, Q: Wait + Drop, W: Wait + Copy + Drop>(
    rt: W,
    alloc: Global,
    seats: &mut Vec<SeatOf<K, N, Q>>,
) -> Result<bool, Fail> {
    let Some(seat) = seats.pop() else {
        return Ok(false);
    };
    let mut link = SeatLink::new(alloc, rt, seat);
    exchanges_over(alloc, &mut link)
}

// The same, and whether the room is at the client's version.
fn exchanges_at<K: Keeper + Drop, N: RoomName, Q: Wait + Drop, W: Wait + Copy + Drop>(
    rt: W,
    alloc: Global,
    room: &Room<K, N, Q>,
    seats: &mut Vec<SeatOf<K, N, Q>>,
) -> Result<bool, Fail> {
    Ok(exchanges_by(rt, alloc, seats)? && room.desk(&rt).version() == 3)
}

// The same in a room that is opened for this.
fn exchanges_in<N: RoomName, K: Keeper + Drop, R: Wait + Copy + Drop>(
    rt: R,
    alloc: Global,
    blank: BlankRoom<K>,
) -> Result<bool, Fail>
    requires book { blank.book ≡ N.book }
    requires opening { blank.opening ≡ N.opening }
{
    let (room, mut seats) = blank.open::<N, R>(rt)?;
    exchanges_at(rt, alloc, &room, &mut seats)
}

// The same in a room in memory.
fn exchanges<R: Wait + Copy + Drop>(rt: R, alloc: Global) -> Result<bool, Fail> {
    let blank = room_in_memory(alloc, Bench::of(1))?;
    exchanges_in::<Brand, _, _>(rt, alloc, blank)
}

#[test]
fn over_a_seat(rt: HostRuntime) -> Result<(), Fail> {
    assert!(rt; exchanges(rt, rt.alloc())?);
    Ok(())
}
