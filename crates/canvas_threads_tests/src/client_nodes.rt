//! Clients on threads of their own.
ghost use Rattle.std.specs.Prelude.{◌≡◌};

use canvas_board::RoomName;
use canvas_client::{Client, EditRequest};
use canvas_doc::{Kind, ObjId};
use canvas_journal::Keeper;
use canvas_judge::Message;
use canvas_nodes::{Link, LinkError, join};
use canvas_room::{BlankRoom, Lock, Room, Seat};
use canvas_threads::{ClientNode, Command};
use room_handler::SeatLink;
use std::alloc::Global;
use std::marker::Brand;
use std::sync::Wait;
use std::test::Fail;
use std::thread::{Threads, yield_now};
use test_rooms::{Bench, SeatOf, room_in_memory};

// What a client is told.
#[derive(Clone, Copy, PartialEq, Eq)]
enum Word {
    // To make a page.
    Page,
    // To remove the document, which it refuses.
    Refused,
    Exchange,
    Stop,
}

fn command(word: Word) -> Command {
    match word {
        Word::Page => Command::Edit(EditRequest::create(Kind::Page, ObjId::ROOT, None)),
        Word::Refused => Command::Edit(EditRequest::delete(ObjId::ROOT)),
        Word::Exchange => Command::Exchange,
        Word::Stop => Command::Stop,
    }
}

// Tells a client these words. One that was told to stop may have ended before the words after that.
fn tell<W: Wait>(rt: &W, node: &ClientNode, words: &[Word]) -> Result<(), Fail> {
    let mut may_have_ended = false;
    for word in words {
        let is_told = node.send(rt, command(*word)).is_ok();
        if !is_told && !may_have_ended {
            return Err(Fail::from("a client that can't be told"));
        }
        may_have_ended = may_have_ended || *word == Word::Stop;
    }
    Ok(())
}

// Starts a client that has joined over this link.
fn joined<
    L: Link + Send + Drop + 'static,
    R: Threads + Wait + AllocGlobal + Clone + Send + Drop + 'static,
>(rt: &R, mut link: L) -> Result<ClientNode, Fail> {
    let mut client = Client::new(rt.alloc())?;
    join(&mut client, &mut link)?;
    match client.id() {
        Some(_) => Ok(ClientNode::start(rt, client, link)?),
        None => Err(Fail::from("no id")),
    }
}

// Starts a client that has joined at this seat.
fn joined_at<
    K: Keeper + Drop + Send + 'static,
    N: RoomName + Send + Sync + 'static,
    R: Threads + Wait + AllocGlobal + Clone + Send + Sync + Drop + 'static,
>(rt: &R, seat: Seat<N, Lock<K, N, R>>) -> Result<ClientNode, Fail> {
    let own = rt.clone()?;
    joined(rt, SeatLink::new(rt.alloc(), own, seat))
}

// Starts a client that has joined at the last of these seats.
fn joined_last<
    K: Keeper + Drop + Send + 'static,
    N: RoomName + Send + Sync + 'static,
    R: Threads + Wait + AllocGlobal + Clone + Send + Sync + Drop + 'static,
>(rt: &R, seats: &mut Vec<SeatOf<K, N, R>>) -> Result<ClientNode, Fail> {
    match seats.pop() {
        Some(seat) => joined_at(rt, seat),
        None => Err(Fail::from("no seat")),
    }
}

// The version of a client that has joined at the last of these seats and was told these words, and how many of its edits wait.
fn versions_after<
    K: Keeper + Drop + Send + 'static,
    N: RoomName + Send + Sync + 'static,
    R: Threads + Wait + AllocGlobal + Clone + Send + Sync + Drop + 'static,
>(rt: &R, seats: &mut Vec<SeatOf<K, N, R>>, words: &[Word]) -> Result<(u64, u64), Fail> {
    let node = joined_last(rt, seats)?;
    tell(rt, &node, words)?;
    let client = node.join(rt)?;
    Ok((client.version(), client.unacknowledged()))
}

// What a client at the last of these seats that makes a page, exchanges and stops then has, and the version of its room.
fn stopped_by<
    K: Keeper + Drop + Send + 'static,
    N: RoomName + Send + Sync + 'static,
    R: Threads + Wait + AllocGlobal + Clone + Send + Sync + Drop + 'static,
>(
    rt: &R,
    room: &Room<K, N, R>,
    seats: &mut Vec<SeatOf<K, N, R>>,
) -> Result<((u64, u64), u64), Fail> {
    let versions = versions_after(rt, seats, &[Word::Page, Word::Exchange, Word::Stop])?;
    Ok((versions, room.desk(rt).version()))
}

// The same for the seats of a room that is opened for this.
fn stopped_in<
    N: RoomName + Send + Sync + 'static,
    K: Keeper + Drop + Send + 'static,
    R: Threads + Wait + AllocGlobal + Clone + Copy + Send + Sync + Drop + 'static,
>(rt: R, blank: BlankRoom<K>) -> Result<((u64, u64), u64), Fail>
    requires book { blank.book ≡ N.book }
    requires opening { blank.opening ≡ N.opening }
{
    let (room, mut seats) = blank.open::<N, R>(rt)?;
    stopped_by(&rt, &room, &mut seats)
}

// The same for a room in memory.
fn stopped<R: Threads + Wait + AllocGlobal + Clone + Copy + Send + Sync + Drop + 'static>(
    rt: R,
) -> Result<((u64, u64), u64), Fail> {
    let blank = room_in_memory(rt.alloc(), Bench::of(1))?;
    stopped_in::<Brand, _, _>(rt, blank)
}

#[test]
fn edit_exchange_stop(rt: HostRuntime) -> Result<(), Fail> {
    assert_eq!(rt; stopped(rt)?, ((2, 0), 2));
    Ok(())
}

// Checks whether a room comes to this version within a million turns that yield.
fn comes_to<K: Keeper + Drop, N: RoomName, Q: Wait + Drop, W: Wait>(
    rt: &W,
    room: &Room<K, N, Q>,
    version: u64,
) -> bool {
    for _ in 0..1_000_000 {
        if room.desk(rt).version() == version {
            return true;
        }
        yield_now();
    }
    false
}

// Checks whether both of two clients that wait for nothing show the same at this version.
fn agree(one: &Client, two: &Client, version: u64) -> bool {
    let are_there = one.version() == version && two.version() == version;
    are_there && one.unacknowledged() == 0 && one.view().same(two.view())
}

// Checks whether both clients, once they have ended, agree at this version.
fn agree_at_end<R: Threads>(
    rt: &R,
    one: ClientNode,
    two: ClientNode,
    version: u64,
) -> Result<bool, Fail> {
    let one = one.join(rt)?;
    let two = two.join(rt)?;
    Ok(agree(&one, &two, version))
}

// Checks whether two clients have each made a page in a room, and are told to exchange again.
fn have_paged<K: Keeper + Drop, N: RoomName, Q: Wait + Drop, W: Wait>(
    rt: &W,
    room: &Room<K, N, Q>,
    one: &ClientNode,
    two: &ClientNode,
) -> Result<bool, Fail> {
    tell(rt, one, &[Word::Page, Word::Exchange])?;
    tell(rt, two, &[Word::Page, Word::Exchange])?;
    if !comes_to(rt, room, 4) {
        return Ok(false);
    }
    tell(rt, one, &[Word::Exchange])?;
    tell(rt, two, &[Word::Exchange])?;
    Ok(true)
}

// Checks whether two clients at the last of these seats that have each made a page agree, once each exchanges again.
fn agree_by<
    K: Keeper + Drop + Send + 'static,
    N: RoomName + Send + Sync + 'static,
    R: Threads + Wait + AllocGlobal + Clone + Send + Sync + Drop + 'static,
>(rt: &R, room: &Room<K, N, R>, seats: &mut Vec<SeatOf<K, N, R>>) -> Result<bool, Fail> {
    let one = joined_last(rt, seats)?;
    let two = joined_last(rt, seats)?;
    Ok(have_paged(rt, room, &one, &two)? && agree_at_end(rt, one, two, 4)?)
}

// The same for the seats of a room that is opened for this.
fn agree_in<
    N: RoomName + Send + Sync + 'static,
    K: Keeper + Drop + Send + 'static,
    R: Threads + Wait + AllocGlobal + Clone + Copy + Send + Sync + Drop + 'static,
>(rt: R, blank: BlankRoom<K>) -> Result<bool, Fail>
    requires book { blank.book ≡ N.book }
    requires opening { blank.opening ≡ N.opening }
{
    let (room, mut seats) = blank.open::<N, R>(rt)?;
    agree_by(&rt, &room, &mut seats)
}

// The same for a room in memory.
fn two_agree<R: Threads + Wait + AllocGlobal + Clone + Copy + Send + Sync + Drop + 'static>(
    rt: R,
) -> Result<bool, Fail> {
    let blank = room_in_memory(rt.alloc(), Bench::of(2))?;
    agree_in::<Brand, _, _>(rt, blank)
}

#[test]
fn two_clients(rt: HostRuntime) -> Result<(), Fail> {
    assert!(rt; two_agree(rt)?);
    Ok(())
}

// A link whose connection has ended.
#[derive(Drop)]
struct Broken;

impl Link for Broken {
    ghost gives = { λ _ _ _ _. Unit {0} };

    ghost fails = { λ _ _ _ _. Unit {0} };

    fn round(&mut self, _message: Message) -> Result<Vec<Message>, LinkError> {
        Err(LinkError::Ended)
    }
}

// Starts a client of this id over a link that has ended.
fn start_broken<R: Threads + Wait + AllocGlobal + Clone + Send + Drop + 'static>(
    rt: &R,
    id: u32,
) -> Result<ClientNode, Fail> {
    let mut client = Client::new(rt.alloc())?;
    client.receive(&Message::<Global>::Welcome(id))?;
    match client.id() {
        Some(_) => Ok(ClientNode::start(rt, client, Broken)?),
        None => Err(Fail::from("no id")),
    }
}

// The id of client 7 over a link that has ended, and how many of its edits wait, once it was told these words and nobody is left who could
// tell it anything; or the error that its thread ended with.
fn ended_by<R: Threads + Wait + AllocGlobal + Clone + Send + Drop + 'static>(
    rt: &R,
    words: &[Word],
) -> Result<Result<(Option<u32>, u64), LinkError>, Fail> {
    let node = start_broken(rt, 7)?;
    tell(rt, &node, words)?;
    Ok(
        node.join(rt)
            .map(|client| (client.id(), client.unacknowledged())),
    )
}

// What a client is told, and how it ends: by its link, alone, and by a Stop behind an edit that it refuses.
const ENDS: [(&[Word], Result<(Option<u32>, u64), LinkError>); 3] = [
    (&[Word::Page, Word::Exchange], Err(LinkError::Ended)),
    (&[Word::Page], Ok((Some(7), 1))),
    (
        &[Word::Refused, Word::Page, Word::Stop, Word::Exchange],
        Ok((Some(7), 1)),
    ),
];

#[test]
fn ends(rt: HostRuntime) -> Result<(), Fail> {
    for (words, wanted) in ENDS {
        assert_eq!(rt; ended_by(&rt, words)?, wanted);
    }
    Ok(())
}
