//! Clients that hear what a seat pushes.
use canvas_board::RoomName;
use canvas_client::{Client, EditRequest};
use canvas_doc::{Kind, ObjId};
use canvas_journal::Keeper;
use canvas_judge::{Message, NoReason};
use canvas_nodes::LinkError;
use canvas_room::Room;
use canvas_threads::{hear, hear_at};
use room_handler::{Plain, answer, messages_of, push};
use std::alloc::Global;
use std::sync::Wait;
use std::test::Fail;
use test_rooms::{Bench, RoomTest, SeatOf, told_in_memory};

// Sends a message at a seat, and gives the client the answer.
fn send<K: Keeper + Drop, N: RoomName, Q: Wait + Drop, W: Wait>(
    rt: &W,
    alloc: Global,
    seat: &mut SeatOf<K, N, Q>,
    client: &mut Client,
    message: Message,
) -> Result<(), Fail> {
    let answer = answer(alloc, rt, seat, message, &Plain)?;
    hear(client, &answer)?;
    Ok(())
}

// A client that has joined at a seat.
fn joined<K: Keeper + Drop, N: RoomName, Q: Wait + Drop, W: Wait>(
    rt: &W,
    alloc: Global,
    seat: &mut SeatOf<K, N, Q>,
) -> Result<Client, Fail> {
    let mut client = Client::new(alloc)?;
    send(rt, alloc, seat, &mut client, Client::join_message())?;
    Ok(client)
}

// Has a client make this many pages, and send each without asking for anything.
fn make_pages<K: Keeper + Drop, N: RoomName, Q: Wait + Drop, W: Wait>(
    rt: &W,
    alloc: Global,
    seat: &mut SeatOf<K, N, Q>,
    client: &mut Client,
    pages: u64,
) -> Result<(), Fail> {
    for _ in 0..pages {
        let page: EditRequest = EditRequest::create(Kind::Page, ObjId::ROOT, None);
        client.edit(&page)?;
        let last = client.unacknowledged();
        if last == 0 {
            return Err(Fail::from("no edit waits"));
        }
        let edit = client.message(alloc, last)?;
        send(rt, alloc, seat, client, edit)?;
    }
    Ok(())
}

// Hears what is pushed at a seat.
fn heard_at<K: Keeper + Drop, N: RoomName, Q: Wait + Drop>(
    alloc: Global,
    client: &mut Client,
    seat: &mut SeatOf<K, N, Q>,
) -> Result<Result<(), LinkError>, Fail> {
    match client.id() {
        Some(_) => Ok(hear_at(alloc, client, seat)),
        None => Err(Fail::from("no id")),
    }
}

// Checks whether both clients are at this version, show the same, and wait for nothing.
fn agree(one: &Client, two: &Client, version: u64) -> bool {
    let are_there = one.version() == version && two.version() == version;
    let waiting = one.unacknowledged().max(two.unacknowledged());
    are_there && waiting == 0 && one.view().same(two.view())
}

// Pages that one of two clients makes, and whether a checkpoint then lets go of all entries.
#[derive(Clone, Copy)]
struct Pages {
    count: u64,
    are_passed: bool,
}

impl<K: Keeper + Drop> RoomTest<K> for Pages {
    type Told = bool;

    // Checks whether both clients agree, once each has heard what is pushed at its seat.
    fn ask<N: RoomName, Q: Wait + Drop, W: Wait>(
        &self,
        rt: &W,
        alloc: Global,
        _room: &Room<K, N, Q>,
        seats: &mut [SeatOf<K, N, Q>],
    ) -> Result<bool, Fail> {
        let [one, two] = seats else {
            return Err(Fail::from("not two seats"));
        };
        let mut reader = joined(rt, alloc, one)?;
        let mut writer = joined(rt, alloc, two)?;
        make_pages(rt, alloc, two, &mut writer, self.count)?;
        if self.are_passed {
            two.tidy(rt, 0)?;
        }
        heard_at(alloc, &mut writer, two)??;
        heard_at(alloc, &mut reader, one)??;
        Ok(agree(&reader, &writer, self.count.saturating_add(2)))
    }
}

// Nothing but the Joins, what is pushed at once, what takes three pushes, and what is pushed as a copy.
const PAGES: [Pages; 4] = [
    Pages {
        count: 0,
        are_passed: false,
    },
    Pages {
        count: 5,
        are_passed: false,
    },
    Pages {
        count: 130,
        are_passed: false,
    },
    Pages {
        count: 5,
        are_passed: true,
    },
];

#[test]
fn hears_all(rt: HostRuntime) -> Result<(), Fail> {
    for pages in PAGES {
        let agree = told_in_memory(rt, rt.alloc(), Bench::of(2), &pages)?;
        assert!(rt; agree, "at {}", pages.count);
    }
    Ok(())
}

// A push whose messages come late, again, or not at all.
#[derive(Clone, Copy)]
struct Disorder;

impl<K: Keeper + Drop> RoomTest<K> for Disorder {
    type Told = bool;

    // Checks whether a client agrees with the one that made the pages, once it has heard the last message of a push, then the last two, and
    // so on.
    fn ask<N: RoomName, Q: Wait + Drop, W: Wait>(
        &self,
        rt: &W,
        alloc: Global,
        _room: &Room<K, N, Q>,
        seats: &mut [SeatOf<K, N, Q>],
    ) -> Result<bool, Fail> {
        let [one, two] = seats else {
            return Err(Fail::from("not two seats"));
        };
        let mut reader = joined(rt, alloc, one)?;
        let mut writer = joined(rt, alloc, two)?;
        make_pages(rt, alloc, two, &mut writer, 5)?;
        heard_at(alloc, &mut writer, two)??;
        let Some(told) = push(alloc, one, 1, 0)? else {
            return Ok(false);
        };
        let told = messages_of(alloc, told)?;
        for heard in 0..=told.len() {
            hear(&mut reader, &told[told.len() - heard..])?;
        }
        Ok(agree(&reader, &writer, 7))
    }
}

#[test]
fn hears_in_disorder(rt: HostRuntime) -> Result<(), Fail> {
    let agree = told_in_memory(rt, rt.alloc(), Bench::of(2), &Disorder)?;
    assert!(rt; agree);
    Ok(())
}

// A client with an id that no client was given.
#[derive(Clone, Copy)]
struct Stranger;

impl<K: Keeper + Drop> RoomTest<K> for Stranger {
    type Told = (Result<(), LinkError>, Result<(), LinkError>);

    // How it ends that the stranger hears, before anything is published and after.
    fn ask<N: RoomName, Q: Wait + Drop, W: Wait>(
        &self,
        rt: &W,
        alloc: Global,
        _room: &Room<K, N, Q>,
        seats: &mut [SeatOf<K, N, Q>],
    ) -> Result<(Result<(), LinkError>, Result<(), LinkError>), Fail> {
        let [one, two] = seats else {
            return Err(Fail::from("not two seats"));
        };
        let mut client = Client::new(alloc)?;
        client.receive(&Message::<Global>::Welcome(9))?;
        let before = heard_at(alloc, &mut client, one)?;
        let _ = joined(rt, alloc, two)?;
        let after = heard_at(alloc, &mut client, one)?;
        Ok((before, after))
    }
}

#[test]
fn no_news_for_a_stranger(rt: HostRuntime) -> Result<(), Fail> {
    let told = told_in_memory(rt, rt.alloc(), Bench::of(2), &Stranger)?;
    assert_eq!(rt; told, (Ok(()), Err(LinkError::Refused(NoReason::Stranger))));
    Ok(())
}
