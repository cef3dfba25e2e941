//! A served connection: what it sends is what a seat answers.
ghost use Rattle.std.specs.Prelude.{◌≡◌};

use canvas_board::RoomName;
use canvas_journal::Keeper;
use canvas_judge::Message;
use canvas_nodes::Answerer;
use canvas_room::{BlankRoom, Room};
use canvas_sockets::serve_one;
use canvas_wire::{decode, encode};
use memory_sockets::{heard, sent, socket};
use room_handler::{Plain, SeatAnswerer, answer};
use std::alloc::Global;
use std::marker::Brand;
use std::sync::Wait;
use std::test::Fail;
use test_rooms::{Bench, RoomTest, SeatOf, room_in_memory, told_in_memory};
use tungstenite::Role;

// How many edits are sent, of which 300 are judged.
const EDITS: u64 = 420;

// What a client asked and was answered so far, one message a line.
#[derive(Drop)]
struct Talk {
    asked: String,
    texts: Vec<u8>,
}

// What an edit is, by how many were sent before it.
#[derive(Clone, Copy, PartialEq, Eq)]
enum Kind {
    // The next one, which the document takes.
    Taken,
    // The next one, which the document refuses.
    Refused,
    // The one before, once more.
    Again,
    // One before which another is missing.
    Early,
}

fn kind_of(sent: u64) -> Kind {
    match sent % 7 {
        2 => Kind::Refused,
        4 => Kind::Again,
        6 => Kind::Early,
        _ => Kind::Taken,
    }
}

// The number of an edit, where so many were judged before.
fn seq(kind: Kind, judged: u64) -> u64 {
    match kind {
        Kind::Taken | Kind::Refused => judged.saturating_add(1),
        Kind::Again => judged,
        Kind::Early => judged.saturating_add(2),
    }
}

// The line of an edit.
fn edit(alloc: Global, kind: Kind, judged: u64) -> Result<String, Fail> {
    let seq = seq(kind, judged);
    if kind == Kind::Refused {
        return Ok(format!(in alloc; "[\"edit\",1,{seq},[\"delete\",[1,9]]]")?);
    }
    Ok(format!(in alloc; "[\"edit\",1,{seq},[\"set\",[0,0],\"n\",{seq}]]")?)
}

// The line of an Ask from a version.
fn ask(alloc: Global, version: u64) -> Result<String, Fail> {
    Ok(format!(in alloc; "[\"ask\",1,{version}]")?)
}

// Adds what is answered.
fn add_answer(alloc: Global, texts: &mut Vec<u8>, answer: &[Message]) -> Result<(), Fail> {
    for message in answer {
        let text = encode(alloc, message)?;
        texts.extend_from_slice(&text)?;
        texts.push(b'\n')?;
    }
    Ok(())
}

// Adds what is asked and answered.
fn note(alloc: Global, talk: &mut Talk, line: &str, answer: &[Message]) -> Result<(), Fail> {
    talk.asked.push_str(line)?;
    talk.asked.push_str("\n")?;
    add_answer(alloc, &mut talk.texts, answer)
}

// What a seat answers a line.
fn answered<K: Keeper + Drop, N: RoomName, Q: Wait + Drop, W: Wait>(
    alloc: Global,
    rt: &W,
    seat: &mut SeatOf<K, N, Q>,
    line: &str,
) -> Result<Vec<Message>, Fail> {
    let message = decode(alloc, alloc, line.as_bytes())?;
    Ok(answer(alloc, rt, seat, message, &Plain)?)
}

// The same, noted.
fn told<K: Keeper + Drop, N: RoomName, Q: Wait + Drop, W: Wait>(
    alloc: Global,
    rt: &W,
    seat: &mut SeatOf<K, N, Q>,
    talk: &mut Talk,
    line: &str,
) -> Result<Vec<Message>, Fail> {
    let answer = answered(alloc, rt, seat, line)?;
    note(alloc, talk, line, &answer)?;
    Ok(answer)
}

fn is_idle(message: &Message) -> bool {
    matches!(message, Message::Idle)
}

// What a message tells of one entry, or of a copy: the version, and the number of the client's edit.
fn number_told(message: &Message) -> Option<(u64, u64)> {
    match message {
        Message::Entry { version, entry } => Some((*version, entry.seq)),
        Message::Copy(copy) => Some((copy.version, copy.done)),
        _ => None,
    }
}

// The version that an answer to an Ask tells behind this one: that of the entry with this number of the client, or of a copy. With no
// number it is this one, where nothing is told.
fn version_told(answer: &[Message], version: u64, number: Option<u64>) -> Option<u64> {
    match (answer, number) {
        ([last], None) if is_idle(last) => Some(version),
        ([first, last], Some(wanted)) if is_idle(last) => match number_told(first) {
            Some((version, number)) if number == wanted => Some(version),
            _ => None,
        },
        _ => None,
    }
}

// What a seat answers an Ask from a version, noted.
fn told_from<K: Keeper + Drop, N: RoomName, Q: Wait + Drop, W: Wait>(
    alloc: Global,
    rt: &W,
    seat: &mut SeatOf<K, N, Q>,
    talk: &mut Talk,
    version: u64,
) -> Result<Vec<Message>, Fail> {
    let line = ask(alloc, version)?;
    told(alloc, rt, seat, talk, line.as_str())
}

// Asks from 0 and from the version told before. Answers the version that is told then: one more where an edit of this number was judged.
fn asks<K: Keeper + Drop, N: RoomName, Q: Wait + Drop, W: Wait>(
    alloc: Global,
    rt: &W,
    seat: &mut SeatOf<K, N, Q>,
    talk: &mut Talk,
    version: u64,
    number: Option<u64>,
) -> Result<u64, Fail> {
    let _ = told_from(alloc, rt, seat, talk, 0)?;
    let answer = told_from(alloc, rt, seat, talk, version)?;
    match version_told(&answer, version, number) {
        Some(next) if next == version.saturating_add(number.is_some() as u64) => Ok(next),
        _ => Err(Fail::from("an answer to an Ask")),
    }
}

// Sends an edit.
fn send_edit<K: Keeper + Drop, N: RoomName, Q: Wait + Drop, W: Wait>(
    alloc: Global,
    rt: &W,
    seat: &mut SeatOf<K, N, Q>,
    talk: &mut Talk,
    kind: Kind,
    judged: u64,
) -> Result<(), Fail> {
    let line = edit(alloc, kind, judged)?;
    let _ = told(alloc, rt, seat, talk, line.as_str())?;
    Ok(())
}

// Sends a Join and the edits, each followed by two Asks.
fn talks<K: Keeper + Drop, N: RoomName, Q: Wait + Drop, W: Wait>(
    alloc: Global,
    rt: &W,
    seat: &mut SeatOf<K, N, Q>,
    talk: &mut Talk,
) -> Result<(), Fail> {
    let _ = told(alloc, rt, seat, talk, "[\"join\",2]")?;
    let mut version = asks(alloc, rt, seat, talk, 0, Some(0))?;
    let mut judged = 0;
    for sent in 0..EDITS {
        let kind = kind_of(sent);
        send_edit(alloc, rt, seat, talk, kind, judged)?;
        let is_next = kind == Kind::Taken || kind == Kind::Refused;
        judged = if is_next { seq(kind, judged) } else { judged };
        let number = if is_next { Some(judged) } else { None };
        version = asks(alloc, rt, seat, talk, version, number)?;
    }
    Ok(())
}

// A client that joins, edits and asks.
#[derive(Clone, Copy)]
struct Talking;

impl<K: Keeper + Drop> RoomTest<K> for Talking {
    // What is asked of the room's seat, and what it answers.
    type Told = Talk;

    fn ask<N: RoomName, Q: Wait + Drop, W: Wait>(
        &self,
        rt: &W,
        alloc: Global,
        _room: &Room<K, N, Q>,
        seats: &mut [SeatOf<K, N, Q>],
    ) -> Result<Talk, Fail> {
        let [seat] = seats else {
            return Err(Fail::from("no seat"));
        };
        let mut talk = Talk {
            asked: String::new(alloc),
            texts: Vec::new(alloc),
        };
        talks(alloc, rt, seat, &mut talk)?;
        Ok(talk)
    }
}

// What a connection to a seat is sent, where it sends these bytes.
fn served_bytes<A: Answerer>(alloc: Global, answerer: &mut A, bytes: &[u8]) -> Vec<u8> {
    let mut server = socket(alloc, bytes, Role::Server);
    let _ = serve_one(alloc, answerer, &mut server);
    server.into_inner().writer
}

// The same, where it sends these lines.
fn served_by<A: Answerer>(alloc: Global, answerer: &mut A, lines: &str) -> Result<Vec<u8>, Fail> {
    let bytes = sent(alloc, lines, Role::Client)?;
    let told = served_bytes(alloc, answerer, &bytes);
    Ok(heard(alloc, &told)?)
}

// The same for a connection to the last of these seats.
fn served_at<K: Keeper + Drop, N: RoomName, Q: Wait + Drop, W: Wait + Copy + Drop>(
    rt: W,
    alloc: Global,
    seats: &mut Vec<SeatOf<K, N, Q>>,
    lines: &str,
) -> Result<Vec<u8>, Fail> {
    let Some(seat) = seats.pop() else {
        return Err(Fail::from("no seat"));
    };
    let mut answerer = SeatAnswerer::new(alloc, rt, seat, Plain);
    served_by(alloc, &mut answerer, lines)
}

// The same in a room that is opened for this.
fn served_in<N: RoomName, K: Keeper + Drop, R: Wait + Copy + Drop>(
    rt: R,
    alloc: Global,
    blank: BlankRoom<K>,
    talk: &Talk,
) -> Result<Vec<u8>, Fail>
    requires book { blank.book ≡ N.book }
    requires opening { blank.opening ≡ N.opening }
{
    let (_room, mut seats) = blank.open::<N, R>(rt)?;
    served_at(rt, alloc, &mut seats, talk.asked.as_str())
}

// What a connection to a new room is sent, where it sends what was asked in this talk.
fn served<R: Wait + Copy + Drop>(rt: R, alloc: Global, talk: &Talk) -> Result<Vec<u8>, Fail> {
    let blank = room_in_memory(alloc, Bench::of(1))?;
    served_in::<Brand, _, _>(rt, alloc, blank, talk)
}

// Checks whether a connection to a second room is sent what the first one's seat answered to the same.
fn is_answer<R: Wait + Copy + Drop>(rt: R, alloc: Global) -> Result<bool, Fail> {
    let talk = told_in_memory(rt, alloc, Bench::of(1), &Talking)?;
    let heard = served(rt, alloc, &talk)?;
    Ok(heard == talk.texts)
}

#[test]
fn front_is_answer(rt: HostRuntime) -> Result<(), Fail> {
    assert!(rt; is_answer(rt, rt.alloc())?);
    Ok(())
}
