// The lines of a script, and what they are answered.
use canvas_board::{Receipt, RoomName};
use canvas_desk::SubmitError;
use canvas_journal::Keeper;
use canvas_room::{Lock, Room, Seat};
use canvas_server::Request;
use canvas_wire::{WireError, decode};
use std::alloc::{AllocError, Global};
use std::sync::Wait;
use test_cases::Text;

/// A seat of a room.
pub type SeatOf<K, N, Q> = Seat<N, Lock<K, N, Q>>;

// Adds what a text asks, if it is a message that asks the server for something.
fn add_request(alloc: Global, text: &[u8], requests: &mut Vec<Request>) -> Result<(), AllocError> {
    match decode(alloc, alloc, text) {
        Ok(message) => {
            if let Some(request) = Request::asked_by(message) {
                requests.push(request)?;
            }
            Ok(())
        }
        Err(WireError::Memory) => Err(AllocError),
        Err(_) => Ok(()),
    }
}

// What the messages of a line ask.
fn requests_of(alloc: Global, line: &str) -> Result<Vec<Request>, AllocError> {
    let mut requests = Vec::new(alloc);
    for text in line.split('&') {
        add_request(alloc, text.as_bytes(), &mut requests)?;
    }
    Ok(requests)
}

/// How many entries the requests of a line lead to, where none is refused.
pub fn entries_of(line: &str) -> u64 {
    if !line.starts_with('[') {
        return 0;
    }
    line.split('&').count() as u64
}

// Adds why there is no receipt, or no checkpoint.
fn write_error(error: &SubmitError, text: &mut Text) {
    match error {
        SubmitError::Refused(refusal) => write!(text, " {refusal:?}"),
        SubmitError::NotKept(error) => write!(text, " {error:?}"),
        SubmitError::Owed { version } => write!(text, " Owed {version}"),
    }
}

// Adds what a request is answered.
fn write_answer<N: RoomName>(answer: &Result<Receipt<N>, SubmitError>, text: &mut Text) {
    match answer {
        Ok(receipt) => write!(text, " {}", receipt.version()),
        Err(error) => write_error(error, text),
    }
}

// Has requests judged as one batch, and adds what they are answered.
fn write_batch<K: Keeper + Drop, N: RoomName, Q: Wait + Drop, W: Wait>(
    rt: &W,
    room: &Room<K, N, Q>,
    requests: &[Request],
    text: &mut Text,
) {
    if requests.len() > 64 {
        return text.push_str(" too many");
    }
    let mut desk = room.desk(rt);
    match desk.submit_many(rt, requests) {
        Ok(answers) => {
            text.push_str(" (");
            for answer in &answers {
                write_answer(answer, text);
            }
            text.push_str(" )");
        }
        Err(error) => write_error(&error, text),
    }
}

// Has requests judged, and adds what they are answered.
fn write_requests<K: Keeper + Drop, N: RoomName, Q: Wait + Drop, W: Wait>(
    rt: &W,
    room: &Room<K, N, Q>,
    seat: &mut SeatOf<K, N, Q>,
    mut requests: Vec<Request>,
    text: &mut Text,
) {
    if requests.len() > 1 {
        return write_batch(rt, room, &requests, text);
    }
    match requests.pop() {
        Some(request) => write_answer(&seat.submit(rt, request), text),
        None => text.push_str(" unreadable"),
    }
}

// Makes a checkpoint, and adds what that is answered.
fn write_checkpoint<K: Keeper + Drop, N: RoomName, Q: Wait + Drop, W: Wait>(
    rt: &W,
    seat: &mut SeatOf<K, N, Q>,
    text: &mut Text,
) {
    match seat.tidy(rt, 0) {
        Ok(true) => text.push_str(" checkpoint"),
        Ok(false) => text.push_str(" none"),
        Err(error) => write_error(&error, text),
    }
}

/// Adds the version that a seat reads as client 1; nothing is told before that has joined.
pub fn write_read<N: RoomName, D: Drop>(alloc: Global, seat: &mut Seat<N, D>, text: &mut Text) {
    match seat.copy(alloc, 1) {
        Ok(Some(copy)) => write!(text, " {}", copy.version),
        Ok(None) => text.push_str(" nothing"),
        Err(_) => text.refuse(),
    }
}

/// Does what a line says at the first of a room's two seats, or has the second one read, and adds what that is answered.
pub fn write_step<K: Keeper + Drop, N: RoomName, Q: Wait + Drop, W: Wait>(
    rt: &W,
    alloc: Global,
    room: &Room<K, N, Q>,
    one: &mut SeatOf<K, N, Q>,
    two: &mut SeatOf<K, N, Q>,
    line: &str,
    text: &mut Text,
) {
    if line == "checkpoint" {
        return write_checkpoint(rt, one, text);
    }
    if line == "read" {
        text.push_str(" reads");
        return write_read(alloc, two, text);
    }
    match requests_of(alloc, line) {
        Ok(requests) => write_requests(rt, room, one, requests, text),
        Err(_) => text.refuse(),
    }
}
