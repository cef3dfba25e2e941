// What is answered an Ask, and what is told unasked.
ghost use Rattle.std.specs.Prelude.{◌≡◌, ◌+◌, ◌<◌, ◌^◌, ◌++◌, ◌∷◌, [], IfOk, length, map};
ghost use Rattle.std.specs.Option.{option_map};
ghost use Rattle.canvas_model.specs.Messages.{Idle};
ghost use Rattle.canvas_judge.specs.Seen.{seen_copy, seen_message};
ghost use Rattle.canvas_board.specs.Marks.{board};
ghost use Rattle.room_handler.specs.News.{tells};
ghost use Rattle.room_handler.specs.Table.{AnswersAsk, IsPush, SeesOn};
ghost use Rattle.room_handler.specs.Told.{seen_told};

use crate::Told;
use crate::told::messages_of;
use canvas_board::{News, RoomName, SeatError};
use canvas_forms::SharedEntry;
use canvas_judge::{DocCopy, Message, NoReason};
use canvas_room::Seat;
use std::alloc::{AllocError, Global};

// How many entries an answer has at most.
const MOST_ENTRIES: u64 = 64;

/// Returns the answer to an Ask of a client that has this version. Never blocks. Errors: out of memory.
pub(crate) fn ask_told<N: RoomName, D: Drop>(
    alloc: Global,
    seat: &mut Seat<N, D>,
    client: u32,
    version: u64,
) -> Result<Vec<Told>, AllocError>
    ensures answers { IfOk result (λ answer. AnswersAsk (board N.opening seat.new) client version (map seen_told answer.items)) }
    ensures sees { SeesOn N.opening seat.old seat.new }
{
    match seat.news(alloc, client, version, MOST_ENTRIES) {
        Ok(News::Stranger) => alone(alloc, Message::No(NoReason::Stranger)),
        Ok(News::Entries(entries)) => told(alloc, version, entries),
        Ok(News::Copy(copy)) => copied(alloc, copy),
        // A seat keeps its room, so it is never closed.
        Err(SeatError::Closed | SeatError::Memory) => Err(AllocError),
    }
}

/// Returns the answer to an Ask of a client that has this version, which shares nothing. Never blocks. Errors: out of memory.
pub fn answer_ask<N: RoomName, D: Drop>(
    alloc: Global,
    seat: &mut Seat<N, D>,
    client: u32,
    version: u64,
) -> Result<Vec<Message>, AllocError>
    ensures answers { IfOk result (λ answer. AnswersAsk (board N.opening seat.new) client version (map seen_message answer.items)) }
    ensures sees { SeesOn N.opening seat.old seat.new }
{
    let told = ask_told(alloc, seat, client, version)?;
    let messages = messages_of(alloc, told)?;
    Ok(messages)
}

/// What a client is told unasked that was told all up to this version: what an Ask from there is answered, without its Idle. `None` if nothing
/// is published after it, or the client hasn't joined. Never blocks. Errors: out of memory.
pub fn push<N: RoomName, D: Drop>(
    alloc: Global,
    seat: &mut Seat<N, D>,
    client: u32,
    version: u64,
) -> Result<Option<Vec<Told>>, AllocError>
    ensures tells { IfOk result (λ told. IsPush (board N.opening seat.new) client version (option_map (λ messages. map seen_told messages.items) told)) }
    ensures sees { SeesOn N.opening seat.old seat.new }
{
    match seat.next(alloc, client, version, MOST_ENTRIES) {
        Ok(None) => Ok(None),
        Ok(Some(News::Stranger)) => Ok(None),
        Ok(Some(News::Entries(entries))) => Ok(Some(told_entries(alloc, version, entries)?)),
        Ok(Some(News::Copy(copy))) => Ok(Some(alone(alloc, Message::Copy(copy))?)),
        // A seat keeps its room, so it is never closed.
        Err(SeatError::Closed | SeatError::Memory) => Err(AllocError),
    }
}

// One message alone. Errors: out of memory.
fn alone(alloc: Global, message: Message) -> Result<Vec<Told>, AllocError>
    ensures { IfOk result (λ told. map seen_told told.items ≡ seen_message message ∷ []) }
{
    let mut told = Vec::with_capacity(alloc, 1)?;
    told.push_reserved(Told::Other(message));
    Ok(told)
}

// The entries after this version, each with its own. Errors: out of memory.
fn told_entries(
    alloc: Global,
    from: u64,
    entries: Vec<SharedEntry>,
) -> Result<Vec<Told>, AllocError>
    requires { from + length entries.items < 2 ^ 64 }
    ensures { IfOk result (λ told. map seen_told told.items ≡ tells from entries.items) }
{
    // With a place for an Idle.
    let mut told = Vec::with_capacity(alloc, entries.len().saturating_add(1))?;
    let mut version = from;
    for entry in entries {
        version += 1;
        told.push(Told::Entry { version, entry })?;
    }
    Ok(told)
}

// The entries after this version, each with its own, and an Idle. Errors: out of memory.
fn told(alloc: Global, from: u64, entries: Vec<SharedEntry>) -> Result<Vec<Told>, AllocError>
    requires { from + length entries.items < 2 ^ 64 }
    ensures { IfOk result (λ told. map seen_told told.items ≡ tells from entries.items ++ Idle ∷ []) }
{
    let mut told = told_entries(alloc, from, entries)?;
    told.push(Told::Other(Message::Idle))?;
    Ok(told)
}

// A copy, and an Idle. Errors: out of memory.
fn copied(alloc: Global, copy: DocCopy) -> Result<Vec<Told>, AllocError>
    ensures { IfOk result (λ told. map seen_told told.items ≡ seen_copy copy ∷ Idle ∷ []) }
{
    let mut told = Vec::with_capacity(alloc, 2)?;
    told.push_reserved(Told::Other(Message::Copy(copy)));
    told.push_reserved(Told::Other(Message::Idle));
    Ok(told)
}
