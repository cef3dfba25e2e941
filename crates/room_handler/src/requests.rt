// What is answered a Join and an edit.
ghost use Rattle.std.specs.Prelude.{◌≡◌, IfOk, map};
ghost use mathlib.Core.List.{IsPrefix};
ghost use Rattle.canvas_judge.specs.Seen.{seen_message};
ghost use Rattle.canvas_server.specs.Asked.{seen_request};
ghost use Rattle.canvas_board.specs.Marks.{SeesHistory};
ghost use Rattle.canvas_room.specs.Seats.{IsOutcomeOf};
ghost use Rattle.room_handler.specs.Table.{AnswersRequest, IsToldAs, SaysOf, SeesOn, answer_of, reason_not_kept};

use crate::Terms;
use canvas_board::{Receipt, RoomName};
use canvas_desk::{Refusal, SubmitError};
use canvas_journal::{KeepError, Keeper};
use canvas_judge::{Entry, Message, NoReason, Outcome, What};
use canvas_room::{Lock, Pace, Seat};
use canvas_server::Request;
use std::alloc::{AllocError, Global};
use std::sync::Wait;

/// The answer to a request: a Welcome where it was a Join, Idle where it was an edit that is judged, now or before, and otherwise a No
/// with the number of the `SubmitError`. It may wait for the room's lock. Fails only if memory runs out, and then nothing was
/// asked of the room. Behind an answer a checkpoint is made if one is due by these terms.
pub fn answer_request<K: Keeper + Drop, N: RoomName, R: Wait + Drop, W: Wait, T: Terms<N>>(
    alloc: Global,
    rt: &W,
    seat: &mut Seat<N, Lock<K, N, R>>,
    request: Request,
    terms: &T,
) -> Result<Vec<Message>, AllocError>
    ensures answers { IfOk result (λ answer. AnswersRequest N.opening (seen_request request) seat.old (map seen_message answer.items) seat.new) }
    ensures sees { SeesOn N.opening seat.old seat.new }
{
    let mut answer = Vec::with_capacity(alloc, 1)?;
    let message = submit(rt, seat, request, terms);
    answer.push_reserved(message);
    Ok(answer)
}

// Has a request judged, and says what became of it.
fn submit<K: Keeper + Drop, N: RoomName, R: Wait + Drop, W: Wait, T: Terms<N>>(
    rt: &W,
    seat: &mut Seat<N, Lock<K, N, R>>,
    request: Request,
    terms: &T,
) -> Message
    ensures says { SaysOf N.opening (seen_request request) seat.old (seen_message result) seat.new }
    ensures sees { SeesOn N.opening seat.old seat.new }
{
    match seat.submit(rt, request) {
        Ok(receipt) => {
            let message = judged(receipt.entry().entry());
            terms.published(receipt.version());
            take_in(rt, seat, receipt, terms);
            message
        }
        Err(error) => refused(error),
    }
}

// Learns a receipt; then makes a checkpoint if one is due, and whether that failed isn't told.
fn take_in<K: Keeper + Drop, N: RoomName, R: Wait + Drop, W: Wait, P: Pace>(
    rt: &W,
    seat: &mut Seat<N, Lock<K, N, R>>,
    receipt: Receipt<N>,
    pace: &P,
)
    ensures learned { IsPrefix receipt.history seat.new }
    ensures sees { SeesHistory N.opening seat.old seat.new }
{
    seat.learn(receipt);
    let _ = seat.tidy_at(rt, pace);
}

// What is answered where this entry was judged: the id to a Join, and Idle to an edit.
fn judged(entry: &Entry) -> Message
    requires { IsOutcomeOf entry.now.what entry.now.outcome }
    ensures { IsToldAs entry.now.what entry.now.outcome (seen_message result) }
{
    match (&entry.what, &entry.outcome) {
        (What::Edit(_), _) => Message::Idle,
        (What::Join, Outcome::Joined(client)) => Message::Welcome(*client),
        _ => unreachable!(),
    }
}

// What is answered where a submit refuses a request.
fn refused(error: SubmitError) -> Message
    ensures { seen_message result ≡ answer_of error }
{
    match error {
        SubmitError::Refused(Refusal::Stranger) => Message::No(NoReason::Stranger),
        SubmitError::Refused(Refusal::Repeat { .. }) => Message::Idle,
        SubmitError::Refused(Refusal::Gap { .. }) => Message::No(NoReason::Gap),
        SubmitError::Refused(Refusal::Full) => Message::No(NoReason::Full),
        SubmitError::NotKept(error) => Message::No(not_kept(error)),
        SubmitError::Owed { .. } => Message::No(NoReason::Memory),
    }
}

// The reason of the No where a request isn't kept.
fn not_kept(error: KeepError) -> NoReason
    ensures { result ≡ reason_not_kept error }
{
    match error {
        KeepError::Device => NoReason::Device,
        KeepError::Failed => NoReason::Failed,
        KeepError::Memory => NoReason::Memory,
        KeepError::TooLarge => NoReason::TooLarge,
    }
}
