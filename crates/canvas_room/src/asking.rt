// How a desk is asked for a seat.
ghost use Rattle.std.specs.Prelude.{◌≡◌, true, false, Err, IfErr, IfNone, IfSome};
ghost use mathlib.Core.List.{IsPrefix};
ghost use Rattle.canvas_server.specs.Asked.{Asked, seen_request};
ghost use Rattle.canvas_board.specs.Marks.{IsLegalHistory, TellsFailure};
ghost use Rattle.canvas_desk.specs.Faults.{is_memory};
ghost use Rattle.canvas_room.specs.Batches.{IsUnanswered};
ghost use Rattle.canvas_room.specs.Seats as seats;
ghost use Rattle.canvas_room.specs.Seats.{IsAnswerTo, IsFailedSince, Learns};

use canvas_board::{Front, Receipt, RoomName};
use canvas_desk::{Desk, SubmitError};
use canvas_journal::{KeepError, Keeper};
use canvas_server::Request;
use std::sync::Wait;

/// An answer, and what its seat is to learn with it.
#[derive(Drop)]
pub struct SeatAnswer<N: RoomName> {
    /// The answer.
    pub answer: Result<Receipt<N>, SubmitError>,
    /// A beginning of the history.
    pub learns: Front<N>,
}

/// Checks whether an answer says that the server's rule refuses the request, or that its entry is too large.
pub fn is_refusal<N: RoomName>(answer: &Result<Receipt<N>, SubmitError>) -> bool
    ensures { result ≡ seats.is_refusal answer.now }
{
    matches!(
        answer,
        Err(SubmitError::Refused(_) | SubmitError::NotKept(KeepError::TooLarge))
    )
}

// Checks whether an error says that what keeps the entries has failed.
fn is_failure(error: SubmitError) -> bool
    ensures { result ≡ seats.is_failure error }
{
    matches!(
        error,
        SubmitError::NotKept(KeepError::Device | KeepError::Failed)
    )
}

// The error of an answer that says that what keeps the entries has failed.
fn failure_of<N: RoomName>(answer: &Result<Receipt<N>, SubmitError>) -> Option<SubmitError>
    ensures some { IfSome result (λ error. (answer.now ≡ Err error) × (seats.is_failure error ≡ true)) }
    ensures none { IfNone result (IfErr answer.now (λ error. seats.is_failure error ≡ false)) }
{
    match answer {
        Ok(_) => None,
        Err(error) => if is_failure(*error) {
            Some(*error)
        } else {
            None
        },
    }
}

/// What a seat is to learn with an answer that tells of no failure.
pub fn learned<N: RoomName>(
    answer: &Result<Receipt<N>, SubmitError>,
    seen: &Front<N>,
    shown: &Front<N>,
) -> Front<N>
    ensures learns { Learns answer.now seen.now shown.now result }
    ensures legal { IsLegalHistory N.opening result }
{
    if is_refusal(answer) {
        shown.again()
    } else {
        seen.again()
    }
}

// What is told if memory runs out: nothing is learned.
fn unjudged<N: RoomName>(error: SubmitError, seen: &Front<N>) -> SeatAnswer<N>
    requires { is_memory error ≡ true }
    ensures { (q : Asked) → IsAnswerTo N.opening seen.now q result.answer result.learns }
{
    SeatAnswer {
        answer: Err(error),
        learns: seen.again(),
    }
}

// What a seat is to learn that has seen this, where a prefix of the history tells of a failure: that beginning, if it is longer.
fn learned_of<N: RoomName>(seen: &Front<N>, told: Front<N>) -> Front<N>
    requires told { TellsFailure told }
    requires legal { IsLegalHistory N.opening told }
    ensures { IsFailedSince N.opening seen.now result }
{
    if seen.begins(&told) {
        told
    } else {
        seen.again()
    }
}

/// What is told by a desk that has failed: with the error the seat learns that it has.
pub fn failed<K: Keeper, N: RoomName, R: Wait + Drop, W: Wait>(
    rt: &W,
    desk: &mut Desk<K, N, R>,
    error: SubmitError,
    seen: &Front<N>,
) -> SeatAnswer<N>
    requires failed { desk.old.failed ≡ true }
    requires error { seats.is_failure error ≡ true }
    ensures { (q : Asked) → IsAnswerTo N.opening seen.now q result.answer result.learns }
{
    let told = desk.tell_failure(rt);
    SeatAnswer {
        answer: Err(error),
        learns: learned_of(seen, told),
    }
}

/// What is told where a batch as a whole isn't answered.
pub fn unanswered<K: Keeper, N: RoomName, R: Wait + Drop, W: Wait>(
    rt: &W,
    desk: &mut Desk<K, N, R>,
    error: SubmitError,
    seen: &Front<N>,
) -> SeatAnswer<N>
    requires { IsUnanswered desk.old.failed error }
    ensures { (q : Asked) → IsAnswerTo N.opening seen.now q result.answer result.learns }
{
    if is_failure(error) {
        failed(rt, desk, error, seen)
    } else {
        unjudged(error, seen)
    }
}

/// Has a request submitted for a seat that has seen no more than is published.
pub fn ask<K: Keeper, N: RoomName, R: Wait + Drop, W: Wait>(
    rt: &W,
    desk: &mut Desk<K, N, R>,
    seen: &Front<N>,
    request: Request,
) -> SeatAnswer<N>
    requires { IsPrefix seen.now desk.old.history }
    ensures { IsAnswerTo N.opening seen.now (seen_request request) result.answer result.learns }
{
    let answer = desk.submit(rt, request);
    match failure_of(&answer) {
        Some(error) => failed(rt, desk, error, seen),
        None => {
            let learns = learned(&answer, seen, &desk.shown());
            SeatAnswer { answer, learns }
        }
    }
}
