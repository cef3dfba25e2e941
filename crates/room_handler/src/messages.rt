// What is answered a client's message at a seat.
ghost use Rattle.std.specs.Prelude.{◌≡◌, ◌∷◌, [], IfNone, IfOk, IfSome, map};
ghost use Rattle.canvas_judge.specs.Seen.{seen_message};
ghost use Rattle.canvas_nodes.specs.Answers.{IsAnswer, refusal_alone};
ghost use Rattle.room_handler.specs.Links.{IsNo};
ghost use Rattle.room_handler.specs.Table.{IsAnswerToMessage, SeesOn};

use crate::Terms;
use crate::asking::answer_ask;
use crate::requests::answer_request;
use canvas_board::RoomName;
use canvas_journal::Keeper;
use canvas_judge::{Message, NoReason};
use canvas_room::{Lock, Seat};
use canvas_server::Request;
use std::alloc::{AllocError, Global};
use std::sync::Wait;

/// What a seat answers a client's message, in order: to a Join or an edit what became of it, to an Ask what came after the version that
/// the client has, and to any other message a No for NotRead. The last message is a Welcome, an Idle or a No, and no other.
///
/// A Join and an edit are submitted, which may wait for the room's lock. What was judged the seat has seen afterwards; then it makes a
/// checkpoint if one is due by these terms, and whether that failed isn't told. An Ask waits for nobody; it is answered by at most 64 entries,
/// or by a copy where a checkpoint let go of some entry after the client's version.
///
/// Errors: out of memory.
pub fn answer<K: Keeper + Drop, N: RoomName, R: Wait + Drop, W: Wait, T: Terms<N>>(
    alloc: Global,
    rt: &W,
    seat: &mut Seat<N, Lock<K, N, R>>,
    message: Message,
    terms: &T,
) -> Result<Vec<Message>, AllocError>
    ensures table { IfOk result (λ answer. IsAnswerToMessage N.opening seat.old (seen_message message) (map seen_message answer.items) seat.new) }
    ensures whole { IfOk result (λ answer. IsAnswer (map seen_message answer.items)) }
    ensures sees { SeesOn N.opening seat.old seat.new }
{
    if let Message::Ask { client, version } = &message {
        return answer_ask(alloc, seat, *client, *version);
    }
    match Request::asked_by(message) {
        Some(request) => answer_request(alloc, rt, seat, request, terms),
        None => alone(alloc, Message::No(NoReason::NotRead)),
    }
}

// An answer of one message. Errors: out of memory.
pub(crate) fn alone(alloc: Global, message: Message) -> Result<Vec<Message>, AllocError>
    ensures { IfOk result (λ answer. map seen_message answer.items ≡ seen_message message ∷ []) }
{
    let mut answer = Vec::with_capacity(alloc, 1)?;
    answer.push_reserved(message);
    Ok(answer)
}

// Returns the reason of an answer that is a No alone.
pub(crate) fn refusal(answer: &[Message]) -> Option<NoReason>
    ensures some { IfSome result (λ reason. map seen_message answer.now ≡ refusal_alone reason) }
    ensures none { IfNone result (IsNo (map seen_message answer.now) → ⊥) }
{
    let [message] = answer else {
        return None;
    };
    match message {
        Message::No(reason) => Some(*reason),
        _ => None,
    }
}
