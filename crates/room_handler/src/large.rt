// Which messages are too large.
ghost use Rattle.std.specs.Prelude.{◌≤◌, ◌↔◌, IfOk, IfSome, IsTrue, length};
ghost use Rattle.canvas_model.specs.Messages as messages;
ghost use Rattle.canvas_judge.specs.Seen.{seen_message};
ghost use Rattle.canvas_wire.specs.Text.{message_text};
ghost use Rattle.room_handler.specs.Large.{IsTooLarge, SetsAtMost};

use canvas_doc::{Change, ChangeVariant};
use canvas_judge::Message;
use canvas_value::ValueVariant;
use canvas_wire::encode;
use std::alloc::{AllocError, Global};

/// Checks whether a message is an edit whose text, as it is written here, has more than so many bytes. The text is written for that only if
/// it sets a list, or may be long. Errors: out of memory.
pub fn is_too_large(alloc: Global, message: &Message, limit: usize) -> Result<bool, AllocError>
    ensures { IfOk result (λ answer. IsTrue answer ↔ IsTooLarge limit (seen_message message.now)) }
{
    match message {
        Message::Edit {
            client,
            seq,
            change,
        } => {
            if is_short(*client, *seq, change, limit) {
                return Ok(false);
            }
            let text = encode(alloc, message)?;
            Ok(text.len() > limit)
        }
        _ => Ok(false),
    }
}

// Checks whether the text of an edit is seen to have at most that many bytes: each byte of a text that it sets becomes at most six, and all
// else has at most 1,028.
fn is_short(client: u32, seq: u64, change: &Change, limit: usize) -> bool
    ensures { IsTrue result → length (message_text (messages.Edit client seq change.now)) ≤ limit }
{
    change.every_part();
    match set_len(change) {
        Some(len) => len as u128 * 6 + 1_028 <= limit as u128,
        None => false,
    }
}

// How many bytes the text has that a change sets, or 0 where it sets none. `None` where it sets a list.
fn set_len(change: &Change) -> Option<usize>
    ensures { IfSome result (SetsAtMost change.now) }
{
    let ChangeVariant::Set {
        value: Some(value),
        ..
    } = change.variant()
    else {
        return Some(0);
    };
    match value.variant() {
        ValueVariant::Text(text) => Some(text.len()),
        ValueVariant::List(_) => None,
        ValueVariant::Number(_) | ValueVariant::Truth(_) | ValueVariant::Colour(_) => Some(0),
    }
}
