// What a client asks.
ghost use Rattle.std.specs.Prelude.{◌≡◌, ◌↔◌, IfErr, IfOk, IsTrue};
ghost use Rattle.canvas_judge.specs.Seen.{seen_message};
ghost use Rattle.canvas_nodes.specs.Answers.{IsAsked, IsUnasked, SpellsAsked, reason_of_wire_error};

use canvas_judge::{Message, NoReason};
use canvas_wire::{WireError, decode};
use std::alloc::Global;

/// The message that these bytes are a text of, where a client sends such messages: a Join, an edit or an Ask.
///
/// Answers NotRead where they are a text of no such message, and Memory if memory runs out.
pub fn asked(alloc: Global, bytes: &[u8]) -> Result<Message, NoReason>
    ensures ok { IfOk result (λ m. SpellsAsked bytes.now (seen_message m)) }
    ensures err { IfErr result (IsUnasked bytes.now) }
{
    match decode(alloc, alloc, bytes) {
        Ok(message) => if is_asked(&message) {
            Ok(message)
        } else {
            Err(NoReason::NotRead)
        },
        Err(error) => Err(reason_of(error)),
    }
}

// Why bytes are refused that `decode` refuses so.
fn reason_of(error: WireError) -> NoReason
    ensures { result ≡ reason_of_wire_error error }
{
    match error {
        WireError::Memory => NoReason::Memory,
        _ => NoReason::NotRead,
    }
}

// Checks whether a client sends such messages.
fn is_asked(message: &Message) -> bool
    ensures { IsTrue result ↔ IsAsked (seen_message message.now) }
{
    match message {
        Message::Join | Message::Edit { .. } | Message::Ask { .. } => true,
        _ => false,
    }
}
