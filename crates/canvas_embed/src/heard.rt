// What was heard of the server.
ghost use Rattle.canvas_client.specs.Seen.{seen_received};
ghost use Rattle.canvas_judge.specs.Seen.{seen_message};
ghost use Rattle.canvas_embed.specs.Messages.{Tells};

use canvas_client::Received;
use canvas_judge::{Message, NoReason};

/// What was heard of the server: the end of an answer, or another message and what the client did with it.
#[derive(Clone, Copy, Debug, PartialEq, Eq)]
pub enum Heard {
    /// A message that isn't one of those below, and what the client did with it.
    Received(Received),
    /// There is no more: the answer ends. The client is unchanged.
    Idle,
    /// What was asked is refused, and the answer ends. The client is unchanged.
    No(NoReason),
}

// What is heard of a message with which the client did so.
pub(crate) fn tell(message: &Message, received: Received) -> Heard
    ensures { Tells (seen_message message.now) (seen_received received) result }
{
    match message {
        Message::Idle => Heard::Idle,
        Message::No(reason) => Heard::No(*reason),
        _ => Heard::Received(received),
    }
}
