// A link to a server.
ghost use Rattle.std.specs.Prelude.{IfErr, IfOk, map};
ghost use Rattle.canvas_judge.specs.Seen.{seen_message};

use canvas_judge::{Message, NoReason};
use std::alloc::{AllocError, AllocFailed};
use thiserror::Error;

/// Why a round over a link gave no answer.
#[derive(Clone, Copy, Debug, PartialEq, Eq, Error)]
pub enum LinkError {
    /// The connection has ended, or failed.
    #[error("the connection has ended")]
    Ended,
    /// The server refused what was asked, for this reason.
    #[error("the server refused: {0:?}")]
    Refused(NoReason),
    /// What came isn't an answer.
    #[error("the answer can't be read")]
    NotRead,
    /// Memory ran out.
    #[error("out of memory")]
    Memory,
}

impl From<AllocError> for LinkError {
    ghost use Rattle.std.specs.Prelude.{◌≡◌};
    ghost use Rattle.canvas_nodes.specs.declared.link.LinkError.TheVariants.{Memory};

    ghost from_gives = { λ _ e. e ≡ Memory };

    fn from(_error: AllocError) -> LinkError {
        LinkError::Memory
    }
}

impl<T: Drop> From<AllocFailed<T>> for LinkError {
    ghost use Rattle.std.specs.Prelude.{◌≡◌};
    ghost use Rattle.canvas_nodes.specs.declared.link.LinkError.TheVariants.{Memory};

    ghost from_gives = { λ _ e. e ≡ Memory };

    fn from(_error: AllocFailed<T>) -> LinkError {
        LinkError::Memory
    }
}

/// A client's way to a server.
pub trait Link {
    ghost use Rattle.std.specs.Prelude.{List};
    ghost use Rattle.canvas_model.specs.Messages as messages;
    ghost use Rattle.canvas_nodes.specs.declared.link.LinkError as link;

    /// What a round may have answered to a message, from what the link has seen to what it has seen afterwards.
    ghost gives: { Self → messages.Message → List messages.Message → Self → Type 0 };

    /// By which error a round may have given no answer to a message, and what the link has seen afterwards.
    ghost fails: { Self → messages.Message → link.LinkError → Self → Type 0 };

    /// Sends a message, and gives the messages of its answer, in order.
    ///
    /// Answers Ended where the connection has ended or failed, Refused where the answer ends with a No, NotRead where what came isn't
    /// an answer, and Memory if memory runs out.
    fn round(&mut self, message: Message) -> Result<Vec<Message>, LinkError>
        ensures gives { IfOk result (λ answer. gives self.old (seen_message message) (map seen_message answer.items) self.new) }
        ensures fails { IfErr result (λ e. fails self.old (seen_message message) e self.new) };
}
