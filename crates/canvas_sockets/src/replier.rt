// What answers the bytes of a client's messages.
ghost use Rattle.std.specs.Prelude.{◌≡◌, MatchResult, map};
ghost use Rattle.canvas_nodes.specs.Answers.{refusal_alone};
ghost use Rattle.net_outbox.specs.Texts.{text_bytes};

use canvas_judge::NoReason;
use net_outbox::Text;
use std::alloc::Global;

/// What answers the bytes of a client's messages.
pub trait Replier {
    ghost use Rattle.std.specs.Prelude.{ℕ, List};
    ghost use Rattle.canvas_model.specs.Messages as messages;
    ghost use Rattle.canvas_sockets.specs.Turned.{RepliesInTexts};

    /// What it may reply to the bytes of a message, and how it may stand afterwards.
    ghost replies: { Self → List ℕ → List messages.Message → Self → Type 0 };

    /// The texts of the reply to the bytes of a message, in order; or the reason of a No, which is the whole reply.
    fn reply(&mut self, alloc: Global, bytes: &[u8]) -> Result<Vec<Text>, NoReason>
        ensures { MatchResult result
            (λ ts. RepliesInTexts replies self.old bytes.now (map text_bytes ts.items) self.new)
            (λ reason. replies self.old bytes.now (refusal_alone reason) self.new) };

    /// Called once a reply has joined the output. It is for what a replier keeps that contracts don't see; as a rule it does nothing.
    fn sent(&mut self)
        ensures { self.new ≡ self.old }
    {}
}
