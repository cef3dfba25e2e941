// What serves a connection.
ghost use Rattle.std.specs.Prelude.{◌≡◌, [], IfErr, IfOk, map};
ghost use Rattle.net_outbox.specs.Texts.{text_bytes};

use canvas_sockets::Replier;
use net_outbox::Text;
use std::alloc::{AllocError, Global};

/// What there is to tell a client unasked: the texts of messages, in order, and the version that each of them leads to.
#[derive(Drop)]
pub struct Push {
    /// The texts.
    pub texts: Vec<Text>,
    /// The versions.
    pub versions: Vec<u64>,
    /// Whether there is more to tell that can't be told now, and is to be asked for in a moment.
    pub is_held: bool,
}

/// What serves a connection step by step: it replies to messages, tells what is published to a client that wants to be told unasked, and learns
/// once all that was said has left. Between the steps of one connection it may serve others.
pub trait Handler: Replier {
    ghost use Rattle.std.specs.Prelude.{ℕ, List};
    ghost use Rattle.canvas_model.specs.Messages as messages;
    ghost use Rattle.canvas_turns.specs.Told.{AreAll, TellsInTexts};

    /// What it may tell unasked, in this order, and how it stands that has looked for it.
    ghost tells: { Self → List messages.Message → Self → Type 0 };

    /// How it stands once its client was told all up to this version.
    ghost goes_to: { Self → ℕ → Self → Type 0 };

    /// Which texts it may whisper: such of what isn't kept, as where the others point.
    ghost whispers: { List ℕ → Type 0 };

    /// How it may stand, where a connection goes on, that stood so behind its last step.
    ghost between: { Self → Self → Type 0 };

    /// The version up to which its client was told all; `None` if that isn't told unasked.
    fn place(&self) -> Option<u64>;

    /// The first of what there is to tell unasked, or nothing if there is none. Errors: out of memory.
    fn push(&mut self, alloc: Global) -> Result<Push, AllocError>
        ensures tells { IfOk result (λ push. TellsInTexts tells self.old (map text_bytes push.texts.items) push.versions.items self.new) }
        ensures fails { IfErr result (λ _. tells self.old [] self.new) };

    /// Its client was told all up to this version.
    fn go_to(&mut self, version: u64)
        ensures { goes_to self.old version self.new };

    /// The texts that are whispered now: told unasked, of what isn't kept. None is whispered to a client that isn't told unasked. Errors: out of
    /// memory.
    fn whisper(&mut self, alloc: Global) -> Result<Vec<Text>, AllocError>
        ensures texts { IfOk result (λ texts. AreAll whispers (map text_bytes texts.items)) }
        ensures stays { self.new ≡ self.old };

    /// Called if nothing waits to leave. It is for what a handler keeps that contracts don't see, as bytes of a budget.
    fn rest(&mut self)
        ensures { self.new ≡ self.old };
}
