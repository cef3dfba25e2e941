// What is answered to a client's message.
ghost use Rattle.std.specs.Prelude.{◌≡◌, IfOk, MatchResult, map};
ghost use Rattle.canvas_model.specs.Messages.{No};
ghost use Rattle.canvas_judge.specs.Reasons.{number_of};
ghost use Rattle.canvas_judge.specs.Seen.{seen_message};
ghost use Rattle.canvas_wire.specs.Text.{EncodesMessage};
ghost use Rattle.canvas_nodes.specs.Answers.{AreMessageTexts, IsAnswer, Replies, RepliesTexts, refusal_alone};

use crate::asked;
use canvas_judge::{Message, NoReason};
use canvas_wire::encode;
use std::alloc::{AllocError, Global};

/// What answers a client's messages.
pub trait Answerer {
    ghost use Rattle.std.specs.Prelude.{List};
    ghost use Rattle.canvas_model.specs.Messages as messages;
    ghost use Rattle.canvas_nodes.specs.Answers.{GivesTexts};

    /// What it may answer a message, and how it may stand afterwards.
    ghost gives: { Self → messages.Message → List messages.Message → Self → Type 0 };

    /// The messages that answer a Join, an edit or an Ask, in order. The last is a Welcome, an Idle or a No, and no other.
    ///
    /// Errors: out of memory.
    fn answer(&mut self, message: Message) -> Result<Vec<Message>, AllocError>
        ensures gives { IfOk result (λ answer. gives self.old (seen_message message) (map seen_message answer.items) self.new) }
        ensures whole { IfOk result (λ answer. IsAnswer (map seen_message answer.items)) };

    /// The texts of such messages, in order. As a rule each is written anew; an answerer may have some ready that many are sent.
    ///
    /// Errors: out of memory.
    fn texts(&mut self, alloc: Global, message: Message) -> Result<Vec<Vec<u8>>, AllocError>
        ensures { IfOk result (λ ts. GivesTexts gives self.old (seen_message message) (map (λ t. t.items) ts.items) self.new) }
    {
        let answer = self.answer(message)?;
        texts_of(alloc, &answer)
    }

    /// Called once what was answered has left. It is for what an answerer keeps that contracts don't see; as a rule it does nothing.
    fn sent(&mut self)
        ensures { self.new ≡ self.old }
    {}
}

/// The texts of what is answered to the bytes of a message: of what the answerer gives; or the reason of a No, NotRead where they are a
/// text of no message that a client sends, and `Memory` if memory runs out meanwhile.
pub fn answered<A: Answerer>(
    alloc: Global,
    answerer: &mut A,
    bytes: &[u8],
) -> Result<Vec<Vec<u8>>, NoReason>
    ensures { MatchResult result
        (λ ts. RepliesTexts A.gives answerer.old bytes.now (map (λ t. t.items) ts.items) answerer.new)
        (λ reason. Replies A.gives answerer.old bytes.now (refusal_alone reason) answerer.new) }
{
    match asked(alloc, bytes) {
        Ok(message) => match answerer.texts(alloc, message) {
            Ok(texts) => Ok(texts),
            Err(_) => Err(NoReason::Memory),
        },
        Err(reason) => Err(reason),
    }
}

/// The text of each of these messages. Errors: out of memory.
pub fn texts_of(alloc: Global, messages: &[Message]) -> Result<Vec<Vec<u8>>, AllocError>
    ensures { IfOk result (λ texts. AreMessageTexts (map (λ text. text.items) texts.items) (map seen_message messages.now)) }
{
    let mut texts = Vec::with_capacity(alloc, messages.len())?;
    for message in messages {
        let text = encode(alloc, message)?;
        texts.push(text)?;
    }
    Ok(texts)
}

/// The text of a No for this reason, a constant.
pub fn no_text(reason: NoReason) -> &'static [u8]
    ensures { EncodesMessage result.now (No (number_of reason)) }
{
    match reason {
        NoReason::Stranger => b"[\"no\",1]",
        NoReason::Repeat => b"[\"no\",2]",
        NoReason::Gap => b"[\"no\",3]",
        NoReason::Full => b"[\"no\",4]",
        NoReason::Device => b"[\"no\",5]",
        NoReason::Failed => b"[\"no\",6]",
        NoReason::Memory => b"[\"no\",7]",
        NoReason::TooLarge => b"[\"no\",8]",
        NoReason::NotRead => b"[\"no\",9]",
    }
}
