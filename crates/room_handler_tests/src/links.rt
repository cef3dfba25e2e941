//! A link that answers from a list, and keeps what was asked.
use canvas_judge::Message;
use canvas_nodes::{Link, LinkError};
use canvas_wire::{decode, encode};
use std::alloc::Global;
use std::test::Fail;

/// Answers each round by the next of these texts, one message a line, and ends when there are no more.
#[derive(Drop)]
pub struct Listed<'a> {
    alloc: Global,
    answers: &'a [&'static str],
    next: usize,
    /// The texts of what was asked, each with a line feed.
    pub asked: Vec<u8>,
}

impl<'a> Listed<'a> {
    /// A link over these answers.
    pub fn new(alloc: Global, answers: &'a [&'static str]) -> Listed<'a> {
        Listed {
            alloc,
            answers,
            next: 0,
            asked: Vec::new(alloc),
        }
    }
}

/// The message that a line spells.
pub fn message(alloc: Global, line: &str) -> Result<Message, LinkError> {
    decode(alloc, alloc, line.as_bytes()).map_err(|_| LinkError::NotRead)
}

/// The messages that these lines spell.
pub fn messages(alloc: Global, lines: &str) -> Result<Vec<Message>, LinkError> {
    let mut messages = Vec::new(alloc);
    for line in lines.lines() {
        messages.push(message(alloc, line)?)?;
    }
    Ok(messages)
}

impl<'a> Link for Listed<'a> {
    ghost gives = { λ _ _ _ _. Unit {0} };

    ghost fails = { λ _ _ _ _. Unit {0} };

    fn round(&mut self, message: Message) -> Result<Vec<Message>, LinkError> {
        let text = encode(self.alloc, &message)?;
        self.asked.extend_from_slice(&text)?;
        self.asked.push(b'\n')?;
        let Some(answer) = self.answers.get(self.next) else {
            return Err(LinkError::Ended);
        };
        self.next = self.next.saturating_add(1);
        messages(self.alloc, *answer)
    }
}
