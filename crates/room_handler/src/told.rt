// Messages to a client whose entries share their texts.
ghost use Rattle.std.specs.Prelude.{◌≡◌, IfOk, map};
ghost use Rattle.canvas_judge.specs.Seen.{seen_message};
ghost use Rattle.canvas_wire.specs.Text.{EncodesMessage};
ghost use Rattle.canvas_nodes.specs.Answers.{AreMessageTexts};
ghost use Rattle.room_handler.specs.Told.{seen_told};

use canvas_forms::SharedEntry;
use canvas_judge::{Message, NoReason};
use canvas_wire::{encode, encode_entry_of};
use std::alloc::{AllocError, Global};

/// A message to a client. Contracts see it by `seen_told`.
#[derive(Drop)]
pub enum Told {
    /// An entry with its version.
    Entry {
        /// The version that the entry makes.
        version: u64,
        /// The entry, which shares its text.
        entry: SharedEntry,
    },
    /// Another message.
    Other(Message),
}

/// Returns the JSON text of each. Errors: out of memory.
pub fn told_texts(alloc: Global, told: &[Told]) -> Result<Vec<Vec<u8>>, AllocError>
    ensures { IfOk result (λ texts. AreMessageTexts (map (λ text. text.items) texts.items) (map seen_told told.now)) }
{
    let mut texts = Vec::with_capacity(alloc, told.len())?;
    for message in told {
        let text = told_text(alloc, message)?;
        texts.push(text)?;
    }
    Ok(texts)
}

// The JSON text of one: an entry's is put round the text that it shares.
fn told_text(alloc: Global, message: &Told) -> Result<Vec<u8>, AllocError>
    ensures { IfOk result (λ text. EncodesMessage text.items (seen_told message.now)) }
{
    match message {
        Told::Entry { version, entry } => encode_entry_of(alloc, *version, entry),
        Told::Other(message) => encode(alloc, message),
    }
}

/// Returns messages that share nothing: each entry is copied. Errors: out of memory.
pub fn messages_of(alloc: Global, told: Vec<Told>) -> Result<Vec<Message>, AllocError>
    ensures { IfOk result (λ messages. map seen_message messages.items ≡ map seen_told told.items) }
{
    let mut messages = Vec::with_capacity(alloc, told.len())?;
    for each in told {
        let message = message_of(alloc, each)?;
        messages.push(message)?;
    }
    Ok(messages)
}

// A message that shares nothing.
fn message_of(alloc: Global, told: Told) -> Result<Message, AllocError>
    ensures { IfOk result (λ message. seen_message message ≡ seen_told told) }
{
    match told {
        Told::Entry { version, entry } => {
            let entry = entry.entry().copy_in(alloc)?;
            Ok(Message::Entry { version, entry })
        }
        Told::Other(message) => Ok(message),
    }
}

/// Returns the reason of an answer that is a No alone.
pub(crate) fn told_refusal(told: &[Told]) -> Option<NoReason> {
    let [message] = told else {
        return None;
    };
    match message {
        Told::Other(Message::No(reason)) => Some(*reason),
        _ => None,
    }
}
