// Edits that were saved as messages, made again.
ghost use Rattle.std.specs.Prelude.{◌≡◌, ◌+◌, ◌<◌, IfErr, IfOk, OnErr, false, true};
ghost use Rattle.canvas_model.specs.Client.{last_number};
ghost use Rattle.canvas_client.specs.Placed.{MayAdd};
ghost use Rattle.canvas_embed.specs.Resuming.{HasMadeNext, HasResumed, IsGiven, IsResumeError, MayResume};
ghost use Rattle.canvas_embed.specs.declared.fault.ResumeError.TheVariants as resume;
ghost use Rattle.canvas_wire.specs.declared.fault.WireError.TheVariants as wire;

use crate::ResumeError;
use canvas_client::Client;
use canvas_doc::Change;
use canvas_judge::Message;
use canvas_wire::{WireError, decode};
use std::alloc::{AllocError, Global};

/// What became of an edit that was saved.
#[derive(Clone, Copy, Debug, PartialEq, Eq)]
pub enum Resumed {
    /// It is the client's last edit now.
    Made,
    /// The client had made an edit of this number already, and is unchanged.
    Had,
}

/// Makes an edit again by the bytes of its message, as [`edit_text`](crate::edit_text) has written them. The edit must be the client's own. If
/// its number is the next one it becomes the client's last edit, whatever the view shows; if it is a lower one nothing changes. An edit
/// that can be the next one, or that the client had, fails only if memory runs out. After each error the client is unchanged.
pub fn resume(alloc: Global, client: &mut Client, bytes: &[u8]) -> Result<Resumed, ResumeError>
    ensures ok { IfOk result (λ told. HasResumed client.old bytes.now told client.new) }
    ensures only_memory { MayResume client.old bytes.now → IfErr result (λ error. error ≡ resume.Message wire.Memory) }
    ensures fault { IfErr result (IsResumeError client.old bytes.now) }
    ensures err { OnErr result (client.new ≡ client.old) }
{
    let message: Message = match decode(alloc, alloc, bytes) {
        Ok(message) => message,
        Err(error) => return Err(ResumeError::Message(error)),
    };
    let Message::Edit {
        client: id,
        seq,
        change,
    } = &message
    else {
        return Err(ResumeError::NotAnEdit);
    };
    if client.id() != Some(*id) {
        return Err(ResumeError::NotOwn);
    }
    match beyond_last(client, *seq) {
        0 => Ok(Resumed::Had),
        1 => match resume_next(alloc, client, change) {
            Ok(true) => Ok(Resumed::Made),
            Ok(false) => Err(ResumeError::NotNext),
            Err(_) => Err(ResumeError::Message(WireError::Memory)),
        },
        _ => Err(ResumeError::Gap),
    }
}

// By how much a number is above that of the client's last edit, or 0 if it isn't.
fn beyond_last(client: &Client, number: u64) -> u64
    ensures had { result ≡ 0 → IsGiven client.now number }
    ensures next { result ≡ 1 → number ≡ last_number client.now + 1 }
    ensures gap { 1 < result → last_number client.now + 1 < number }
{
    number
        .saturating_sub(client.acknowledged())
        .saturating_sub(client.unacknowledged())
}

// Makes a copy of the change the next edit, if the client may add it, and returns whether it has.
fn resume_next(alloc: Global, client: &mut Client, change: &Change) -> Result<bool, AllocError>
    ensures made { IfOk result (λ made. made ≡ true → HasMadeNext client.old change.now client.new) }
    ensures no { IfOk result (λ made. made ≡ false → MayAdd client.old change.now → ⊥) }
    ensures unchanged { IfOk result (λ made. made ≡ false → client.new ≡ client.old) }
    ensures err { OnErr result (client.new ≡ client.old) }
{
    let change = change.copy_in(alloc)?;
    let number = client.resume(change)?;
    Ok(number.is_some())
}
