// Messages as bytes.
ghost use Rattle.std.specs.Prelude.{◌≡◌, ◌<◌, ◌≤◌, IfOk, IfErr, IfSome, IfNone, OnErr, None, length};
ghost use Rattle.canvas_model.specs.Messages.{Join};
ghost use Rattle.canvas_wire.specs.Text.{EncodesMessage, IsMessageError};
ghost use Rattle.canvas_embed.specs.Changed.{TellsChanges};
ghost use Rattle.canvas_embed.specs.Messages.{HasHeard, IsAskText, IsEditText};

use crate::Heard;
use crate::changed::changed_text;
use crate::heard::tell;
use crate::ids::ids_text;
use canvas_client::{Client, Received};
use canvas_judge::Message;
use canvas_wire::{WireError, decode, encode};
use std::alloc::{AllocError, Global};

/// Receives a message by its bytes, and tells what was heard. The errors are those of bytes that are a text of no message, and
/// `Memory`; after each the client is unchanged.
pub fn receive(alloc: Global, client: &mut Client, bytes: &[u8]) -> Result<Heard, WireError>
    ensures ok { IfOk result (λ heard. HasHeard client.old bytes.now heard client.new) }
    ensures fault { IfErr result (IsMessageError bytes.now) }
    ensures err { OnErr result (client.new ≡ client.old) }
{
    let message = match decode(alloc, alloc, bytes) {
        Ok(message) => message,
        Err(error) => return Err(error),
    };
    match client.receive(&message) {
        Ok(received) => Ok(tell(&message, received)),
        Err(_) => Err(WireError::Memory),
    }
}

/// Receives a message as [`receive`] does, and tells beside it which objects of the view that may have changed: the bytes are the JSON
/// of their ids, `[[1,2],..]`, each a client and a counter, and the object itself may be new or gone; or they are `null`, and any
/// may have changed. An entry names the object that it is of, or those that it removes; a copy, or an entry that moves or removes the
/// root, which no server tells, names any; whatever the client doesn't take names none. The errors are those of `receive`.
pub fn receive_and_tell(
    alloc: Global,
    client: &mut Client,
    bytes: &[u8],
) -> Result<(Heard, Vec<u8>), WireError>
    ensures ok { IfOk result (λ told. HasHeard client.old bytes.now told.0 client.new) }
    ensures changed { IfOk result (λ told. TellsChanges told.1.items client.old.view client.new.view) }
    ensures fault { IfErr result (IsMessageError bytes.now) }
    ensures err { OnErr result (client.new ≡ client.old) }
{
    let message = match decode(alloc, alloc, bytes) {
        Ok(message) => message,
        Err(error) => return Err(error),
    };
    // Both texts are made before the client changes, as memory may be refused.
    let Ok(changed) = changed_text(alloc, &message) else {
        return Err(WireError::Memory);
    };
    let Ok(nothing) = ids_text(alloc, &[]) else {
        return Err(WireError::Memory);
    };
    let Ok(received) = client.receive(&message) else {
        return Err(WireError::Memory);
    };
    let heard = tell(&message, received);
    match received {
        Received::Took => Ok((heard, changed)),
        _ => Ok((heard, nothing)),
    }
}

/// The text of a Join. Errors: out of memory.
pub fn join_text(alloc: Global) -> Result<Vec<u8>, AllocError>
    ensures { IfOk result (λ text. EncodesMessage text.items Join) }
{
    let message: Message = Client::join_message();
    encode(alloc, &message)
}

/// The text with which the client asks for what came after its version; none while it has no id. Errors: out of memory.
pub fn ask_text(alloc: Global, client: &Client) -> Result<Option<Vec<u8>>, AllocError>
    ensures some { IfOk result (λ made. IfSome made (λ text. IsAskText client.now text.items)) }
    ensures none { IfOk result (λ made. IfNone made (client.now.id ≡ None)) }
{
    match client.ask_message() {
        Some(message) => Ok(Some(encode(alloc, &message)?)),
        None => Ok(None),
    }
}

/// The text of the i-th of the edits that wait, counted from 1; none where so many don't wait. Errors: out of memory.
pub fn edit_text(alloc: Global, client: &Client, i: u64) -> Result<Option<Vec<u8>>, AllocError>
    ensures some { IfOk result (λ made. IfSome made (λ text. IsEditText client.now i text.items)) }
    ensures none { IfOk result (λ made. IfNone made (0 < i → i ≤ length client.now.waiting → ⊥)) }
{
    if i == 0 || i > client.unacknowledged() {
        return Ok(None);
    }
    let message = client.message(alloc, i)?;
    Ok(Some(encode(alloc, &message)?))
}
