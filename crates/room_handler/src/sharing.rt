// The texts of the answer to an Ask, with a copy out of one for many.
ghost use Rattle.std.specs.Prelude.{◌≡◌, ◌∷◌, [], ℕ, List, IfOk, IfSome, map};
ghost use Rattle.canvas_model.specs.Messages as messages;
ghost use Rattle.canvas_board.specs.Marks.{board};
ghost use Rattle.canvas_nodes.specs.Answers.{GivesTexts};
ghost use Rattle.canvas_wire.specs.Text.{EncodesMessage};
ghost use Rattle.net_outbox.specs.Texts.{text_bytes};
ghost use Rattle.room_handler.specs.Table.{Gives, SeesOn, TellsCopyAt};

use crate::asking::ask_told;
use crate::{SharedCopy, told_texts};
use canvas_board::RoomName;
use canvas_judge::Message;
use canvas_room::Seat;
use canvas_wire::encode;
use net_outbox::{Text, own_texts};
use std::alloc::{AllocError, Global};

/// Returns the texts of the answer to an Ask, whose copy, if any, is from [`copy_for`]. Never blocks. Errors: out of memory.
pub fn ask_texts<N: RoomName, D: Drop>(
    alloc: Global,
    seat: &mut Seat<N, D>,
    held: &mut Option<SharedCopy<N>>,
    least: u64,
    client: u32,
    version: u64,
) -> Result<Vec<Text>, AllocError>
    ensures gives { IfOk result (λ ts. GivesTexts (Gives N.opening) seat.old (messages.Ask client version) (map text_bytes ts.items) seat.new) }
    ensures sees { SeesOn N.opening seat.old seat.new }
{
    match copy_for(alloc, seat, held, least, client, version)? {
        Some((copy, _)) => with_idle(alloc, copy),
        None => texts_anew(alloc, seat, client, version),
    }
}

/// Returns the texts of the answer to an Ask out of the copy that is held, as `held_copy` does. Never blocks, and writes no copy. Errors: out of
/// memory.
pub fn held_texts<N: RoomName, D: Drop>(
    alloc: Global,
    seat: &mut Seat<N, D>,
    held: &Option<SharedCopy<N>>,
    least: u64,
    client: u32,
    version: u64,
) -> Result<Option<Vec<Text>>, AllocError>
    ensures gives { IfOk result (λ told. IfSome told (λ ts. GivesTexts (Gives N.opening) seat.old (messages.Ask client version) (map text_bytes ts.items) seat.new)) }
    ensures sees { SeesOn N.opening seat.old seat.new }
{
    match held_copy(alloc, seat, held, least, client, version)? {
        Some((copy, _)) => {
            let texts = with_idle(alloc, copy)?;
            Ok(Some(texts))
        }
        None => Ok(None),
    }
}

/// Returns the text of a copy for a client at this version, and the copy's version. The text shares its rows with other copies.
///
/// It is from `held`, if that is of version `least` or later, its floor is above the client's version, the client had joined by then, and
/// the seat hasn't seen more. Else a copy is made now and held. Returns `None` if the client needs entries, not a copy. Never blocks.
/// Errors: out of memory.
pub fn copy_for<N: RoomName, D: Drop>(
    alloc: Global,
    seat: &mut Seat<N, D>,
    held: &mut Option<SharedCopy<N>>,
    least: u64,
    client: u32,
    version: u64,
) -> Result<Option<(Text, u64)>, AllocError>
    ensures copy { IfOk result (λ told. IfSome told (λ copy. TellsCopyAt (board N.opening seat.new) client version (text_bytes copy.0) copy.1)) }
    ensures sees { SeesOn N.opening seat.old seat.new }
{
    match held_copy(alloc, seat, held, least, client, version)? {
        Some(copy) => Ok(Some(copy)),
        None => copy_now(alloc, seat, held, client, version),
    }
}

/// Returns the text for a client from the copy that is held, if that is of version `least` or later, and the copy's version. Returns `None` if it
/// has none for the client, or the seat has seen more. Never blocks, and writes no copy. Errors: out of memory.
pub fn held_copy<N: RoomName, D: Drop>(
    alloc: Global,
    seat: &mut Seat<N, D>,
    held: &Option<SharedCopy<N>>,
    least: u64,
    client: u32,
    version: u64,
) -> Result<Option<(Text, u64)>, AllocError>
    ensures copy { IfOk result (λ told. IfSome told (λ copy. TellsCopyAt (board N.opening seat.new) client version (text_bytes copy.0) copy.1)) }
    ensures sees { SeesOn N.opening seat.old seat.new }
{
    match held {
        Some(copy) if copy.version() >= least => copy_from(alloc, seat, copy, client, version),
        _ => Ok(None),
    }
}

// Returns the text for a client from a copy that is made now and held. Returns None if the client needs no copy.
fn copy_now<N: RoomName, D: Drop>(
    alloc: Global,
    seat: &mut Seat<N, D>,
    held: &mut Option<SharedCopy<N>>,
    client: u32,
    version: u64,
) -> Result<Option<(Text, u64)>, AllocError>
    ensures copy { IfOk result (λ told. IfSome told (λ copy. TellsCopyAt (board N.opening seat.new) client version (text_bytes copy.0) copy.1)) }
    ensures sees { SeesOn N.opening seat.old seat.new }
{
    if !wants_copy(alloc, seat, client, version)? {
        return Ok(None);
    }
    let copy = share(alloc, seat)?;
    let told = copy_from(alloc, seat, &copy, client, version)?;
    *held = Some(copy);
    Ok(told)
}

// Returns the text for a client from this copy. Returns None if it has none for the client, or the seat has seen more.
fn copy_from<N: RoomName, D: Drop>(
    alloc: Global,
    seat: &mut Seat<N, D>,
    copy: &SharedCopy<N>,
    client: u32,
    version: u64,
) -> Result<Option<(Text, u64)>, AllocError>
    ensures copy { IfOk result (λ told. IfSome told (λ copy. TellsCopyAt (board N.opening seat.new) client version (text_bytes copy.0) copy.1)) }
    ensures sees { SeesOn N.opening seat.old seat.new }
{
    let Some(text) = copy.text(alloc, client, version)? else {
        return Ok(None);
    };
    if !seat.go_to(copy.front()) {
        return Ok(None);
    }
    Ok(Some((text, copy.version())))
}

// Checks whether what is published has a copy for a client that asks from this version, and no entries.
fn wants_copy<N: RoomName, D: Drop>(
    alloc: Global,
    seat: &mut Seat<N, D>,
    client: u32,
    version: u64,
) -> Result<bool, AllocError>
    ensures { SeesOn N.opening seat.old seat.new }
{
    let Ok(true) = seat.joined(client) else {
        return Ok(false);
    };
    match seat.tail(alloc, version, 0) {
        Ok(tail) => Ok(tail.is_none()),
        // A seat keeps its room, so it is never closed.
        Err(_) => Err(AllocError),
    }
}

/// Returns a copy of what is published, for all that are sent it. Never blocks. Errors: out of memory.
pub fn share<N: RoomName, D: Drop>(
    alloc: Global,
    seat: &mut Seat<N, D>,
) -> Result<SharedCopy<N>, AllocError>
    ensures { SeesOn N.opening seat.old seat.new }
{
    match seat.snapshot(alloc) {
        Ok(snapshot) => SharedCopy::of(alloc, &snapshot),
        // A seat keeps its room, so it is never closed.
        Err(_) => Err(AllocError),
    }
}

/// Returns the texts of the answer to an Ask, which share nothing with other texts. Never blocks. Errors: out of memory.
pub(crate) fn texts_anew<N: RoomName, D: Drop>(
    alloc: Global,
    seat: &mut Seat<N, D>,
    client: u32,
    version: u64,
) -> Result<Vec<Text>, AllocError>
    ensures gives { IfOk result (λ ts. GivesTexts (Gives N.opening) seat.old (messages.Ask client version) (map text_bytes ts.items) seat.new) }
    ensures sees { SeesOn N.opening seat.old seat.new }
{
    let told = ask_told(alloc, seat, client, version)?;
    let texts = told_texts(alloc, &told)?;
    own_texts(alloc, texts)
}

// Returns the text of a copy, and then that of an Idle. Errors: out of memory.
fn with_idle(alloc: Global, copy: Text) -> Result<Vec<Text>, AllocError>
    ensures { IfOk result (λ ts. (idle : List ℕ) × EncodesMessage idle messages.Idle × (map text_bytes ts.items ≡ text_bytes copy ∷ idle ∷ [])) }
{
    let idle: Message = Message::Idle;
    let idle = Text::of(encode(alloc, &idle)?);
    Ok(Vec::from_array(alloc, [copy, idle])?)
}

/// Returns the bytes of each of these texts. Errors: out of memory.
pub(crate) fn bytes_of_each(alloc: Global, texts: &[Text]) -> Result<Vec<Vec<u8>>, AllocError>
    ensures { IfOk result (λ all. map (λ bytes. bytes.items) all.items ≡ map text_bytes texts.now) }
{
    let mut all = Vec::with_capacity(alloc, texts.len())?;
    for text in texts {
        all.push(bytes_of(alloc, text)?)?;
    }
    Ok(all)
}

// Returns the bytes of a text, with those that it shares. Errors: out of memory.
fn bytes_of(alloc: Global, text: &Text) -> Result<Vec<u8>, AllocError>
    ensures { IfOk result (λ bytes. bytes.items ≡ text_bytes text.now) }
{
    let mut bytes = Vec::from_slice(alloc, text.own())?;
    bytes.extend_from_slice(text.shared().as_slice())?;
    Ok(bytes)
}
