//! Messages that are received as bytes, what each may have changed, and the bytes of those that are sent.
use crate::shows::{Number, Shown};
use crate::steps::Step;
use canvas_client::{Client, Received};
use canvas_embed::{Heard, receive, receive_and_tell};
use canvas_judge::NoReason;
use canvas_wire::WireError;
use std::alloc::Global;

/// A message, and what the client must answer it.
#[derive(Clone, Copy)]
pub enum Hearing {
    /// What it is heard as.
    As(&'static str, Result<Heard, WireError>),
    /// Which objects it may have changed.
    Tells(&'static str, Result<&'static str, WireError>),
}

// Checks whether the bytes are the text that is wanted.
fn is_told(told: &[u8], wanted: Result<&str, WireError>) -> bool {
    match wanted {
        Ok(wanted) => told == wanted.as_bytes(),
        Err(_) => false,
    }
}

// Checks whether the client tells of this message that it may have changed these objects.
fn tells(
    alloc: Global,
    client: &mut Client,
    message: &str,
    wanted: Result<&str, WireError>,
) -> bool {
    match receive_and_tell(alloc, client, message.as_bytes()) {
        Ok((_, told)) => is_told(&told, wanted),
        Err(error) => wanted == Err(error),
    }
}

/// Checks whether the client hears this message as it must.
pub fn does_hear(alloc: Global, client: &mut Client, hearing: &Hearing) -> bool {
    match hearing {
        Hearing::As(message, wanted) => receive(alloc, client, message.as_bytes()) == *wanted,
        Hearing::Tells(message, wanted) => tells(alloc, client, *message, *wanted),
    }
}

/// The client is given the id 1.
pub const WELCOME: Step = Step::Hear(Hearing::As(
    "[\"welcome\",1]",
    Ok(Heard::Received(Received::Took)),
));

/// Messages that a new client hears.
pub const HEARD: &[Step] = &[
    Step::Hear(Hearing::As(
        "[\"entry\",1,[0,0,\"join\",[\"joined\",1]]]",
        Ok(Heard::Received(Received::NotForMe)),
    )),
    WELCOME,
    Step::Hear(Hearing::As("[\"welcome\",2]", Ok(Heard::Received(Received::Old)))),
    Step::Hear(Hearing::As("[\"ask\",1,0]", Ok(Heard::Received(Received::NotForMe)))),
    Step::Hear(Hearing::As(
        "[\"entry\",2,[0,0,\"join\",[\"joined\",2]]]",
        Ok(Heard::Received(Received::Ahead)),
    )),
    Step::Hear(Hearing::As(
        "[\"entry\",1,[0,0,\"join\",[\"joined\",1]]]",
        Ok(Heard::Received(Received::Took)),
    )),
    Step::Hear(Hearing::As("[\"idle\"]", Ok(Heard::Idle))),
    Step::Hear(Hearing::As("[\"no\",3]", Ok(Heard::No(NoReason::Gap)))),
    Step::Hear(Hearing::As("[\"no\",10]", Err(WireError::OutOfRange))),
    Step::Hear(Hearing::As("[\"no\"]", Err(WireError::NotAMessage))),
    Step::Hear(Hearing::As("[\"no\",3", Err(WireError::NotJson))),
    Step::Hear(Hearing::As("", Err(WireError::NotJson))),
    Step::Show(Shown::Number(Number::Id, Some(1))),
    Step::Show(Shown::Number(Number::Version, Some(1))),
];

/// What a client with a drawing tells of these messages, one after the other.
pub const TOLD: &[Step] = &[
    WELCOME,
    Step::Draw,
    Step::Hear(Hearing::Tells("[\"idle\"]", Ok("[]"))),
    Step::Hear(Hearing::Tells("[\"no\",3]", Ok("[]"))),
    Step::Hear(Hearing::Tells("[\"welcome\",2]", Ok("[]"))),
    Step::Hear(Hearing::Tells("[\"entry\",2,[0,0,\"join\",[\"joined\",2]]]", Ok("[]"))),
    Step::Hear(Hearing::Tells("[\"entry\",1,[0,0,\"join\",[\"joined\",2]]]", Ok("[]"))),
    Step::Hear(Hearing::Tells(
        "[\"entry\",2,[2,1,[\"create\",[2,1],\"page\",[[0,0],\"P\"]],[\"created\",[[0,0],\"P\"]]]]",
        Ok("[[2,1]]"),
    )),
    Step::Hear(Hearing::Tells(
        "[\"entry\",3,[2,2,[\"set\",[0,0],\"a\",1],[\"wasset\"]]]",
        Ok("[[0,0]]"),
    )),
    Step::Hear(Hearing::Tells(
        "[\"entry\",4,[2,3,[\"delete\",[2,1]],[\"removed\",[[2,1],[2,7]]]]]",
        Ok("[[2,1],[2,7]]"),
    )),
    Step::Hear(Hearing::Tells(
        "[\"entry\",5,[2,4,[\"move\",[0,0],[[1,1],\"O\"]],[\"moved\",[[1,1],\"O\"]]]]",
        Ok("null"),
    )),
    Step::Hear(Hearing::Tells("[\"copy\",9,0,[[[0,0],\"document\",null,[]]]]", Ok("null"))),
    Step::Hear(Hearing::Tells("[\"copy\",9,0,[[[0,0],\"document\",null,[]]]]", Ok("[]"))),
    Step::Hear(Hearing::Tells("[\"copy\"]", Err(WireError::NotAMessage))),
];

/// What a client sends: a Join, an Ask once it has an id, and its edits that wait, by their numbers.
pub const SENT: &[Step] = &[
    Step::Show(Shown::Join("[\"join\",2]")),
    Step::Show(Shown::Ask(None)),
    WELCOME,
    Step::Show(Shown::Ask(Some("[\"ask\",1,0]"))),
    Step::Draw,
    Step::Show(Shown::Waiting(0, None)),
    Step::Show(Shown::Waiting(
        1,
        Some("[\"edit\",1,1,[\"create\",[1,1],\"page\",[[0,0],\"O\"]]]"),
    )),
    Step::Show(Shown::Waiting(
        3,
        Some("[\"edit\",1,3,[\"create\",[1,3],\"shape\",[[1,2],\"O\"]]]"),
    )),
    Step::Show(Shown::Waiting(4, None)),
    Step::Show(Shown::Waiting(18446744073709551615, None)),
];
