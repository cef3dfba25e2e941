//! Edits that are made again by their messages.
use crate::messages::WELCOME;
use crate::shows::{Number, Shown};
use crate::steps::{Step, first_wrong_step};
use canvas_client::Client;
use canvas_embed::{ResumeError, Resumed, resume};
use canvas_wire::WireError;
use std::alloc::Global;

/// An edit's message, and what must come of it.
#[derive(Clone, Copy)]
pub struct Resuming(&'static str, Result<Resumed, ResumeError>);

/// Checks whether the edit of this message is made again as it must be.
pub fn does_resume(alloc: Global, client: &mut Client, resuming: &Resuming) -> bool {
    resume(alloc, client, resuming.0.as_bytes()) == resuming.1
}

// Messages after a save of a client with three edits that wait.
const RESUMED: &[Step] = &[
    Step::Resume(Resuming(
        "[\"edit\",1,1,[\"delete\",[1,1]]]",
        Err(ResumeError::NotOwn),
    )),
    WELCOME,
    Step::Draw,
    Step::Reload,
    Step::Resume(Resuming("[\"edit\",1,5,[\"delete\",[1,1]]]", Err(ResumeError::Gap))),
    Step::Resume(Resuming("[\"edit\",1,3,[\"delete\",[1,1]]]", Ok(Resumed::Had))),
    Step::Resume(Resuming(
        "[\"edit\",2,4,[\"delete\",[1,1]]]",
        Err(ResumeError::NotOwn),
    )),
    Step::Resume(Resuming("[\"idle\"]", Err(ResumeError::NotAnEdit))),
    Step::Resume(Resuming("[\"edit\"", Err(ResumeError::Message(WireError::NotJson)))),
    Step::Resume(Resuming(
        "[\"edit\",1,4]",
        Err(ResumeError::Message(WireError::NotAMessage)),
    )),
    Step::Resume(Resuming(
        "[\"edit\",1,4,[\"create\",[1,5],\"page\",[[0,0],\"O\"]]]",
        Err(ResumeError::NotNext),
    )),
    Step::Show(Shown::Waiting(4, None)),
    Step::Resume(Resuming(
        "[\"edit\",1,4,[\"create\",[1,4],\"page\",[[0,0],\"O\"]]]",
        Ok(Resumed::Made),
    )),
    Step::Resume(Resuming("[\"edit\",1,5,[\"set\",[7,7],\"a\",1]]", Ok(Resumed::Made))),
    Step::Show(Shown::Waiting(5, Some("[\"edit\",1,5,[\"set\",[7,7],\"a\",1]]"))),
    Step::Show(Shown::Number(Number::Unacknowledged, Some(5))),
];

// The first of them, counted from 0, that isn't as it must be.
fn first_wrong_edit(alloc: Global) -> Option<usize> {
    first_wrong_step(alloc, RESUMED)
}

#[test]
fn edits_made_again(rt: HostRuntime) {
    assert_eq!(rt; first_wrong_edit(rt.alloc()), None);
}
