//! What desks are asked, and what they have to answer.
use crate::batches::{Batch, all_answered};
use crate::crashes::versions_by;
use crate::desks::{Calls, MemDesk, answers};
use canvas_board::RoomName;
use canvas_desk::{Refusal, SubmitError};
use canvas_journal::KeepError;
use std::alloc::Global;
use std::sync::Wait;
use std::test::Fail;

/// What a desk is asked, and what it has to answer.
#[derive(Clone, Copy)]
pub enum Asked {
    /// Batches in turn, once client 1 has joined.
    Batches(&'static [Batch]),
    /// A Join, after which client 1 submits edits, and then a crash: the version of the receipt of the Join, and the version that is found
    /// after the crash.
    Crash(u64, u64),
}

/// Checks whether a desk with no entry answers so.
pub fn is_answered<N: RoomName, W: Wait>(
    rt: &W,
    alloc: Global,
    desk: &mut MemDesk<'_, N, W>,
    asked: &Asked,
) -> Result<bool, Fail> {
    match asked {
        Asked::Batches(batches) => all_answered(rt, alloc, desk, *batches),
        Asked::Crash(joined, found) => Ok(versions_by(rt, alloc, desk)? == (*joined, *found)),
    }
}

// A batch of edits in order, and two after them that aren't: one commit.
const ONE_COMMIT: Batch = Batch {
    client: 1,
    numbers: &[1, 2, 2, 4],
    answers: Ok(&[
        Ok(2),
        Ok(3),
        Err(SubmitError::Refused(Refusal::Repeat { done: 2 })),
        Err(SubmitError::Refused(Refusal::Gap { done: 2 })),
    ]),
    left: Some((Calls::OneCommit, 3)),
};

// A batch of a client that hasn't joined.
const NO_COMMIT: Batch = Batch {
    client: 2,
    numbers: &[1, 2],
    answers: Ok(&[
        Err(SubmitError::Refused(Refusal::Stranger)),
        Err(SubmitError::Refused(Refusal::Stranger)),
    ]),
    left: Some((Calls::Nothing, 1)),
};

// A batch at a device that fails.
const FAILS: Batch = Batch {
    client: 1,
    numbers: &[1],
    answers: Err(SubmitError::NotKept(KeepError::Device)),
    left: None,
};

// The same batch, once more.
const HAS_FAILED: Batch = Batch {
    client: 1,
    numbers: &[1],
    answers: Err(SubmitError::NotKept(KeepError::Failed)),
    left: None,
};

// What is tried, which call of the shelf fails, if one does, and what is asked.
const ROWS: &[(&str, Option<u64>, Asked)] = &[
    ("one commit", None, Asked::Batches(&[ONE_COMMIT])),
    ("no commit", None, Asked::Batches(&[NO_COMMIT])),
    (
        "a batch whose append fails",
        Some(7),
        Asked::Batches(&[FAILS, HAS_FAILED]),
    ),
    (
        "a batch whose sync fails",
        Some(8),
        Asked::Batches(&[FAILS, HAS_FAILED]),
    ),
    ("a crash", None, Asked::Crash(1, 3)),
    (
        "a crash, where the first append fails",
        Some(7),
        Asked::Crash(1, 1),
    ),
    (
        "a crash, where the first sync fails",
        Some(8),
        Asked::Crash(1, 1),
    ),
    (
        "a crash, where the second append fails",
        Some(9),
        Asked::Crash(1, 2),
    ),
    (
        "a crash, where the second sync fails",
        Some(10),
        Asked::Crash(1, 2),
    ),
];

#[test]
fn desks_answer(rt: HostRuntime) -> Result<(), Fail> {
    for (tried, failing, asked) in ROWS {
        if !answers(&rt, rt.alloc(), *failing, asked)? {
            return Err(Fail::from(*tried));
        }
    }
    Ok(())
}
