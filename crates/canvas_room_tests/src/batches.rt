//! What batches are answered, and what they do to the shelf.
use crate::desks::{Calls, MemDesk, are_told, calls_of, calls_since, pages};
use canvas_board::RoomName;
use canvas_desk::SubmitError;
use canvas_server::Request;
use std::alloc::Global;
use std::sync::Wait;
use std::test::Fail;

/// A batch of a client's edits with these numbers.
#[derive(Clone, Copy)]
pub struct Batch {
    pub client: u32,
    pub numbers: &'static [u64],
    /// What they are to be answered: the version of each receipt. Or why they aren't answered one by one.
    pub answers: Result<&'static [Result<u64, SubmitError>], SubmitError>,
    /// What calls of the shelf they are to make, and the version then, where that is asked.
    pub left: Option<(Calls, u64)>,
}

// Checks whether these requests are answered so in one batch.
fn are_answered<N: RoomName, W: Wait>(
    rt: &W,
    desk: &mut MemDesk<'_, N, W>,
    requests: &[Request],
    wanted: Result<&[Result<u64, SubmitError>], SubmitError>,
) -> bool {
    if requests.len() > 64 {
        return false;
    }
    match (desk.submit_many(rt, requests), wanted) {
        (Ok(answers), Ok(wanted)) => are_told(&answers, wanted),
        (Err(error), Err(wanted)) => error == wanted,
        _ => false,
    }
}

// Checks whether a batch is answered so, and leaves what it has to.
fn is_answered<N: RoomName, W: Wait>(
    rt: &W,
    alloc: Global,
    desk: &mut MemDesk<'_, N, W>,
    batch: &Batch,
) -> Result<bool, Fail> {
    let before = calls_of(desk);
    let requests = pages(alloc, batch.client, batch.numbers)?;
    let is_right = are_answered(rt, desk, &requests, batch.answers);
    let is_left = match batch.left {
        Some(left) => (calls_since(desk, before), desk.version()) == left,
        None => true,
    };
    Ok(is_right && is_left)
}

/// Checks whether batches in turn are answered so, once client 1 has joined.
pub fn all_answered<N: RoomName, W: Wait>(
    rt: &W,
    alloc: Global,
    desk: &mut MemDesk<'_, N, W>,
    batches: &[Batch],
) -> Result<bool, Fail> {
    desk.submit(rt, Request::Join)?;
    for batch in batches {
        if !is_answered(rt, alloc, desk, batch)? {
            return Ok(false);
        }
    }
    Ok(true)
}
