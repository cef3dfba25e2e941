//! Steps of a client, each with what it must answer, and how a list of them is played.
use crate::edits::{Edit, does_edit};
use crate::ids::{FRAME, PAGE};
use crate::messages::{Hearing, does_hear};
use crate::places::{Placed, does_place};
use crate::resumes::{Resuming, does_resume};
use crate::shows::{Shown, does_show};
use canvas_client::Client;
use canvas_doc::ObjId;
use canvas_embed::{create, load, save};
use std::alloc::Global;

/// What is done with a client, and what must come of it.
#[derive(Clone, Copy)]
pub enum Step {
    /// A page, a frame in it and a shape in that are created.
    Draw,
    /// So many frames are created in the page, one in another.
    Nest(u32),
    /// What the client is saved as takes its place.
    Reload,
    /// A message is heard.
    Hear(Hearing),
    /// An edit is made.
    Edit(Edit),
    /// An edit is made at a place that is named, or at an end.
    Place(Placed),
    /// An edit is made again by its message.
    Resume(Resuming),
    /// The client shows something.
    Show(Shown),
}

// Creates frames, one in another.
fn nest(client: &mut Client, frames: u32, within: ObjId) -> bool {
    let mut at = within;
    for _ in 0..frames {
        match create(client, 2, at, None) {
            Ok((_, frame)) => at = frame,
            Err(_) => return false,
        }
    }
    true
}

// Creates a page, a frame in it and a shape in that.
fn draw(client: &mut Client) -> bool {
    create(client, 1, ObjId::ROOT, None).is_ok()
        && create(client, 2, PAGE, None).is_ok()
        && create(client, 3, FRAME, None).is_ok()
}

// What the client is saved as, loaded.
fn loaded(alloc: Global, client: &Client) -> Option<Client> {
    match save(alloc, client) {
        Ok(saved) => load(alloc, &saved).ok(),
        Err(_) => None,
    }
}

// Puts that in the client's place.
fn reload(alloc: Global, client: &mut Client) -> bool {
    match loaded(alloc, client) {
        Some(loaded) => {
            *client = loaded;
            true
        }
        None => false,
    }
}

// Checks whether the client does this step as it must.
fn does(alloc: Global, client: &mut Client, step: &Step) -> bool {
    match step {
        Step::Draw => draw(client),
        Step::Nest(frames) => nest(client, *frames, PAGE),
        Step::Reload => reload(alloc, client),
        Step::Hear(hearing) => does_hear(alloc, client, hearing),
        Step::Edit(edit) => does_edit(alloc, client, edit),
        Step::Place(placed) => does_place(alloc, client, placed),
        Step::Resume(resuming) => does_resume(alloc, client, resuming),
        Step::Show(shown) => does_show(alloc, client, shown),
    }
}

// The first of these steps that this client doesn't do as it must.
fn first_wrong_step_of(alloc: Global, client: &mut Client, steps: &[Step]) -> Option<usize> {
    for (i, step) in steps.iter().enumerate() {
        if !does(alloc, client, step) {
            return Some(i);
        }
    }
    None
}

/// The first of these steps, counted from 0, that a new client doesn't do as it must.
pub fn first_wrong_step(alloc: Global, steps: &[Step]) -> Option<usize> {
    match Client::new(alloc) {
        Ok(mut client) => first_wrong_step_of(alloc, &mut client, steps),
        Err(_) => Some(0),
    }
}
