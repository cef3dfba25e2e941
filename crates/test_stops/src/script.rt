// Scripts of a journal.
use crate::lines::find;
use canvas_journal::{KeepError, Keeper};
use canvas_judge::Entry;
use canvas_wire::{decode_checkpoint, decode_entry, share_entry};
use std::alloc::Global;
use test_cases::Text;

/// A call of a journal.
#[derive(Clone, Copy)]
pub enum Step {
    Append,
    Sync,
    Checkpoint,
    Stage,
    Unstage,
    Commit,
}

/// The calls by the words for them.
pub const STEPS: [(&str, Step); 6] = [
    ("append", Step::Append),
    ("sync", Step::Sync),
    ("checkpoint", Step::Checkpoint),
    ("stage", Step::Stage),
    ("unstage", Step::Unstage),
    ("commit", Step::Commit),
];

// Adds what a call answers.
fn write_told(answer: Result<(), KeepError>, text: &mut Text) {
    match answer {
        Ok(()) => text.push_str(" ok"),
        Err(KeepError::Device) => text.push_str(" Device"),
        Err(KeepError::Failed) => text.push_str(" Failed"),
        Err(KeepError::TooLarge) => text.push_str(" TooLarge"),
        Err(KeepError::Memory) => text.refuse(),
    }
}

// What a journal answers where an entry is appended, or made ready.
fn take_in<K: Keeper>(
    alloc: Global,
    journal: &mut K,
    entry: Entry,
    is_staged: bool,
) -> Result<(), KeepError> {
    let entry = share_entry(alloc, entry)?;
    if is_staged {
        journal.stage(alloc, &entry)
    } else {
        journal.append(alloc, &entry)
    }
}

// Appends the entry that is written so, or makes it ready, and adds what that answers.
fn add_entry<K: Keeper>(
    alloc: Global,
    journal: &mut K,
    written: &str,
    is_staged: bool,
    text: &mut Text,
) {
    match decode_entry(alloc, alloc, written.as_bytes()) {
        Ok(entry) => write_told(take_in(alloc, journal, entry, is_staged), text),
        Err(_) => text.push_str(" unreadable"),
    }
}

// Makes the checkpoint that is written so, and adds what that answers.
fn checkpoint<K: Keeper>(alloc: Global, journal: &mut K, written: &str, text: &mut Text) {
    match decode_checkpoint(alloc, alloc, written.as_bytes()) {
        Ok((state, version)) => write_told(journal.checkpoint(alloc, &state, version), text),
        Err(_) => text.push_str(" unreadable"),
    }
}

// Makes the call of a line, and adds what it answers.
fn call<K: Keeper>(alloc: Global, journal: &mut K, line: &str, text: &mut Text) {
    let (word, written) = line.split_once(' ').unwrap_or((line, ""));
    match find(&STEPS, word) {
        Some(Step::Append) => add_entry(alloc, journal, written, false, text),
        Some(Step::Sync) => write_told(journal.sync(), text),
        Some(Step::Checkpoint) => checkpoint(alloc, journal, written, text),
        Some(Step::Stage) => add_entry(alloc, journal, written, true, text),
        Some(Step::Unstage) => {
            journal.unstage();
            text.push_str(" ok");
        }
        Some(Step::Commit) => write_told(journal.commit(), text),
        None => text.push_str(" unreadable"),
    }
}

/// Makes the calls of a script, and adds what each answers.
pub fn play<K: Keeper>(alloc: Global, journal: &mut K, script: &str, text: &mut Text) {
    for line in script.lines() {
        call(alloc, journal, line, text);
    }
}
