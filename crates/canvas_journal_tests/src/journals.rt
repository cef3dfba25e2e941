//! Journals in real folders.
use crate::bytes::{ABC, AFTER_JOIN, EMPTY, JOINED, JOINED_TWICE, OLD_JOINED};
use crate::documents::{is_file, is_there, renew, shelf_in, write};
use canvas_journal::{KeepError, Keeper, OpenError, open};
use canvas_judge::{Entry, Outcome, State, What};
use canvas_wire::share_entry;
use std::fs;
use std::test::Fail;

// What is asked of a keeper in a folder.
#[derive(Clone, Copy)]
enum Step {
    // The entry of a Join that gives this id is appended.
    Append(u32),
    // The entry of a Join that gives this id is made ready.
    Stage(u32),
    // The last entry that was made ready is dropped.
    Unstage,
    // All that is ready is appended and synced.
    Commit,
    // What was appended is synced.
    Sync,
    // A checkpoint of the first state is made.
    Checkpoint,
    // The folder is removed.
    Remove,
}

// A step, and what is answered to it.
type Answered = (Step, Result<(), KeepError>);

// What is told of a journal.
#[derive(Clone, Copy)]
struct Told {
    // The version at which it was opened.
    version: u64,
    // The first step that was answered otherwise, if one was.
    other: Option<usize>,
    // How many calls failed below.
    failures: u64,
}

// The entry of a Join that gives that id.
fn join(client: u32) -> Entry {
    Entry {
        author: 0,
        seq: 0,
        what: What::Join,
        outcome: Outcome::Joined(client),
    }
}

// What a keeper answers to a checkpoint of the first state.
fn checkpoint_first<K: Keeper>(rt: &HostRuntime, keeper: &mut K) -> Result<(), KeepError> {
    match State::new(rt.alloc()) {
        Ok(state) => keeper.checkpoint(rt.alloc(), &state, 0),
        Err(_) => Err(KeepError::Memory),
    }
}

// What a keeper answers where the entry of a Join that gives this id is appended, or made ready.
fn take_in<K: Keeper>(
    rt: &HostRuntime,
    keeper: &mut K,
    client: u32,
    is_staged: bool,
) -> Result<(), KeepError> {
    let entry = share_entry(rt.alloc(), join(client))?;
    if is_staged {
        keeper.stage(rt.alloc(), &entry)
    } else {
        keeper.append(rt.alloc(), &entry)
    }
}

// What a keeper answers to a step.
fn answer<K: Keeper>(
    rt: &HostRuntime,
    folder: &str,
    keeper: &mut K,
    step: Step,
) -> Result<(), KeepError> {
    match step {
        Step::Append(client) => take_in(rt, keeper, client, false),
        Step::Stage(client) => take_in(rt, keeper, client, true),
        Step::Unstage => {
            keeper.unstage();
            Ok(())
        }
        Step::Commit => keeper.commit(),
        Step::Sync => keeper.sync(),
        Step::Checkpoint => checkpoint_first(rt, keeper),
        Step::Remove => fs::remove_dir_all(rt, folder).map_err(|_| KeepError::Failed),
    }
}

// The first of these steps that a keeper answers otherwise.
fn first_other<K: Keeper>(
    rt: &HostRuntime,
    folder: &str,
    keeper: &mut K,
    steps: &[Answered],
) -> Option<usize> {
    for (i, (step, wanted)) in steps.iter().enumerate() {
        if answer(rt, folder, keeper, *step) != *wanted {
            return Some(i);
        }
    }
    None
}

// What is told of a keeper that was opened at this version, after these steps.
fn play<K: Keeper>(
    rt: &HostRuntime,
    folder: &str,
    keeper: &mut K,
    version: u64,
    steps: &[Answered],
) -> Told {
    let other = first_other(rt, folder, keeper, steps);
    Told {
        version,
        other,
        failures: keeper.failures(),
    }
}

// What is told of the journal in a folder after these steps, or why it isn't opened.
fn kept(
    rt: &HostRuntime,
    folder: &str,
    steps: &[Answered],
) -> Result<Result<Told, OpenError>, Fail> {
    match open(rt.alloc(), shelf_in(rt, folder)?) {
        Ok((mut journal, _, version)) => Ok(Ok(play(rt, folder, &mut journal, version, steps))),
        Err((_, error)) => Ok(Err(error)),
    }
}

// The version at which a folder is opened, or why it isn't.
fn opened(rt: &HostRuntime, folder: &str) -> Result<Result<u64, OpenError>, Fail> {
    let found = kept(rt, folder, &[])?;
    Ok(found.map(|told| told.version))
}

// Checks whether the journal in a folder answers these steps so, and then so many calls have failed.
fn keeps(rt: &HostRuntime, folder: &str, steps: &[Answered], failures: u64) -> Result<bool, Fail> {
    match kept(rt, folder, steps)? {
        Ok(told) => Ok(told.other.is_none() && told.failures == failures),
        Err(_) => Ok(false),
    }
}

// Checks whether a folder is opened at version 1, and then holds the checkpoint after the first Join in this segment alone.
fn reopens(rt: &HostRuntime, folder: &str, number: u32, name: &str) -> Result<bool, Fail> {
    let found = opened(rt, folder)?;
    let is_alone = is_there(rt, folder, &[(number, AFTER_JOIN)])?;
    Ok(found == Ok(1) && is_alone && is_file(rt, folder, name, AFTER_JOIN)?)
}

#[test]
fn opened_new(rt: HostRuntime) -> Result<(), Fail> {
    let folder = "journal-new";
    renew(&rt, folder)?;
    assert_eq!(rt; opened(&rt, folder)?, Ok(0));
    assert!(rt; is_file(&rt, folder, "segment-0000000001", EMPTY)?);
    let _ = fs::remove_dir_all(&rt, folder);
    Ok(())
}

#[test]
fn opened_again(rt: HostRuntime) -> Result<(), Fail> {
    let folder = "journal-again";
    renew(&rt, folder)?;
    let steps: &[Answered] = &[(Step::Append(1), Ok(())), (Step::Sync, Ok(()))];
    assert!(rt; keeps(&rt, folder, steps, 0)?);
    assert!(rt; is_file(&rt, folder, "segment-0000000001", JOINED)?);
    assert!(rt; reopens(&rt, folder, 2, "segment-0000000002")?);
    assert!(rt; reopens(&rt, folder, 3, "segment-0000000003")?);
    let _ = fs::remove_dir_all(&rt, folder);
    Ok(())
}

// Checks whether a folder whose first segment is these bytes, cut to so many, is opened at that version, and then holds this segment alone.
fn opens_cut(
    rt: &HostRuntime,
    folder: &str,
    bytes: &[u8],
    size: usize,
    version: u64,
    then: &[u8],
) -> Result<bool, Fail> {
    renew(rt, folder)?;
    write(
        rt,
        folder,
        "segment-0000000001",
        bytes.get(..size).unwrap_or(&[]),
    )?;
    Ok(opened(rt, folder)? == Ok(version) && is_there(rt, folder, &[(2, then)])?)
}

// The first of these sizes to which the first segment is cut and not passed over.
fn first_taken(
    rt: &HostRuntime,
    folder: &str,
    bytes: &[u8],
    sizes: &[usize],
) -> Result<Option<usize>, Fail> {
    for size in sizes {
        if !opens_cut(rt, folder, bytes, *size, 0, EMPTY)? {
            return Ok(Some(*size));
        }
    }
    Ok(None)
}

#[test]
fn cut(rt: HostRuntime) -> Result<(), Fail> {
    let folder = "journal-cut";
    let sizes: &[usize] = &[0, 3, 26, 27, 30, 56, 57, 60, 85];
    assert_eq!(rt; first_taken(&rt, folder, JOINED, sizes)?, None);
    assert!(rt; opens_cut(&rt, folder, JOINED, 86, 1, AFTER_JOIN)?);
    let sizes: &[usize] = &[0, 3, 53, 54, 57, 82];
    assert_eq!(rt; first_taken(&rt, folder, OLD_JOINED, sizes)?, None);
    assert!(rt; opens_cut(&rt, folder, OLD_JOINED, 83, 1, AFTER_JOIN)?);
    let _ = fs::remove_dir_all(&rt, folder);
    Ok(())
}

#[test]
fn torn(rt: HostRuntime) -> Result<(), Fail> {
    let folder = "journal-torn";
    renew(&rt, folder)?;
    write(&rt, folder, "segment-0000000001", OLD_JOINED)?;
    write(
        &rt,
        folder,
        "segment-0000000002",
        AFTER_JOIN.get(..61).unwrap_or(&[]),
    )?;
    assert_eq!(rt; opened(&rt, folder)?, Ok(1));
    assert!(rt; is_there(&rt, folder, &[(3, AFTER_JOIN)])?);
    let _ = fs::remove_dir_all(&rt, folder);
    Ok(())
}

#[test]
fn damaged(rt: HostRuntime) -> Result<(), Fail> {
    let folder = "journal-damaged";
    renew(&rt, folder)?;
    write(&rt, folder, "segment-0000000007", ABC)?;
    let damage = OpenError::Damaged {
        segment: 7,
        offset: 0,
    };
    assert_eq!(rt; opened(&rt, folder)?, Err(damage));
    assert!(rt; is_there(&rt, folder, &[(7, ABC)])?);
    let _ = fs::remove_dir_all(&rt, folder);
    Ok(())
}

// A Join is made ready, one more is dropped, a commit, one is appended, and a sync.
const KEPT: &[Answered] = &[
    (Step::Stage(1), Ok(())),
    (Step::Stage(9), Ok(())),
    (Step::Unstage, Ok(())),
    (Step::Commit, Ok(())),
    (Step::Append(2), Ok(())),
    (Step::Sync, Ok(())),
];

// A keeper whose folder is gone tells so at a checkpoint, and then that it has failed.
const GONE: &[Answered] = &[
    (Step::Remove, Ok(())),
    (Step::Checkpoint, Err(KeepError::Device)),
    (Step::Sync, Err(KeepError::Failed)),
];

#[test]
fn as_any_keeper(rt: HostRuntime) -> Result<(), Fail> {
    let folder = "journal-keeper";
    renew(&rt, folder)?;
    assert!(rt; keeps(&rt, folder, KEPT, 0)?);
    assert!(rt; is_there(&rt, folder, &[(1, JOINED_TWICE)])?);
    assert!(rt; keeps(&rt, folder, GONE, 1)?);
    let _ = fs::remove_dir_all(&rt, folder);
    Ok(())
}
