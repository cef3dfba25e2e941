//! Nodes that edit at once at seats of one room.
use crate::gates::{Counting, Meeting};
use crate::runs::{Edit, Ended, Ran, Work, ended};
use bumpalo::Bump;
use canvas_client::Client;
use canvas_desk::SubmitError;
use canvas_doc::Doc;
use canvas_journal::KeepError;
use canvas_threads::{Gate, NoGate};
use canvas_tree::{Tree, grow};
use std::alloc::{AllocError, Global};
use std::sync::Wait;
use std::test::Fail;
use std::thread::Threads;
use test_rooms::Bench;

// Checks whether the tree that the document has in the arena is this one.
fn is_tree_of(arena: &Bump, tree: &Tree, doc: &Doc) -> Result<bool, AllocError> {
    Ok(grow(arena, doc)?.same(tree))
}

// Checks whether this is the tree that the document has in an arena.
fn is_tree_in_arena(alloc: Global, tree: &Tree, doc: &Doc) -> Result<bool, AllocError> {
    let arena = Bump::new(alloc);
    is_tree_of(&arena, tree, doc)
}

// Checks whether two documents are the same, and the tree of the one in the machine's memory that of the other in an arena.
fn are_same(alloc: Global, one: &Doc, two: &Doc) -> Result<bool, AllocError> {
    let tree = grow(alloc, one)?;
    Ok(one.same(two) && is_tree_in_arena(alloc, &tree, two)?)
}

// Checks whether two clients are at this version, with the same documents and trees, and nothing waits at either.
fn agree(alloc: Global, one: &Client, two: &Client, version: u64) -> Result<bool, AllocError> {
    let are_there = one.version() == version && two.version() == version;
    let waiting = one.unacknowledged().max(two.unacknowledged());
    Ok(are_there && waiting == 0 && are_same(alloc, one.view(), two.view())?)
}

// Checks whether both of two clients are at the version of their room, which is this one, and agree.
fn are_two(alloc: Global, ended: &Ended, wanted: u64) -> Result<bool, AllocError> {
    let Ok(Ran { clients, version }) = ended else {
        return Ok(false);
    };
    let [one, two] = clients.as_slice() else {
        return Ok(false);
    };
    Ok(*version == wanted && agree(alloc, one, two, wanted)?)
}

// Checks whether two nodes that make three pages each agree with the room.
fn two_agree<R: Threads + Wait + AllocGlobal + Copy + Send + Sync + Drop, G: Gate + Sync>(
    rt: R,
    gate: &G,
) -> Result<bool, Fail> {
    let work = Work {
        lists: &[
            &[Edit::Page, Edit::Page, Edit::Page],
            &[Edit::Page, Edit::Page, Edit::Page],
        ],
        has_floor: false,
    };
    let ended = ended(rt, Bench::of(2), work, gate)?;
    Ok(are_two(rt.alloc(), &ended, 8)?)
}

#[test]
fn two_at_once(rt: HostRuntime) -> Result<(), Fail> {
    let gate = Meeting::new();
    assert!(rt; two_agree(rt, &gate)?);
    assert!(rt; gate.has_met());
    Ok(())
}

// Checks whether one of the clients has this id.
fn has_id(clients: &[Client], id: u32) -> bool {
    for client in clients {
        if client.id() == Some(id) {
            return true;
        }
    }
    false
}

// Checks whether the clients have the ids from 1 to 8.
fn have_ids(clients: &[Client]) -> bool {
    for id in 1..9 {
        if !has_id(clients, id) {
            return false;
        }
    }
    true
}

// Checks whether each client is at this version, and has one edit that is judged.
fn are_judged(clients: &[Client], version: u64) -> bool {
    for client in clients {
        if client.version() != version || client.acknowledged() != 1 {
            return false;
        }
    }
    true
}

// The edits of a node that makes one page.
const ONE_PAGE: &[Edit] = &[Edit::Page];

// Checks whether eight nodes that make one edit each get eight ids, and make 16 entries.
fn are_eight<R: Threads + Wait + AllocGlobal + Copy + Send + Sync + Drop>(
    rt: R,
) -> Result<bool, Fail> {
    let work = Work {
        lists: &[ONE_PAGE; 8],
        has_floor: false,
    };
    let Ok(Ran { clients, version }) = ended(rt, Bench::of(8), work, &NoGate)? else {
        return Ok(false);
    };
    Ok(version == 16 && clients.len() == 8 && have_ids(&clients) && are_judged(&clients, 16))
}

#[test]
fn eight_at_once(rt: HostRuntime) -> Result<(), Fail> {
    assert!(rt; are_eight(rt)?);
    Ok(())
}

// Checks whether nodes that make none, two and nine pages agree: those that are done first hear what the last publishes.
fn uneven_agree<R: Threads + Wait + AllocGlobal + Copy + Send + Sync + Drop>(
    rt: R,
) -> Result<bool, Fail> {
    let work = Work {
        lists: &[&[], &[Edit::Page; 2], &[Edit::Page; 9]],
        has_floor: false,
    };
    let Ok(Ran { clients, version }) = ended(rt, Bench::of(3), work, &NoGate)? else {
        return Ok(false);
    };
    let [one, two, three] = clients.as_slice() else {
        return Ok(false);
    };
    let alloc = rt.alloc();
    Ok(version == 14 && agree(alloc, one, two, 14)? && agree(alloc, one, three, 14)?)
}

#[test]
fn uneven_lists(rt: HostRuntime) -> Result<(), Fail> {
    assert!(rt; uneven_agree(rt)?);
    Ok(())
}

// The room's version after a run, and how many clients there are; or the error that it ends with.
fn counts<R: Threads + Wait + AllocGlobal + Copy + Send + Sync + Drop, G: Gate + Sync>(
    rt: R,
    bench: Bench,
    work: Work,
    gate: &G,
) -> Result<Result<(u64, usize), SubmitError>, Fail> {
    let ended = ended(rt, bench, work, gate)?;
    Ok(ended.map(|ran| (ran.version, ran.clients.len())))
}

#[test]
fn no_lists(rt: HostRuntime) -> Result<(), Fail> {
    let work = Work {
        lists: &[],
        has_floor: false,
    };
    assert_eq!(rt; counts(rt, Bench::of(2), work, &NoGate)?, Ok((0, 0)));
    Ok(())
}

#[test]
fn fails_once(rt: HostRuntime) -> Result<(), Fail> {
    let work = Work {
        lists: &[&[Edit::Page, Edit::Page], &[Edit::Page, Edit::Page]],
        has_floor: false,
    };
    for failing in [5, 10] {
        let bench = Bench { seats: 2, failing };
        let counts = counts(rt, bench, work, &NoGate)?;
        assert!(rt;
            matches!(
                counts,
                Err(SubmitError::NotKept(KeepError::Device | KeepError::Failed))
            ),
            "at {failing}"
        );
    }
    Ok(())
}

#[test]
fn refused_edit(rt: HostRuntime) -> Result<(), Fail> {
    let work = Work {
        lists: &[&[Edit::Page, Edit::Refused, Edit::Page]],
        has_floor: false,
    };
    let gate = Counting::new();
    assert_eq!(rt; counts(rt, Bench::of(1), work, &gate)?, Ok((3, 1)));
    assert_eq!(rt; gate.counts(), (2, 2, 3));
    Ok(())
}

// Checks whether a node that joins where a checkpoint has passed what came before takes the copy, and its edit lands on it.
fn copies<R: Threads + Wait + AllocGlobal + Copy + Send + Sync + Drop>(
    rt: R,
) -> Result<bool, Fail> {
    let work = Work {
        lists: &[&[Edit::Page]],
        has_floor: true,
    };
    let Ok(Ran { clients, .. }) = ended(rt, Bench::of(2), work, &NoGate)? else {
        return Ok(false);
    };
    Ok(clients.len() == 1 && clients[0].id() == Some(2) && are_judged(&clients, 3))
}

#[test]
fn below_the_floor(rt: HostRuntime) -> Result<(), Fail> {
    assert!(rt; copies(rt)?);
    Ok(())
}
