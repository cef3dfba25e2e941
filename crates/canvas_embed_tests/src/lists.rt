//! The lists of what is tried, each with its name.
use crate::edits::{CREATIONS, DEPTH, MOVES, PROPERTIES};
use crate::messages::{HEARD, SENT, TOLD};
use crate::places::{ENDS, PLACES};
use crate::saves::{NO_CLIENTS, Row as ClientRow, SAVED, SAVED_VALUES, first_wrong_client};
use crate::shows::OBJECTS;
use crate::steps::{Step, first_wrong_step};
use crate::values::{Row as ValueRow, VALUES, first_wrong_value};
use std::alloc::Global;

// A list of what is tried.
#[derive(Clone, Copy)]
enum List {
    // Steps of a new client.
    Steps(&'static [Step]),
    // Texts that are no clients.
    Clients(&'static [ClientRow]),
    // Texts that are values, and others.
    Values(&'static [ValueRow]),
}

// The first row of a list that isn't as it must be.
fn first_wrong(alloc: Global, list: List) -> Option<usize> {
    match list {
        List::Steps(steps) => first_wrong_step(alloc, steps),
        List::Clients(rows) => first_wrong_client(alloc, rows),
        List::Values(rows) => first_wrong_value(alloc, rows),
    }
}

// Each list with its name.
const LISTS: &[(&str, List)] = &[
    ("messages that are heard", List::Steps(HEARD)),
    ("what they may have changed", List::Steps(TOLD)),
    ("messages that are sent", List::Steps(SENT)),
    ("objects", List::Steps(OBJECTS)),
    ("creations", List::Steps(CREATIONS)),
    ("properties", List::Steps(PROPERTIES)),
    ("moves and deletions", List::Steps(MOVES)),
    ("depth", List::Steps(DEPTH)),
    ("places", List::Steps(PLACES)),
    ("ends", List::Steps(ENDS)),
    ("saved clients", List::Steps(SAVED)),
    ("saved values", List::Steps(SAVED_VALUES)),
    ("texts that are no clients", List::Clients(NO_CLIENTS)),
    ("values", List::Values(VALUES)),
];

// The first list in which a row isn't as it must be, and that row, counted from 0.
fn first_wrong_list(
    alloc: Global,
    lists: &[(&'static str, List)],
) -> Option<(&'static str, usize)> {
    for (name, list) in lists {
        if let Some(row) = first_wrong(alloc, *list) {
            return Some((*name, row));
        }
    }
    None
}

// The same of all lists.
fn first_wrong_of_all(alloc: Global) -> Option<(&'static str, usize)> {
    first_wrong_list(alloc, LISTS)
}

#[test]
fn lists(rt: HostRuntime) {
    assert_eq!(rt; first_wrong_of_all(rt.alloc()), None);
}
