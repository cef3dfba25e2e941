//! Edits that are judged before they are submitted.
use crate::desks::pages;
use crate::records::Recorded;
use crate::seats::{join_by, joins_ahead};
use canvas_board::RoomName;
use canvas_desk::{Refusal, SubmitError};
use canvas_journal::Keeper;
use canvas_room::Room;
use canvas_server::Request;
use std::alloc::Global;
use std::sync::Wait;
use std::test::Fail;
use test_rooms::{Bench, RoomTest, SeatOf, told_in_memory};

// The versions of the receipts of client 1's edits, or why they are refused.
type Answers = &'static [Result<u64, SubmitError>];

// Checks whether a seat gives requests receipts of these versions, which it learns, or refuses them for these reasons.
fn are_answered<K: Keeper + Drop, N: RoomName, Q: Wait + Drop, W: Wait>(
    rt: &W,
    seat: &mut SeatOf<K, N, Q>,
    requests: Vec<Request>,
    answers: Answers,
) -> bool {
    for (request, wanted) in requests.into_iter().zip(answers) {
        let answer = match seat.submit(rt, request) {
            Ok(receipt) => {
                let version = receipt.version();
                seat.learn(receipt);
                Ok(version)
            }
            Err(error) => Err(error),
        };
        if answer != *wanted {
            return false;
        }
    }
    true
}

// After client 1 has joined, has its edits of these numbers judged ahead, and then submits some. Returns whether their receipts and errors are
// these, and how often the shelf was synced for all of them.
#[derive(Clone, Copy)]
struct Ahead {
    judged: &'static [u64],
    submitted: &'static [u64],
    answers: Answers,
}

impl<K: Keeper + Recorded + Drop> RoomTest<K> for Ahead {
    type Told = (bool, usize);

    fn ask<N: RoomName, Q: Wait + Drop, W: Wait>(
        &self,
        rt: &W,
        alloc: Global,
        room: &Room<K, N, Q>,
        seats: &mut [SeatOf<K, N, Q>],
    ) -> Result<(bool, usize), Fail> {
        let Some(seat) = seats.first_mut() else {
            return Ok((false, 0));
        };
        let has_joined = join_by(rt, seat) == Ok(Some(1));
        let before = room.desk(rt).keeper().sync_count();
        seat.judge_ahead(rt, pages(alloc, 1, self.judged)?);
        let submitted = pages(alloc, 1, self.submitted)?;
        let are_right = are_answered(rt, seat, submitted, self.answers);
        let syncs = room.desk(rt).keeper().sync_count().saturating_sub(before);
        Ok((has_joined && are_right, syncs))
    }
}

const REPEAT: Result<u64, SubmitError> = Err(SubmitError::Refused(Refusal::Repeat { done: 3 }));

// What is tried, and how often the shelf is synced.
const ROWS: &[(&str, Ahead, usize)] = &[
    (
        "in their order",
        Ahead {
            judged: &[1, 2, 3],
            submitted: &[1, 2, 3, 4],
            answers: &[Ok(2), Ok(3), Ok(4), Ok(5)],
        },
        2,
    ),
    (
        "not in their order",
        Ahead {
            judged: &[1, 2, 3],
            submitted: &[2, 1, 3],
            answers: &[REPEAT, REPEAT, REPEAT],
        },
        1,
    ),
    (
        "behind one that was judged before",
        Ahead {
            judged: &[1, 1, 2],
            submitted: &[1, 1, 2],
            answers: &[
                Ok(2),
                Err(SubmitError::Refused(Refusal::Repeat { done: 2 })),
                Err(SubmitError::Refused(Refusal::Repeat { done: 2 })),
            ],
        },
        1,
    ),
    (
        "none",
        Ahead {
            judged: &[],
            submitted: &[1, 2],
            answers: &[Ok(2), Ok(3)],
        },
        2,
    ),
];

// Has this number of Joins judged ahead. Returns whether their seat gets the first ids, and how often the shelf was synced for them.
#[derive(Clone, Copy)]
struct Joins(u32);

impl<K: Keeper + Recorded + Drop> RoomTest<K> for Joins {
    type Told = (bool, usize);

    fn ask<N: RoomName, Q: Wait + Drop, W: Wait>(
        &self,
        rt: &W,
        alloc: Global,
        room: &Room<K, N, Q>,
        seats: &mut [SeatOf<K, N, Q>],
    ) -> Result<(bool, usize), Fail> {
        let Some(seat) = seats.first_mut() else {
            return Ok((false, 0));
        };
        let before = room.desk(rt).keeper().sync_count();
        let are_first = joins_ahead(rt, alloc, seat, self.0) == Some(1);
        let syncs = room.desk(rt).keeper().sync_count().saturating_sub(before);
        Ok((are_first, syncs))
    }
}

// How many Joins are judged ahead, and how often the shelf is synced: the first 64 are one batch.
const RUNS: &[(u32, usize)] = &[(1, 1), (64, 1), (65, 2), (70, 7)];

#[test]
fn runs(rt: HostRuntime) -> Result<(), Fail> {
    for (count, syncs) in RUNS {
        let told = told_in_memory(rt, rt.alloc(), Bench::of(1), &Joins(*count))?;
        assert_eq!(rt; told, (true, *syncs), "{count}");
    }
    Ok(())
}

#[test]
fn edits(rt: HostRuntime) -> Result<(), Fail> {
    for (tried, ahead, syncs) in ROWS {
        let told = told_in_memory(rt, rt.alloc(), Bench::of(1), ahead)?;
        assert_eq!(rt; told, (true, *syncs), "{tried}");
    }
    Ok(())
}
