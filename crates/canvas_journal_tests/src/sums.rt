// The sums of segments in a real folder.
use crate::calls::{Standing, Step, renew, watched};
use crate::documents::Access;
use disk_integrity::{CallCounts, ShelfCall, SumFault, check_sums, read_sums};
use std::fs;
use std::test::Fail;

// FIPS 180-4 has the SHA-256 of these two texts among its examples.
const FIRST: &[u8] = b"abc";

const BOTH: &[u8] = b"abcdbcdecdefdefgefghfghighijhijkijkljklmklmnlmnomnopnopq";

// The second text behind the first.
const REST: &[u8] = b"dbcdecdefdefgefghfghighijhijkijkljklmklmnlmnomnopnopq";

const FIRST_SUM: &[u8] = b"3 ba7816bf8f01cfea414140de5dae2223b00361a396177a9cb410ff61f20015ad\n";

const SUMS: &[u8] =
    b"3 ba7816bf8f01cfea414140de5dae2223b00361a396177a9cb410ff61f20015ad\n56 248d6a61d20638b8e5c026930c3e6039a33ce45964ff2167f6ecedd419db06c1\n";

// What was counted where these calls of the watched shelf of a new folder were all done, and no failure was noted.
fn written(
    rt: &HostRuntime,
    folder: &str,
    standing: Standing,
    calls: &[Step],
) -> Result<Option<CallCounts>, Fail> {
    renew(rt, folder, standing)?;
    let told = watched(rt, folder, Access::Writing, calls)?;
    let is_done = told.done == calls.len() && told.failures == 0;
    if is_done && told.before.is_none() && told.failed.is_none() {
        Ok(Some(told.counts))
    } else {
        Ok(None)
    }
}

// Checks whether these are the sums of a segment, or none can be read.
fn are_sums(rt: &HostRuntime, folder: &str, number: u32, sums: Option<&[u8]>) -> bool {
    match read_sums(rt, folder, number) {
        Ok(read) => sums == Some(read.as_slice()),
        Err(_) => sums.is_none(),
    }
}

// Checks whether a file holds these bytes.
fn is_file(rt: &HostRuntime, path: &str, bytes: &[u8]) -> Result<bool, Fail> {
    let read = fs::read(rt, path)?;
    Ok(read.as_slice() == bytes)
}

// A segment that is synced twice.
const TWICE: &[Step] = &[
    (ShelfCall::Create(7), b""),
    (ShelfCall::Append(7), FIRST),
    (ShelfCall::Sync(7), b""),
    (ShelfCall::Append(7), REST),
    (ShelfCall::Sync(7), b""),
    (ShelfCall::Read(7), BOTH),
];

#[test]
fn writes_a_line_for_each_sync(rt: HostRuntime) -> Result<(), Fail> {
    let counts = CallCounts {
        syncs: 2,
        bytes: 56,
        checkpoints: 1,
        checkpoint_bytes: 3,
        bytes_since: 53,
    };
    assert!(rt; written(&rt, "sums_lines", Standing::Nothing, TWICE)? == Some(counts));
    assert!(rt; are_sums(&rt, "sums_lines", 7, Some(SUMS)));
    // `tells_what_does_not_hold` checks these bytes too.
    assert!(rt; is_file(&rt, "sums_lines/segment-0000000007.sum", SUMS)?);
    Ok(())
}

// A segment, and another in its place.
const NEXT: &[Step] = &[
    (ShelfCall::Create(1), b""),
    (ShelfCall::Append(1), BOTH),
    (ShelfCall::Sync(1), b""),
    (ShelfCall::Create(2), b""),
    (ShelfCall::Append(2), FIRST),
    (ShelfCall::Sync(2), b""),
    (ShelfCall::Retire(1), b""),
];

#[test]
fn goes_on_in_a_new_file(rt: HostRuntime) -> Result<(), Fail> {
    assert!(rt; written(&rt, "sums_next", Standing::File, NEXT)?.is_some());
    assert!(rt; are_sums(&rt, "sums_next", 1, Some(b"")));
    assert!(rt; are_sums(&rt, "sums_next", 2, Some(FIRST_SUM)));
    Ok(())
}

// A segment beside one that was never synced.
const BESIDE: &[Step] = &[
    (ShelfCall::Create(1), b""),
    (ShelfCall::Append(1), FIRST),
    (ShelfCall::Create(2), b""),
    (ShelfCall::Append(2), FIRST),
    (ShelfCall::Sync(2), b""),
];

#[test]
fn a_failure_is_not_shown(rt: HostRuntime) -> Result<(), Fail> {
    // The file of the second segment's sums can't be made: the shelf goes on.
    assert!(rt; written(&rt, "sums_gone", Standing::Folder, BESIDE)?.is_some());
    assert!(rt; are_sums(&rt, "sums_gone", 2, None));
    Ok(())
}

// Segments, from which byte of the sums to which, and what is told of them.
const CHECKS: &[(&[u8], usize, usize, Result<usize, SumFault>)] = &[
    (BOTH, 0, 135, Ok(56)),
    (b"", 0, 135, Err(SumFault::Short { good: 0, named: 3 })),
    (FIRST, 0, 135, Err(SumFault::Short { good: 3, named: 56 })),
    (
        b"bcdbcdecdefdefgefghfghighijhijkijkljklmklmnlmnomnopnopq",
        0,
        135,
        Err(SumFault::Changed { good: 0, named: 3 }),
    ),
    (
        b"abcdbcdecdefdefgefghfghighijhijkijkljklmklmnlmnomnopnopr",
        0,
        135,
        Err(SumFault::Changed { good: 3, named: 56 }),
    ),
    (BOTH, 0, 66, Ok(0)),
    (BOTH, 0, 100, Ok(3)),
    (BOTH, 1, 135, Err(SumFault::Unreadable { good: 0 })),
    (BOTH, 66, 67, Err(SumFault::Unreadable { good: 0 })),
    (BOTH, 0, 0, Ok(0)),
];

// The first check of which something else is told.
fn first_other() -> Option<usize> {
    for (i, (segment, from, to, told)) in CHECKS.iter().enumerate() {
        let sums = SUMS.get(*from..*to).unwrap_or(b"");
        if check_sums(segment, sums) != *told {
            return Some(i);
        }
    }
    None
}

#[test]
fn tells_what_does_not_hold(rt: HostRuntime) -> Result<(), Fail> {
    assert_eq!(rt; first_other(), None);
    Ok(())
}
