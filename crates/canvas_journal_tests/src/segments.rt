//! Shelves in real folders.
use crate::documents::{Access, Call, is_there, played, renew, write};
use crate::folders::why_not;
use std::fs;
use std::test::Fail;

// A segment's life, and what is there after each call.
const LIFE: &[Call] = &[
    Call::Holds(&[]),
    Call::Create(1),
    Call::Holds(&[(1, b"")]),
    Call::Append(1, b"abc"),
    Call::Holds(&[(1, b"abc")]),
    Call::Sync(1),
    Call::Append(1, &[0, 255]),
    Call::Holds(&[(1, b"abc\x00\xff")]),
    Call::Create(4294967295),
    Call::Holds(&[(4294967295, b""), (1, b"abc\x00\xff")]),
    Call::Retire(1),
    Call::Holds(&[(4294967295, b"")]),
];

#[test]
fn opened_after_each_call(rt: HostRuntime) -> Result<(), Fail> {
    let folder = "shelf-after-each-call";
    renew(&rt, folder)?;
    for call in LIFE {
        assert_eq!(rt; played(&rt, folder, &[(*call, true)])?, (None, 0));
    }
    let _ = fs::remove_dir_all(&rt, folder);
    Ok(())
}

// One shelf writes into two segments in turn, makes sure of the first, and reads it.
const IN_TURN: &[(Call, bool)] = &[
    (Call::Create(1), true),
    (Call::Append(1, b"a"), true),
    (Call::Create(2), true),
    (Call::Append(2, b"b"), true),
    (Call::Append(1, b"c"), true),
    (Call::Sync(1), true),
    (Call::Read(1, b"ac"), true),
];

// A shelf is asked for what isn't there, and to make what is.
const REFUSED: &[(Call, bool)] = &[
    (Call::Read(7, b""), false),
    (Call::Append(7, b"a"), false),
    (Call::Sync(7), false),
    (Call::Retire(7), false),
    (Call::Create(1), false),
];

#[test]
fn foreign_files(rt: HostRuntime) -> Result<(), Fail> {
    let folder = "shelf-foreign-files";
    renew(&rt, folder)?;
    assert_eq!(rt; played(&rt, folder, IN_TURN)?, (None, 0));
    write(&rt, folder, "segment-3", b"x")?;
    write(&rt, folder, "notes.txt", b"x")?;
    fs::create_dir(&rt, "shelf-foreign-files/folder")?;
    assert!(rt; is_there(&rt, folder, &[(2, b"b"), (1, b"ac")])?);
    let _ = fs::remove_dir_all(&rt, folder);
    Ok(())
}

#[test]
fn a_cut_file(rt: HostRuntime) -> Result<(), Fail> {
    let folder = "shelf-cut-file";
    renew(&rt, folder)?;
    assert_eq!(rt; played(&rt, folder, IN_TURN)?, (None, 0));
    write(&rt, folder, "segment-0000000002", b"")?;
    assert!(rt; is_there(&rt, folder, &[(2, b""), (1, b"ac")])?);
    assert_eq!(rt; played(&rt, folder, REFUSED)?, (None, 5));
    assert!(rt; is_there(&rt, folder, &[(2, b""), (1, b"ac")])?);
    let _ = fs::remove_dir_all(&rt, folder);
    Ok(())
}

// Names of files, of which the first two alone are segments'.
const NAMES: &[&str] = &[
    "segment-0000000001",
    "segment-4294967295",
    "segment-4294967296",
    "segment-0000000000",
    "segment-+000000001",
    "segment-1",
    "segment-00000000001",
    "Segment-0000000001",
    "other",
];

#[test]
fn names_of_segments(rt: HostRuntime) -> Result<(), Fail> {
    let folder = "shelf-names";
    renew(&rt, folder)?;
    for name in NAMES {
        write(&rt, folder, name, name.as_bytes())?;
    }
    let segments: &[(u32, &[u8])] = &[
        (4294967295, b"segment-4294967295"),
        (1, b"segment-0000000001"),
    ];
    assert!(rt; is_there(&rt, folder, segments)?);
    let _ = fs::remove_dir_all(&rt, folder);
    Ok(())
}

// In the system's folder of processes nobody may make a file: where there is such a folder, it is a shelf that makes no segment.
#[test]
fn a_folder_without_rights(rt: HostRuntime) -> Result<(), Fail> {
    if why_not(&rt, Access::Writing, "/proc")?.is_none() {
        let calls: &[(Call, bool)] = &[(Call::Create(1), false), (Call::Holds(&[]), true)];
        assert_eq!(rt; played(&rt, "/proc", calls)?, (None, 1));
    }
    Ok(())
}
