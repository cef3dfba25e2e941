// Shelves in real folders: how one goes on, who may have one, one for reading, and what is no file.
use crate::documents::{Access, Call, is_there, played, played_for, renew, shelf_in};
use canvas_folder::{DirShelf, FolderError};
use std::fs;
use std::test::Fail;

/// Why there is no shelf of a folder, opened for that, if there is none.
pub fn why_not(
    rt: &HostRuntime,
    access: Access,
    folder: &str,
) -> Result<Option<FolderError>, Fail> {
    match access {
        Access::Writing => Ok(DirShelf::new(rt.clone()?, folder).err()),
        Access::Reading => Ok(DirShelf::existing(rt.clone()?, folder).err()),
    }
}

// A folder, what a shelf of it is opened for, and why there is none.
type Row = (&'static str, Access, Option<FolderError>);

// The first row of which another reason is told.
fn first_other(rt: &HostRuntime, rows: &[Row]) -> Result<Option<usize>, Fail> {
    for (i, (folder, access, why)) in rows.iter().enumerate() {
        if why_not(rt, *access, folder)? != *why {
            return Ok(Some(i));
        }
    }
    Ok(None)
}

// A segment, a newer one in its place, and what is there then.
const LIFE: &[(Call, bool)] = &[
    (Call::Create(1), true),
    (Call::Append(1, b"abc"), true),
    (Call::Sync(1), true),
    (Call::Create(2), true),
    (Call::Append(2, b"xyz"), true),
    (Call::Sync(2), true),
    (Call::Retire(1), true),
    (Call::Holds(&[(2, b"xyz")]), true),
];

// The same folder, opened anew.
const AGAIN: &[(Call, bool)] = &[
    (Call::Append(2, b"."), true),
    (Call::Read(2, b"xyz."), true),
    (Call::Refused(0), true),
];

#[test]
fn a_life(rt: HostRuntime) -> Result<(), Fail> {
    let folder = "folder-life";
    renew(&rt, folder)?;
    assert_eq!(rt; played(&rt, folder, LIFE)?, (None, 0));
    assert_eq!(rt; played(&rt, folder, AGAIN)?, (None, 1));
    let _ = fs::remove_dir_all(&rt, folder);
    Ok(())
}

// The folder of a shelf, while that is there and once it has gone.
const IN_USE: &[Row] = &[
    ("folder-second", Access::Writing, Some(FolderError::InUse)),
    ("folder-second", Access::Reading, None),
];

const FREE: &[Row] = &[("folder-second", Access::Writing, None)];

#[test]
fn a_second_shelf(rt: HostRuntime) -> Result<(), Fail> {
    let folder = "folder-second";
    renew(&rt, folder)?;
    assert_eq!(rt; played(&rt, folder, &[(Call::Create(1), true)])?, (None, 0));
    let first = shelf_in(&rt, folder)?;
    assert_eq!(rt; first_other(&rt, IN_USE)?, None);
    drop(first);
    assert_eq!(rt; first_other(&rt, FREE)?, None);
    assert!(rt; is_there(&rt, folder, &[(1, b"")])?);
    let _ = fs::remove_dir_all(&rt, folder);
    Ok(())
}

// What a shelf for reading does, in whose folder segment 7 was made.
const READING: &[(Call, bool)] = &[
    (Call::Refused(8), true),
    (Call::Append(7, b"x"), false),
    (Call::Sync(7), false),
    (Call::Retire(7), false),
    (Call::Read(7, b""), true),
    (Call::Lists(&[7]), true),
];

#[test]
fn a_reading_shelf(rt: HostRuntime) -> Result<(), Fail> {
    let folder = "folder-reading";
    renew(&rt, folder)?;
    assert_eq!(rt; played(&rt, folder, &[(Call::Create(7), true)])?, (None, 0));
    let writing = shelf_in(&rt, folder)?;
    assert_eq!(rt;
        played_for(&rt, folder, Access::Reading, READING)?,
        (None, 4)
    );
    drop(writing);
    assert_eq!(rt;
        played(&rt, folder, &[(Call::Lists(&[7]), true)])?,
        (None, 0)
    );
    let _ = fs::remove_dir_all(&rt, folder);
    Ok(())
}

// A segment that is listed and not read, since no regular file has its name.
const NO_FILE: &[(Call, bool)] = &[
    (Call::Lists(&[3]), true),
    (Call::Unread(3), true),
    (Call::Append(3, b"x"), false),
];

#[test]
fn a_folder_in_a_files_place(rt: HostRuntime) -> Result<(), Fail> {
    let folder = "folder-place";
    renew(&rt, folder)?;
    fs::create_dir(&rt, "folder-place/segment-0000000003")?;
    fs::create_dir(&rt, "folder-place/segment-0000000000")?;
    assert_eq!(rt; played(&rt, folder, NO_FILE)?, (None, 2));
    let _ = fs::remove_dir_all(&rt, folder);
    Ok(())
}

// A folder that isn't there is made for writing, with those above it.
const MADE: &[Row] = &[
    ("folder-made", Access::Reading, Some(FolderError::Device)),
    ("folder-made/deep/er/", Access::Writing, None),
    ("folder-made/deep/er", Access::Reading, None),
    ("", Access::Writing, Some(FolderError::Device)),
];

// Where a file stands there is none, nor below it.
const A_FILE: &[Row] = &[
    (
        "folder-made/file",
        Access::Reading,
        Some(FolderError::Device),
    ),
    (
        "folder-made/file/below",
        Access::Writing,
        Some(FolderError::Device),
    ),
];

#[test]
fn folders_that_are_made(rt: HostRuntime) -> Result<(), Fail> {
    let _ = fs::remove_dir_all(&rt, "folder-made");
    assert_eq!(rt; first_other(&rt, MADE)?, None);
    fs::write(&rt, "folder-made/file", b"x")?;
    assert_eq!(rt; first_other(&rt, A_FILE)?, None);
    let _ = fs::remove_dir_all(&rt, "folder-made");
    Ok(())
}
