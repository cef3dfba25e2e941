// What commands write of a document that is kept in memory, in an honest home.
ghost use Rattle.std.specs.Prelude.{[], true};
ghost use Rattle.canvas_shelf.specs.Disk.{appended, created, synced};

use crate::flips::{FIRST_END, SEGMENT, sums};
use app_admin::{Home, SumSource, check, log, read_backup, show_tree};
use app_faults::Fault;
use canvas_shelf::{MemShelf, Shelf};
use disk_integrity::Trace;
use std::alloc::Global;
use std::test::Fail;

// A home of which segment 1 has these bytes, and these sums if sums are kept there.
#[derive(Drop)]
struct MemHome<'a> {
    alloc: Global,
    bytes: &'a [u8],
    is_summed: bool,
    sums: &'a [u8],
}

// A home of which segment 1 has these bytes, and which keeps no sums.
fn unsummed(alloc: Global, bytes: &[u8]) -> MemHome<'_> {
    MemHome {
        alloc,
        bytes,
        is_summed: false,
        sums: b"",
    }
}

// A home of which segment 1 has these bytes and sums.
fn summed<'a>(alloc: Global, bytes: &'a [u8], sums: &'a [u8]) -> MemHome<'a> {
    MemHome {
        alloc,
        bytes,
        is_summed: true,
        sums,
    }
}

impl Home<MemShelf> for MemHome<'_> {
    ghost disk = { λ h. synced 1 (appended 1 h.bytes.now (created 1 [])) };

    ghost honest = { λ h. true };

    ghost summed = { λ h. h.is_summed };

    fn look(&mut self, alloc: Global) -> Result<MemShelf, Fault> {
        let mut shelf = MemShelf::new(alloc);
        if shelf.create(1).is_err() {
            return Err(Fault::Memory);
        }
        if shelf.append(1, self.bytes).is_err() {
            return Err(Fault::Memory);
        }
        if shelf.sync(1).is_err() {
            return Err(Fault::Memory);
        }
        Ok(shelf)
    }

    fn explain(&self, fault: Fault) -> Fault {
        fault
    }

    fn numbers(&self, alloc: Global) -> Result<Vec<u32>, Fault> {
        Ok(Vec::from_slice(alloc, &[1])?)
    }

    fn is_summed(&self) -> bool {
        self.is_summed
    }

    fn trace(&self) -> Result<Option<Trace>, Fault> {
        Ok(None)
    }
}

impl SumSource for MemHome<'_> {
    fn sums(&self, _number: u32) -> Result<Vec<u8>, Fault> {
        Ok(Vec::from_slice(self.alloc, self.sums)?)
    }
}

// What the log of these bytes is.
const LOG: &[u8] =
    b"[\"entry\",1,[0,0,\"join\",[\"joined\",1]]]\n[\"entry\",2,[0,0,\"join\",[\"joined\",2]]]\n";

// A checkpoint, and behind it a record that is no entry, from byte 57 on.
const DAMAGED: &[u8] =
    b"\x00\x00\x00\x17[\"checkpoint\",2,0,[],1]\x00\x00\x00\x1a[[0,0],\"document\",null,[]]\x00\x00\x00\x01x";

// What is told of these bytes where no sums are kept, and what more where some are.
const CHECKED: &[u8] =
    b"segment 1: bytes 115, whole records 4, torn rest 0\nrecovery takes segment 1: version 2, entries past its checkpoint 2\n";

const CHECKED_WHOLE: &[u8] =
    b"segment 1: bytes 115, whole records 4, torn rest 0\nrecovery takes segment 1: version 2, entries past its checkpoint 2\nno loss: a crash may have left it so\n";

#[test]
fn the_entries_of_a_home_are_written(rt: HostRuntime) -> Result<(), Fail> {
    let mut text: Vec<u8> = Vec::new(rt.alloc());
    let mut home = unsummed(rt.alloc(), SEGMENT);
    let done = log(rt.alloc(), &mut home, &mut text);
    assert!(rt; done.is_ok());
    assert!(rt; text.as_slice() == LOG);
    Ok(())
}

#[test]
fn damage_of_a_home_is_told(rt: HostRuntime) -> Result<(), Fail> {
    let mut text: Vec<u8> = Vec::new(rt.alloc());
    let mut home = unsummed(rt.alloc(), DAMAGED);
    let done = show_tree(rt.alloc(), &mut home, &mut text);
    assert!(rt;
        matches!(
            done,
            Err(Fault::Damaged {
                segment: 1,
                offset: 57
            })
        )
    );
    assert!(rt; text.is_empty());
    Ok(())
}

#[test]
fn the_segments_of_a_home_are_checked(rt: HostRuntime) -> Result<(), Fail> {
    let mut text: Vec<u8> = Vec::new(rt.alloc());
    let mut home = unsummed(rt.alloc(), SEGMENT);
    let done = check(rt.alloc(), &mut home, &mut text);
    assert!(rt; done.is_ok());
    assert!(rt; text.as_slice() == CHECKED);
    Ok(())
}

#[test]
fn a_home_with_sums_is_told_as_whole(rt: HostRuntime) -> Result<(), Fail> {
    let mut text: Vec<u8> = Vec::new(rt.alloc());
    let sums = sums(rt.alloc())?;
    let mut home = summed(rt.alloc(), SEGMENT, &sums);
    let done = check(rt.alloc(), &mut home, &mut text);
    assert!(rt; done.is_ok());
    assert!(rt; text.as_slice() == CHECKED_WHOLE);
    Ok(())
}

// Its last synced record is gone.
#[test]
fn a_loss_of_a_home_is_told(rt: HostRuntime) -> Result<(), Fail> {
    let mut text: Vec<u8> = Vec::new(rt.alloc());
    let sums = sums(rt.alloc())?;
    let mut home = summed(rt.alloc(), &SEGMENT[..FIRST_END], &sums);
    let done = check(rt.alloc(), &mut home, &mut text);
    assert!(rt; matches!(done, Err(Fault::Damaged { segment: 1, .. })));
    assert!(rt; text.ends_with(b"loss: segment 1 is shorter than it was: 115 bytes were synced\n"));
    Ok(())
}

#[test]
fn a_lost_home_is_no_backup_unless_accepted(rt: HostRuntime) -> Result<(), Fail> {
    let sums = sums(rt.alloc())?;
    let mut home = summed(rt.alloc(), &SEGMENT[..FIRST_END], &sums);
    let refused = read_backup(rt.alloc(), &mut home, false);
    assert!(rt; matches!(refused, Err(Fault::Lost { .. })));
    let accepted = read_backup(rt.alloc(), &mut home, true);
    assert!(rt; matches!(accepted, Ok((_, 1))));
    Ok(())
}
