// Flipped bits and cut ends.
use crate::segment::{OneSegment, TheseSums};
use app_admin::find_loss;
use app_faults::Fault;
use disk_integrity::RunningSum;
use std::alloc::Global;
use std::test::Fail;

// The first checkpoint, and the entries of two Joins: 115 bytes.
pub(crate) const SEGMENT: &[u8] =
    b"\x00\x00\x00\x17[\"checkpoint\",2,0,[],1]\x00\x00\x00\x1a[[0,0],\"document\",null,[]]\x00\x00\x00\x19[0,0,\"join\",[\"joined\",1]]\x00\x00\x00\x19[0,0,\"join\",[\"joined\",2]]";

// Where its checkpoint and its first entry end.
const CHECKPOINT_END: usize = 57;

pub(crate) const FIRST_END: usize = 86;

// Checks whether such a segment, with such sums, is what a crash leaves.
fn is_left(alloc: Global, bytes: &[u8], sums: &[u8]) -> Result<bool, Fail> {
    let mut shelf = OneSegment { bytes };
    match find_loss(alloc, &mut shelf, &TheseSums { alloc, sums }, None) {
        Ok(loss) => Ok(loss.is_none()),
        Err(Fault::Damaged { .. }) => Ok(false),
        Err(_) => Err(Fail::from("neither a loss nor none")),
    }
}

// The sums of the segment, as three syncs leave them.
pub(crate) fn sums(alloc: Global) -> Result<Vec<u8>, Fail> {
    let mut sum = RunningSum::new();
    let mut lines = Vec::new(alloc);
    for part in [
        &SEGMENT[..CHECKPOINT_END],
        &SEGMENT[CHECKPOINT_END..FIRST_END],
        &SEGMENT[FIRST_END..],
    ] {
        sum.add(part);
        lines.extend_from_slice(sum.line(alloc)?.as_bytes())?;
    }
    Ok(lines)
}

// The segment with these bits of one byte flipped.
fn flipped(alloc: Global, place: usize, bits: u8) -> Result<Vec<u8>, Fail> {
    let mut bytes = Vec::new(alloc);
    for (at, byte) in SEGMENT.iter().enumerate() {
        bytes.push(if at == place { *byte ^ bits } else { *byte })?;
    }
    Ok(bytes)
}

// How many of the segments with one bit of this byte flipped are taken for what a crash leaves.
fn untold_at(alloc: Global, place: usize, sums: &[u8]) -> Result<u32, Fail> {
    let mut count = 0u32;
    for bits in [1, 2, 4, 8, 16, 32, 64, 128] {
        let bytes = flipped(alloc, place, bits)?;
        if is_left(alloc, &bytes, sums)? {
            count = count.saturating_add(1);
        }
    }
    Ok(count)
}

// The same of all bytes.
fn untold(alloc: Global, sums: &[u8]) -> Result<u32, Fail> {
    let mut count = 0u32;
    for place in 0..SEGMENT.len() {
        count = count.saturating_add(untold_at(alloc, place, sums)?);
    }
    Ok(count)
}

#[test]
fn each_flip_is_told(rt: HostRuntime) -> Result<(), Fail> {
    let sums = sums(rt.alloc())?;
    assert!(rt; is_left(rt.alloc(), SEGMENT, &sums)?);
    assert_eq!(rt; untold(rt.alloc(), &sums)?, 0);
    Ok(())
}

// Those that give the last record a larger length, whose 32 bits have 29 zeros; and those that give the checkpoint the version 1, 2, 4 or 8.
#[test]
fn few_flips_are_not_told_without_sums(rt: HostRuntime) -> Result<(), Fail> {
    assert_eq!(rt; untold(rt.alloc(), b"")?, 29 + 4);
    Ok(())
}

#[test]
fn each_cut_is_a_crash(rt: HostRuntime) -> Result<(), Fail> {
    for end in 0..SEGMENT.len() {
        assert!(rt; is_left(rt.alloc(), &SEGMENT[..end], b"")?);
    }
    Ok(())
}

#[test]
fn a_cut_of_what_was_synced_is_told(rt: HostRuntime) -> Result<(), Fail> {
    let sums = sums(rt.alloc())?;
    for end in 0..SEGMENT.len() {
        assert!(rt; !is_left(rt.alloc(), &SEGMENT[..end], &sums)?);
    }
    Ok(())
}

#[test]
fn each_cut_of_the_sums_is_a_crash(rt: HostRuntime) -> Result<(), Fail> {
    let sums = sums(rt.alloc())?;
    for end in 0..sums.len() {
        assert!(rt; is_left(rt.alloc(), SEGMENT, &sums[..end])?);
    }
    Ok(())
}
