// Whether segments are what a crash leaves.
ghost use Rattle.std.specs.Prelude.{◌≡◌, MatchOption};
ghost use Rattle.std.specs.List.{AllByRecursion};
ghost use Rattle.disk_integrity.specs.Losses.{FirstLoss, IsLoss, IsLost, NothingLost, MayBeLeft, MayBeLeftIfTaken, down_to, gone, is_taken};

use crate::check_sums;
use crate::listed::Listed;
use crate::loss::Loss;
use crate::parts::{differs_at, is_cut_record, records_end};
use crate::trace::Trace;

/// The first loss in these segments, the highest first, down to the one that recovery takes: what is there that no crash leaves. If there is
/// none, and recovery takes no segment though there is a trace of a document, that the document has gone. `None` if all is as a crash may
/// have left it. Taken is the number of the segment that recovery takes, if it takes one, and `checkpoint` the bytes of the checkpoint of
/// what recovery finds, which is the opening one if it takes none.
///
/// A segment may hold what a crash leaves:
///
/// - its sums hold, as `check_sums` says;
/// - above the taken one it is a prefix of `checkpoint`, since a checkpoint is only ever made of what is synced below it;
/// - the taken one ends in whole records, or in a part of one more: behind the four bytes of its length no byte is below 32. No text of a
///   record has such a byte, and each record of fewer than 2^29 bytes begins with one: so where the length of a record is damaged, and further
///   ones stand after it, that is a loss.
///
/// Segments below the taken one are passed over: what they held stands in it.
pub fn loss_of(
    listed: &[Listed],
    taken: Option<u32>,
    checkpoint: &[u8],
    trace: Option<Trace>,
) -> Option<Loss>
    ensures { MatchOption result
        (NothingLost taken checkpoint.now trace listed.now)
        (IsLost taken checkpoint.now trace listed.now) }
{
    match loss_in_segments(listed, taken, checkpoint) {
        Some(loss) => Some(loss),
        None => gone(taken, trace),
    }
}

// That the document has gone: recovery takes no segment, and there is a trace of one.
fn gone(taken: Option<u32>, trace: Option<Trace>) -> Option<Loss>
    ensures { result ≡ gone taken trace }
{
    match (taken, trace) {
        (None, Some(trace)) => Some(Loss::Gone { trace }),
        _ => None,
    }
}

// The first loss in these segments, down to the one that recovery takes.
fn loss_in_segments(listed: &[Listed], taken: Option<u32>, checkpoint: &[u8]) -> Option<Loss>
    ensures { MatchOption result
        (AllByRecursion (MayBeLeftIfTaken taken checkpoint.now) (down_to taken listed.now))
        (λ loss. FirstLoss taken checkpoint.now (down_to taken listed.now) loss) }
{
    for one in listed {
        let is_taken = is_taken(taken, one.number);
        if let Some(loss) = loss_in(one, is_taken, checkpoint) {
            return Some(loss);
        }
        if is_taken {
            return None;
        }
    }
    None
}

/// Checks whether recovery takes the segment of this number, if it takes the one named.
pub fn is_taken(taken: Option<u32>, number: u32) -> bool
    ensures { result ≡ is_taken taken number }
{
    match taken {
        Some(taken) => taken == number,
        None => false,
    }
}

// What a segment holds that no crash leaves.
fn loss_in(one: &Listed, is_taken: bool, checkpoint: &[u8]) -> Option<Loss>
    ensures { MatchOption result (MayBeLeft is_taken checkpoint.now one.now) (λ loss. IsLoss is_taken checkpoint.now one.now loss) }
{
    let segment = one.number;
    if let Err(fault) = check_sums(&one.bytes, &one.sums) {
        return Some(Loss::Sums { segment, fault });
    }
    if !is_taken {
        let offset = differs_at(&one.bytes, checkpoint)?;
        return Some(Loss::NoCheckpoint { segment, offset });
    }
    let offset = records_end(&one.bytes);
    if is_cut_record(&one.bytes[offset..]) {
        None
    } else {
        Some(Loss::NoCutRecord { segment, offset })
    }
}
