// Whether sums hold of a segment.
ghost use Rattle.std.specs.Prelude.{◌≡◌, ◌≤◌, take, length, IfOk, IfErr, OnOk};
ghost use Rattle.disk_integrity.specs.Checked.{FirstFault, IsFaultOf, SumsHold};
ghost use Rattle.disk_integrity.specs.Lines.{sum_text};
ghost use Rattle.disk_integrity.specs.Running.{IsSumOf, size_of};

use crate::fault::SumFault;
use crate::lines::{first_line, named};
use crate::sum::RunningSum;

/// Checks whether each whole line of these sums is the line of the beginning of the segment that has its length. Answers the length that
/// the last one names, 0 where there is none: so many bytes of the segment are those that were synced.
///
/// The lengths may not fall. What stands behind the last line's end is passed over: sums are not synced, so a crash may leave less of them than
/// was written, and a line that is cut.
///
/// Answers a fault for the first line that isn't so.
pub fn check_sums(segment: &[u8], sums: &[u8]) -> Result<usize, SumFault>
    ensures holds { IfOk result (λ good. SumsHold segment.now sums.now good) }
    ensures fault { IfErr result (λ fault. FirstFault segment.now sums.now fault) }
{
    let mut sum = RunningSum::new();
    let mut rest = sums;
    while let Some((line, after)) = first_line(rest) {
        follow(&mut sum, segment, line)?;
        rest = after;
    }
    Ok(sum.size())
}

// Goes on with the sum of a prefix of the segment up to the length that a line names, where the line holds.
fn follow(sum: &mut RunningSum, segment: &[u8], line: &[u8]) -> Result<(), SumFault>
    requires within { size_of sum.old ≤ length segment.now }
    requires before { IsSumOf sum.old (take (size_of sum.old) segment.now) }
    ensures within { OnOk result ((size_of sum.old ≤ size_of sum.new) × (size_of sum.new ≤ length segment.now)) }
    ensures after { OnOk result (IsSumOf sum.new (take (size_of sum.new) segment.now)) }
    ensures holds { OnOk result (line.now ≡ sum_text (take (size_of sum.new) segment.now)) }
    ensures fault { IfErr result (λ fault. IsFaultOf segment.now (size_of sum.old) line.now fault) }
{
    let good = sum.size();
    let Some((named, digest)) = named(line) else {
        return Err(SumFault::Unreadable { good });
    };
    if named < good {
        return Err(SumFault::Unreadable { good });
    }
    let Some(more) = segment.get(good..named) else {
        return Err(SumFault::Short { good, named });
    };
    sum.add(more);
    if sum.is_digest(digest) {
        Ok(())
    } else {
        Err(SumFault::Changed { good, named })
    }
}
