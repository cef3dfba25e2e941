// Parts of records and of checkpoints.
ghost use Rattle.std.specs.Prelude.{◌≡◌, ◌↔◌, ◌≤◌, IsTrue, MatchOption, length};
ghost use Rattle.canvas_shelf.specs.Disk.{IsBeginning};
ghost use Rattle.canvas_shelf.specs.Records.{records, texts};
ghost use Rattle.disk_integrity.specs.Parts.{DiffersAt, IsCutRecord, IsText};

use canvas_shelf::first_record;

// Where these bytes first differ from those of which they ought to be a beginning, if they do.
pub(crate) fn differs_at(bytes: &[u8], whole: &[u8]) -> Option<usize>
    ensures { MatchOption result (IsBeginning bytes.now whole.now) (λ at. DiffersAt at bytes.now whole.now) }
{
    for (at, byte) in bytes.iter().enumerate() {
        if whole.get(at) != Some(byte) {
            return Some(at);
        }
    }
    None
}

// Where the whole records end.
pub(crate) fn records_end(bytes: &[u8]) -> usize
    ensures within { result ≤ length bytes.now }
    ensures end { result ≡ length (records (texts bytes.now)) }
{
    let mut rest = bytes;
    while let Some((_text, after)) = first_record(rest) {
        rest = after;
    }
    bytes.len() - rest.len()
}

// Checks whether no byte is below 32.
fn is_text(bytes: &[u8]) -> bool
    ensures { IsTrue result ↔ IsText bytes.now }
{
    bytes.iter().all(|byte| *byte >= 32)
}

// Checks whether no byte behind the first four is below 32.
pub(crate) fn is_cut_record(rest: &[u8]) -> bool
    ensures { IsTrue result ↔ IsCutRecord rest.now }
{
    if rest.len() < 4 {
        return true;
    }
    is_text(&rest[4..])
}
