// Where the last chunk ends that was put: the one thing that tells of a document that its last chunks are missing.
ghost use Rattle.std.specs.Prelude.{◌≡◌};
ghost use Rattle.etcd_store.specs.Ends.{is_reached, reaches};

use canvas_etcd::Standing;
use etcd_gateway::ChunkPlace;

// Checks whether the segments that stand reach the place behind the last chunk that was put. A segment above its own reaches it too: a
// server of an older version, which writes no end, begins with one.
pub(crate) fn is_reached(end: ChunkPlace, standing: &[Standing]) -> bool
    ensures { result ≡ is_reached end.segment end.chunk standing.now }
{
    standing.iter().any(|it| reaches(end, *it))
}

// Checks whether a segment that stands does.
fn reaches(end: ChunkPlace, it: Standing) -> bool
    ensures { result ≡ reaches end.segment end.chunk it }
{
    it.number > end.segment || (it.number == end.segment && it.size >= end.chunk)
}
