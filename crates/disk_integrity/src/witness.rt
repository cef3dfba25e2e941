// Who is shown what a shelf did.
ghost use Rattle.disk_integrity.specs.Changes.{WitnessedChange, segment_made, bytes_added, segment_synced, segment_retired};

/// Is shown each call of a shelf that changed something and didn't fail, in turn. Nothing is asked of it, and nothing that it does or fails to
/// do changes what the shelf does.
pub trait Witness {
    /// What becomes of it when it is shown a change. A witness of which nothing is to be said leaves it out.
    ghost sees: { Self → WitnessedChange → Self → Type 0 } = { λ old change new. Unit {0} };

    /// A segment without bytes was made.
    fn created(&mut self, number: u32)
        ensures { sees self.old (segment_made number) self.new };

    /// These bytes stand at the end of a segment.
    fn appended(&mut self, number: u32, bytes: &[u8])
        ensures { sees self.old (bytes_added number bytes.now) self.new };

    /// All bytes of a segment are synced.
    fn synced(&mut self, number: u32)
        ensures { sees self.old (segment_synced number) self.new };

    /// A segment was taken off the list.
    fn retired(&mut self, number: u32)
        ensures { sees self.old (segment_retired number) self.new };
}
