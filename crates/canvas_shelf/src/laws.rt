// Laws of the definitions.
ghost use Rattle.canvas_shelf.specs.Records.{EachSplitsOnce};

/// A law: bytes are whole records and a torn rest in exactly one way, and `texts` are the texts of those records.
pub fn every_segment()
    ensures { EachSplitsOnce }
{}
