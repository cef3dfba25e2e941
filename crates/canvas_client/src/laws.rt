// Laws of the entries that a client is told, and of its edits at a place.
ghost use Rattle.canvas_client.specs.Follow.{EachVerdictLeavesRoot};
ghost use Rattle.canvas_client.specs.Placed.{EachPlacedEditStands};

/// An entry whose outcome is a verdict of a sound state gives the root no place, and doesn't remove it: so a client can follow it.
/// It does nothing when it runs: call it where a proof needs the law.
pub fn every_told_entry()
    ensures { EachVerdictLeavesRoot }
{}

/// On each document on which a client stands it stands after an edit of its own at a place, and what its waiting edits create stays its
/// own. It does nothing when it runs: call it where a proof needs the law.
pub fn every_placed_edit()
    ensures { EachPlacedEditStands }
{}
