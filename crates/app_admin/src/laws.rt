// Laws of the definitions.
ghost use Rattle.app_admin.specs.Back.{EachRowHasALine, WrittenRowsComeBack};
ghost use Rattle.app_admin.specs.Torn.{TornAndRestAreAll, TornAreNeedless};

/// Laws of rows as JSON, in either layout: each row that is written has a line, of which its text is the part that is read; so what is
/// read of what was written of rows is these rows, where the text of each is read as it. By `every_row` of `canvas_wire` it is, of each
/// row whose values aren't too deep and that is the root's or has a place.
pub fn every_rows_text()
    ensures lines { EachRowHasALine }
    ensures back { WrittenRowsComeBack }
{}

/// Laws of the segments above the one that recovery takes (`removable_segments`): recovery finds the same without them; and they and those that are
/// left are all.
pub fn every_torn_segment()
    ensures needless { TornAreNeedless }
    ensures all { TornAndRestAreAll }
{}
