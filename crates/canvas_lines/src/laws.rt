// What holds of all inputs.
ghost use Rattle.canvas_lines.specs.Reading.{NoneIsBad, OneIsBad};

/// An input that spells requests has no bad line, and none has two. It does nothing when it runs:
/// call it where a proof needs the laws.
pub fn one_bad_line()
    ensures none { NoneIsBad }
    ensures one { OneIsBad }
{}
