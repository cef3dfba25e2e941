// The lines of an input.
ghost use Rattle.std.specs.Prelude.{◌≡◌, ◌<◌, ◌∷◌, [], length, IfSome, IfNone};
ghost use Rattle.canvas_lines.specs.Lines.{lines_of};
ghost use Rattle.canvas_lines.specs.Lines as lines;

/// The first line, and what follows it. `None` where nothing is left.
pub fn split_line(rest: &[u8]) -> Option<(&[u8], &[u8])>
    ensures some { IfSome result (λ r. lines_of rest.now ≡ r.0.now ∷ lines_of r.1.now) }
    ensures shorter { IfSome result (λ r. length r.1.now < length rest.now) }
    ensures none { IfNone result (lines_of rest.now ≡ []) }
{
    if rest.is_empty() {
        return None;
    }
    for (at, byte) in rest.iter().enumerate() {
        if *byte == b'\n' {
            return Some((&rest[..at], &rest[at + 1..]));
        }
    }
    Some((rest, &rest[rest.len()..]))
}

/// Checks whether a line is passed over: an empty one, or one that begins with `#`.
pub fn is_passed(line: &[u8]) -> bool
    ensures { result ≡ lines.is_passed line.now }
{
    match line.first() {
        Some(byte) => *byte == b'#',
        None => true,
    }
}
