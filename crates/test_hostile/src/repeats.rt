// Lines that come again.
use test_cases::Text;

// Adds a line that came so often in a row.
fn add(line: &str, times: u64, text: &mut Text) {
    if times > 1 {
        write!(text, "{times} x ");
    }
    if times > 0 {
        write!(text, "{line}\n");
    }
}

/// Adds these lines, those that come more than once in a row behind how often they do.
pub fn add_lines(lines: &str, text: &mut Text) {
    let mut last = "";
    let mut times = 0u64;
    for line in lines.lines() {
        if times > 0 && line == last {
            times = times.saturating_add(1);
        } else {
            add(last, times, text);
            last = line;
            times = 1;
        }
    }
    add(last, times, text);
}
