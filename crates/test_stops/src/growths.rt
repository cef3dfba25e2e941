// Each growth of a record refused in turn.
use canvas_shelf::{RecordError, record};
use refusing::Refusing;
use std::alloc::Global;
use test_cases::Text;

// A record has fewer growths than this.
const MOST: u64 = 100;

// Checks whether a record of this text is refused where its growth of that number is.
fn is_refused(alloc: Global, text: &[u8], growth: u64) -> bool {
    let heap = Refusing::new(alloc, growth);
    matches!(record(&heap, text), Err(RecordError::Memory))
}

/// Adds how many growths a record of this text has.
pub fn write_growths(alloc: Global, asked: &[u8], text: &mut Text) {
    for growth in 1..MOST {
        if !is_refused(alloc, asked, growth) {
            write!(text, "growths: {}\n", growth - 1);
            return;
        }
    }
}
