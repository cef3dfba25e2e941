// Calls that are made once for each of their growths, with that growth refused.
use refusing::Refusing;
use std::alloc::{AllocError, Allocator, Global};
use test_cases::Text;

// No call has so many growths.
const MOST: u64 = 100000;

/// A call that can be made from the same beginning again and again, in memory that may refuse it a growth. What it is compared with is
/// made in memory that refuses none.
pub trait Trial<A: Allocator + Copy> {
    /// What the call is made on.
    type Subject: Drop;

    /// The beginning.
    fn begin(&self, global: Global, alloc: A) -> Result<Self::Subject, AllocError>;

    /// Makes the call, and tells whether it answers what it must. The error is that memory ran out.
    fn call(
        &self,
        global: Global,
        alloc: A,
        subject: &mut Self::Subject,
    ) -> Result<bool, AllocError>;

    /// Checks whether all is as it must be: after the call where it was made, and what comes then goes as it must; and as before the call
    /// where it was refused memory.
    fn is_as_wanted(
        &self,
        global: Global,
        subject: &mut Self::Subject,
        is_made: bool,
    ) -> Result<bool, AllocError>;
}

// How a call went one growth of which was to be refused.
#[derive(Clone, Copy)]
enum Went {
    // It has no such growth, and went as it must.
    Whole,
    // The growth was refused, nothing had changed then, and the call went as it must when it was made once more.
    Refused,
    // The growth was refused, and yet the call went as it must: it has another way to go.
    Absorbed,
    // The growth was refused, and something had changed then.
    Changed,
    // It went otherwise than where nothing is refused.
    Otherwise,
}

// Makes the call with the growth of that number refused, the first being 1, and once more where it was refused.
fn call_refused<'h, T: Trial<&'h Refusing<Global>>>(
    global: Global,
    heap: &'h Refusing<Global>,
    trial: &T,
    subject: &mut T::Subject,
    number: u64,
) -> Result<Went, AllocError> {
    heap.refuse(number);
    let first = trial.call(global, heap, subject);
    let was_refused = heap.left() == 0;
    heap.refuse(0);
    let (is_right, went) = match (first, was_refused) {
        (Ok(is_right), true) => (is_right, Went::Absorbed),
        (Ok(is_right), false) => (is_right, Went::Whole),
        (Err(_), false) => return Ok(Went::Otherwise),
        (Err(_), true) => {
            if !trial.is_as_wanted(global, subject, false)? {
                return Ok(Went::Changed);
            }
            (trial.call(global, heap, subject)?, Went::Refused)
        }
    };
    if is_right && trial.is_as_wanted(global, subject, true)? {
        return Ok(went);
    }
    Ok(Went::Otherwise)
}

// The same from the beginning.
fn refuse<'h, T: Trial<&'h Refusing<Global>>>(
    global: Global,
    heap: &'h Refusing<Global>,
    trial: &T,
    number: u64,
) -> Result<Went, AllocError> {
    let mut subject = trial.begin(global, heap)?;
    call_refused(global, heap, trial, &mut subject, number)
}

// What is said of how a call went in the end.
fn end_text(end: Went) -> &'static str {
    match end {
        Went::Changed => ", and then one that changes something\n",
        Went::Otherwise => ", and then one after which it goes otherwise\n",
        _ => "\n",
    }
}

/// Makes the call with its first growth refused, with its second, and so on until none is left or one goes wrong. Adds to a line how many
/// were refused, how many of those it did without, and what went wrong, and ends the line.
pub fn write_growths<'h, T: Trial<&'h Refusing<Global>>>(
    global: Global,
    heap: &'h Refusing<Global>,
    trial: &T,
    text: &mut Text,
) {
    let mut refused = 0u64;
    let mut absorbed = 0u64;
    let mut end = Went::Otherwise;
    for number in 1..MOST {
        match refuse(global, heap, trial, number) {
            Ok(Went::Refused) => refused = refused.saturating_add(1),
            Ok(Went::Absorbed) => absorbed = absorbed.saturating_add(1),
            Ok(other) => {
                end = other;
                break;
            }
            Err(_) => return text.refuse(),
        }
    }
    write!(text, ", {refused} refused");
    if absorbed > 0 {
        write!(text, ", {absorbed} absorbed");
    }
    text.push_str(end_text(end));
}
