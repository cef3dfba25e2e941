// Answers in a row, where neighbours that are the same make one.
use std::alloc::Global;
use test_cases::Text;

/// Answers to a count, each with the counts that were answered so.
pub struct Runs {
    first: u64,
    last: u64,
    answer: Text,
}

impl Drop for Runs {
    fn drop(self) {
        let Runs {
            first: _,
            last: _,
            answer: _,
        } = self;
    }
}

impl Runs {
    /// No answer.
    pub fn new(alloc: Global) -> Runs {
        Runs {
            first: 0,
            last: 0,
            answer: Text::new(alloc),
        }
    }

    /// Notes what is answered to a count; adds the answer before, where that was another.
    pub fn note(&mut self, count: u64, answer: &Text, text: &mut Text) {
        if answer.is_same(&self.answer) {
            self.last = count;
            return;
        }
        self.end(text);
        self.first = count;
        self.last = count;
        self.answer.clear();
        self.answer.push_text(answer);
    }

    /// Adds the last answer.
    pub fn end(&self, text: &mut Text) {
        if !self.answer.as_str().is_empty() {
            write!(text, "{} to {}:\n", self.first, self.last);
            text.push_text(&self.answer);
        }
    }
}
