// A text that is written piece by piece.
use std::alloc::{AllocError, Global};
use std::fmt::Display;

/// A text that is added to. That memory ran out for a piece is noted, and told in the end.
pub struct Text {
    text: String,
    is_refused: bool,
}

impl Drop for Text {
    fn drop(self) {
        let Text {
            text: _,
            is_refused: _,
        } = self;
    }
}

impl Text {
    /// An empty text.
    pub fn new(alloc: Global) -> Text {
        Text {
            text: String::new(alloc),
            is_refused: false,
        }
    }

    /// Adds a piece.
    pub fn push_str(&mut self, piece: &str) {
        if self.text.push_str(piece).is_err() {
            self.is_refused = true;
        }
    }

    /// Adds what a value is printed as: what `write!` calls.
    pub fn write_fmt<D: Display + Drop>(&mut self, value: D) {
        if self.text.write_fmt(value).is_err() {
            self.is_refused = true;
        }
    }

    /// Notes that memory ran out.
    pub fn refuse(&mut self) {
        self.is_refused = true;
    }

    /// Adds another text, and that memory ran out for a piece of that.
    pub fn push_text(&mut self, other: &Text) {
        self.push_str(&other.text);
        self.is_refused |= other.is_refused;
    }

    /// Checks whether the texts are the same. If memory runs out for a piece of either, they aren't.
    pub fn is_same(&self, other: &Text) -> bool {
        self.text == other.text && !self.is_refused && !other.is_refused
    }

    /// The text so far.
    pub fn as_str(&self) -> &str {
        &self.text
    }

    /// Forgets all.
    pub fn clear(&mut self) {
        self.text.clear();
        self.is_refused = false;
    }

    /// Adds the text to `out`. Fails if memory runs out for a piece of it.
    pub fn put(&self, out: &mut Vec<u8>) -> Result<(), AllocError> {
        if self.is_refused {
            return Err(AllocError);
        }
        out.extend_from_slice(self.text.as_bytes())
    }
}
