//! The fields in the head of an HTTP message: found by their names, whatever their case.
#![tactic(auto)]

ghost use Rattle.std.specs.Prelude.{◌≡◌, ℕ, List, [], ◌∷◌, ◌++◌, length, All};
ghost use Rattle.httparse.specs.Spans.{IsHeaderWithin};
ghost use Rattle.net_heads.specs.Fields.{IsFoundUnderName, is_same_word, seen_fields, values_named};

use httparse::spans::HeaderSpan;

/// The fields of a message's head: where each stands in these bytes.
#[derive(Clone, Copy)]
pub struct Fields<'a> {
    /// The bytes that begin with the head.
    pub bytes: &'a [u8],
    /// Where the fields stand.
    pub spans: &'a [HeaderSpan],
}

/// What stands under a name.
#[derive(Clone, Copy)]
pub enum Values<'a> {
    /// No field has the name.
    Nothing,
    /// One field has the name, with this value.
    One(&'a [u8]),
    /// Several fields have the name.
    Several,
}

impl<'a> Values<'a> {
    // What stands there with one value more.
    fn with(self, value: &'a [u8]) -> Values<'a>
        ensures { (values : List (List ℕ)) → IsFoundUnderName self.entry values → IsFoundUnderName result (values ++ value.now ∷ []) }
    {
        match self {
            Values::Nothing => Values::One(value),
            Values::One(_) | Values::Several => Values::Several,
        }
    }
}

impl<'a> Fields<'a> {
    /// What stands under this name.
    pub fn find(&self, name: &[u8]) -> Values<'a>
        requires { All (IsHeaderWithin (length self.now.bytes.now)) self.now.spans.now }
        ensures { IsFoundUnderName result (values_named name.now (seen_fields self.now)) }
    {
        let mut found = Values::Nothing;
        for span in self.spans {
            if is_same_word(span.name.of(self.bytes), name) {
                found = found.with(span.value.of(self.bytes));
            }
        }
        found
    }
}

/// Checks whether two words are the same, whether their letters are upper or lower case.
pub fn is_same_word(a: &[u8], b: &[u8]) -> bool
    ensures { result ≡ is_same_word a.now b.now }
{
    a.eq_ignore_ascii_case(b)
}
