// The token of a request.
ghost use Rattle.std.specs.Prelude.{◌≡◌, codes, map};
ghost use Rattle.app_tokens.specs.Carried.{add, after_prefix, all_after_prefix, carried_of, carry, is_named, seen_carried, tokens_in_authorization, tokens_in_field, tokens_in_protocols, tokens_in_target, tokens_of};
ghost use Rattle.app_tokens.specs.Parts.{words_of};

use crate::parts::cut;

/// The tokens that a request carries, by `Authorization: Bearer TOKEN`, by `Sec-WebSocket-Protocol: lugcurrant, token.TOKEN` or by
/// `?token=TOKEN`.
#[derive(Clone, Copy, Debug, PartialEq, Eq)]
pub enum Carried<'a> {
    /// There is none.
    Nothing,
    /// There is this one.
    One(&'a [u8]),
    /// There are several, so none is taken.
    Several,
}

/// Returns the tokens that a request with this target and these fields carries. A field is its name, in any case, and its value.
pub fn carried_by<'a>(target: &'a [u8], fields: &[(&'a [u8], &'a [u8])]) -> Carried<'a>
    ensures { seen_carried result ≡ carried_of (tokens_of target.now (map (λ field. (field.0.now, field.1.now)) fields.now)) }
{
    let mut carried = Carried::Nothing.with_target(target);
    for field in fields {
        carried = carried.with_field(field.0, field.1);
    }
    carried
}

impl<'a> Carried<'a> {
    /// Adds the tokens in the query of a request's target.
    pub fn with_target(self, target: &'a [u8]) -> Carried<'a>
        ensures { seen_carried result ≡ carry (seen_carried self.entry) (tokens_in_target target.now) }
    {
        match cut(target, b"?") {
            Some((_, query)) => self.with_words(query, b"&", b"token="),
            None => self,
        }
    }

    /// Adds the tokens in a field of a request's head.
    pub fn with_field(self, name: &[u8], value: &'a [u8]) -> Carried<'a>
        ensures { seen_carried result ≡ carry (seen_carried self.entry) (tokens_in_field (name.now, value.now)) }
    {
        if is_named(name, b"authorization") {
            self.with_authorization(value)
        } else if is_named(name, b"sec-websocket-protocol") {
            self.with_words(value, b" \t,", b"token.")
        } else {
            self
        }
    }

    // Adds the token in the value of `Authorization`.
    fn with_authorization(self, value: &'a [u8]) -> Carried<'a>
        ensures { seen_carried result ≡ carry (seen_carried self.entry) (tokens_in_authorization value.now) }
    {
        if value.len() < 7 {
            return self;
        }
        let (scheme, token) = value.split_at(7);
        if is_named(scheme, b"bearer ") {
            self.with(token)
        } else {
            self
        }
    }

    // Adds what comes after a prefix, in each of the words between these bytes.
    fn with_words(self, words: &'a [u8], gaps: &[u8], prefix: &[u8]) -> Carried<'a>
        ensures { seen_carried result ≡ carry (seen_carried self.entry) (all_after_prefix prefix.now (words_of gaps.now words.now)) }
    {
        let mut carried = self;
        let mut rest = words;
        while let Some((word, more)) = cut(rest, gaps) {
            carried = carried.with_word(word, prefix);
            rest = more;
        }
        carried.with_word(rest, prefix)
    }

    // Adds what comes after a prefix, if the word begins with it.
    fn with_word(self, word: &'a [u8], prefix: &[u8]) -> Carried<'a>
        ensures { seen_carried result ≡ carry (seen_carried self.entry) (after_prefix prefix.now word.now) }
    {
        match word.strip_prefix(prefix) {
            Some(token) => self.with(token),
            None => self,
        }
    }

    // Adds a token.
    fn with(self, token: &'a [u8]) -> Carried<'a>
        ensures { seen_carried result ≡ add (seen_carried self.entry) token.now }
    {
        match self {
            Carried::Nothing => Carried::One(token),
            Carried::One(_) | Carried::Several => Carried::Several,
        }
    }
}

// Checks whether this is a name, in any case.
fn is_named(name: &[u8], named: &[u8]) -> bool
    ensures { result ≡ is_named name.now named.now }
{
    name.eq_ignore_ascii_case(named)
}
