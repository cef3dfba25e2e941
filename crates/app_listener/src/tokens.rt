// What an event is about.
ghost use Rattle.std.specs.Prelude.{◌≡◌, ◌+◌, ◌*◌, ◌%◌, ◌<◌, ◌^◌, MatchOption};
ghost use Rattle.app_listener.specs.Tokens.{place_of};

use mio::Token;

/// The token of the port.
pub(crate) const PORT: Token = Token(0);

/// What is waited for of a connection.
#[derive(Clone, Copy, Debug, PartialEq, Eq)]
pub(crate) enum Stage {
    /// The rest of its head.
    Head,
    /// Room for the rest of its answer.
    Answer,
    /// Its end.
    End,
}

impl Stage {
    /// Returns the token of the connection with this number.
    pub(crate) fn token(self, number: u64) -> Token
        ensures { number < 2 ^ 62 → result.0 ≡ 4 * number + place_of self }
    {
        let place = match self {
            Stage::Head => 1,
            Stage::Answer => 2,
            Stage::End => 3,
        };
        Token(number.wrapping_mul(4).wrapping_add(place) as usize)
    }
}

/// Returns the connection of a token, and what was waited for of it; `None` for the port.
pub(crate) fn connection_of(token: Token) -> Option<(u64, Stage)>
    ensures { MatchOption result (token.0 % 4 ≡ 0) (λ c. token.0 ≡ 4 * c.0 + place_of c.1) }
{
    let number = token.0 as u64 / 4;
    match token.0 % 4 {
        1 => Some((number, Stage::Head)),
        2 => Some((number, Stage::Answer)),
        3 => Some((number, Stage::End)),
        _ => None,
    }
}
