// The place of an identity, and the identity of a document.
ghost use Rattle.std.specs.Prelude.{◌≡◌, Bool, IfOk, IfSome, IsTrue, List, MatchOption, None, OnOk, Option, Some, string_bytes, ℕ};
ghost use Rattle.net_http.specs.Identities.{IsIdentity};

use crate::error::IdentityError;
use crate::files::made_identity;
use std::alloc::Global;
use std::random::RandomSource;

/// The place of a document's identity.
///
/// Contracts see it as `held`, and say so of an honest one alone.
pub trait Drawer {
    /// The identity that is there.
    ghost held: { Self → Option (List ℕ) };

    /// It holds what it was given.
    ghost honest: { Self → Bool };

    /// The identity that is there, if one is.
    ///
    /// The errors: `NotOne` and `Changed`, if what is there is none; `Device`, if it can't be read; `Memory`.
    fn find(&mut self, alloc: Global) -> Result<Option<String>, IdentityError>
        ensures identity { IfOk result (λ found. IfSome found (λ text. IsIdentity (string_bytes text))) }
        ensures found { IsTrue (honest self.old) → IfOk result (λ found. MatchOption found (held self.old ≡ None) (λ text. held self.old ≡ Some (string_bytes text))) }
        ensures same { IsTrue (honest self.old) → held self.new ≡ held self.old }
        ensures honest { honest self.new ≡ honest self.old };

    /// Puts an identity there, in place of what is there.
    ///
    /// The errors: `Device`, if it can't be written; `Memory`.
    fn put(&mut self, text: &str) -> Result<(), IdentityError>
        ensures held { IsTrue (honest self.old) → OnOk result (held self.new ≡ Some text.now) }
        ensures honest { honest self.new ≡ honest self.old };
}

/// The identity that is there. If none is, one is made, and put there first.
///
/// The errors: those of `find` and `put`; and `Device`, if the system gives no random bits.
pub fn settle<D: Drawer, R>(drawer: &mut D, random: &R) -> Result<String, IdentityError>
where
    R: RandomSource + AllocGlobal,
    ensures identity { IfOk result (λ text. IsIdentity (string_bytes text)) }
    ensures held { IsTrue (D.honest drawer.old) → IfOk result (λ text. D.held drawer.new ≡ Some (string_bytes text)) }
    ensures same { IsTrue (D.honest drawer.old) → (known : List ℕ) → D.held drawer.old ≡ Some known → IfOk result (λ text. string_bytes text ≡ known) }
{
    match drawer.find(random.alloc())? {
        Some(text) => Ok(text),
        None => {
            let text = made_identity(random)?;
            drawer.put(&text)?;
            Ok(text)
        }
    }
}
