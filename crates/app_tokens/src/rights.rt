// Who may do what.
ghost use Rattle.std.specs.Prelude.{◌≡◌};
ghost use Rattle.std.specs.Option.{option_copied};
ghost use Rattle.app_tokens.specs.Rights.{allows, may_use};

/// What a user may do with a document.
#[derive(Clone, Copy, Debug, PartialEq, Eq)]
pub enum Right {
    /// See it.
    Read,
    /// See and change it.
    Edit,
    /// Also make, copy, export and delete documents. It is for the owner's backend.
    Admin,
}

/// What is done with a document.
#[derive(Clone, Copy, Debug, PartialEq, Eq)]
pub enum Act {
    /// It is seen.
    See,
    /// It is edited.
    Change,
    /// It is made, copied, exported or deleted.
    Administer,
}

impl Right {
    /// Checks whether a user with this right may do this.
    pub fn allows(self, act: Act) -> bool
        ensures { result ≡ allows self act }
    {
        match self {
            Right::Read => matches!(act, Act::See),
            Right::Edit => matches!(act, Act::See | Act::Change),
            Right::Admin => true,
        }
    }
}

/// Checks whether a user's connection may use a client's id. `owner` is the user that it was given to, if any; `has_joined`, whether this
/// connection joined it.
pub fn may_use(user: &[u8], owner: Option<&[u8]>, has_joined: bool) -> bool
    ensures { result ≡ may_use user.now (option_copied owner.entry) has_joined }
{
    if has_joined {
        return true;
    }
    match owner {
        Some(owner) => owner == user,
        None => false,
    }
}
