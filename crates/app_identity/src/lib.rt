//! Which document it is. A folder's is told by 128 random bits as 32 hex digits, in the file `identity` beside the segments, whose
//! sum is in `identity.sum`; and if one in an etcd is, by the hosts and its name.
#![tactic(auto)]

mod address;
mod drawer;
mod error;
mod files;

ghost use Rattle.std.specs.Prelude.{IfOk, string_bytes};
ghost use Rattle.net_http.specs.Identities.{IsIdentity};

pub use address::{Address, AddressError};
pub use drawer::{Drawer, settle};
pub use error::IdentityError;
pub use files::{identity, keep_identity, made_identity, read_identity, remove_identity};
use net_http::is_identity;
use std::alloc::Global;

/// The identity that a text is, without the end of its line.
///
/// The errors: `NotOne`, where it is none; `Memory`.
pub fn identity_in(alloc: Global, text: &str) -> Result<String, IdentityError>
    ensures { IfOk result (λ identity. IsIdentity (string_bytes identity)) }
{
    let digits = text.trim_ascii_end();
    if is_identity(digits.as_bytes()) {
        Ok(String::from_str(alloc, digits)?)
    } else {
        Err(IdentityError::NotOne)
    }
}
