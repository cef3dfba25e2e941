//! Who may do what with a document: tokens that the backend of its owner signs, and what they allow. Bytes in, and a decision out: this crate
//! knows no sockets and no clock.
//!
//! A token is a JWT (RFC 7519) with the claims `doc`, the name of a document or `*` for all; `sub`, the user; `right`, which is `read`,
//! `edit` or `admin`; and `exp`, when it ends, in whole seconds after 1970. Other claims are passed over, `nbf` and `aud` among them.
#![tactic(auto)]

mod carried;
mod claims;
mod hmac;
mod keys;
mod parts;
mod rights;
mod token;

pub use carried::{Carried, carried_by};
pub use keys::{KEY_BYTES, Key, KeysError, MOST_FILE_BYTES, keys_in};
pub use rights::{Act, Right, may_use};
pub use token::{Grant, MOST_TOKEN_BYTES, TokenError, right_for};
