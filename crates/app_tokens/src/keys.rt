// Keys, and files of keys.
ghost use Rattle.std.specs.Prelude.{◌≡◌, ◌≢◌, ◌↔◌, ◌+◌, ◌++◌, ◌∷◌, [], Err, IfErr, IfOk, IfSome, IsSome, IsTrue, Ok, OnOk, false, length};
ghost use Rattle.std.specs.List.{list_all};
ghost use Rattle.app_tokens.specs.Keys.{is_hex_digit, is_key, keys_in, without_last_feed};

use crate::parts::cut;
use std::alloc::{AllocError, AllocFailed, Global};
use std::marker::Model;
use thiserror::Error;

/// How many hex digits a key has. They are a block of SHA-256, so HMAC takes them as they are.
pub const KEY_BYTES: usize = 64;

/// The most bytes of a file of keys: 16 lines.
pub const MOST_FILE_BYTES: usize = 16 * (KEY_BYTES + 1);

/// A key: 64 hex digits, as `openssl rand -hex 32` writes them. The digits themselves are the key of HMAC, as the text is for other
/// libraries. Contracts see it as its bytes.
pub struct Key {
    digits: [u8; 64],
}

impl Drop for Key {
    fn drop(self) {
        let Key { digits: _ } = self;
    }
}

impl Model for Key {
    ghost use Rattle.std.specs.Prelude.{ℕ, List, IsTrue};
    ghost use Rattle.app_tokens.specs.Keys.{is_key};

    ghost Value = { List ℕ };

    ghost view = { λ key. key.digits };

    ghost invariant = { λ key. IsTrue (is_key key.digits) };
}

impl Key {
    /// Returns the key of these bytes, if they are 64 hex digits.
    pub fn new(text: &[u8]) -> Option<Key>
        ensures same { IfSome result (λ key. key ≡ text.now) }
        ensures exact { IsSome result ↔ IsTrue (is_key text.now) }
    {
        if !are_hex_digits(text) {
            return None;
        }
        match <[u8; 64]>::try_from(text) {
            Ok(digits) => Some(Key { digits }),
            Err(_) => None,
        }
    }

    /// Returns its digits.
    pub(crate) fn digits(&self) -> &[u8; 64]
        ensures { result.now ≡ self.now }
    {
        &self.digits
    }
}

/// Why a text has no keys: the first case that holds.
#[derive(Clone, Copy, Debug, PartialEq, Eq, Error)]
pub enum KeysError {
    /// It has more than 1,040 bytes, which are 16 lines.
    #[error("more than 16 keys")]
    TooLong,
    /// This line, counted from 1, is the first that isn't 64 hex digits. An empty text has one line, which is empty.
    #[error("line {0} isn't 64 hex digits")]
    NotAKey(usize),
    /// Memory ran out.
    #[error("out of memory")]
    Memory,
}

impl From<AllocError> for KeysError {
    ghost use Rattle.app_tokens.specs.declared.keys.KeysError.TheVariants.{Memory};

    ghost from_gives = { λ _ e. e ≡ Memory };

    fn from(_: AllocError) -> KeysError {
        KeysError::Memory
    }
}

impl<T: Drop> From<AllocFailed<T>> for KeysError {
    ghost use Rattle.app_tokens.specs.declared.keys.KeysError.TheVariants.{Memory};

    ghost from_gives = { λ _ e. e ≡ Memory };

    fn from(_: AllocFailed<T>) -> KeysError {
        KeysError::Memory
    }
}

/// Returns the keys in a text: each line is one, and the last line may end without a line feed.
///
/// A token that one of several keys has signed is good, so a new key is added before the old one goes. `TooLong` comes exactly if the text is
/// too long, and `NotAKey` exactly if a line of a text that isn't is no key. `Memory` can be returned in place of keys, or of `NotAKey`.
pub fn keys_in(alloc: Global, text: &[u8]) -> Result<Vec<Key>, KeysError>
    ensures keys { IfOk result (λ keys. keys_in text.now ≡ Ok keys.items) }
    ensures refused { IfErr result (λ e. e ≢ KeysError.Memory → keys_in text.now ≡ Err e) }
{
    if text.len() > MOST_FILE_BYTES {
        return Err(KeysError::TooLong);
    }
    let mut keys = Vec::new(alloc);
    let mut rest = without_last_feed(text);
    while let Some((line, more)) = cut(rest, b"\n") {
        add_key(&mut keys, line)?;
        rest = more;
    }
    add_key(&mut keys, rest)?;
    Ok(keys)
}

// Appends the key in this line, the next after those of `keys`.
fn add_key(keys: &mut Vec<Key>, line: &[u8]) -> Result<(), KeysError>
    ensures key { OnOk result (IsTrue (is_key line.now) × (keys.new.items ≡ keys.old.items ++ line.now ∷ [])) }
    ensures refused { IfErr result (λ e. e ≢ KeysError.Memory → (e ≡ KeysError.NotAKey (length keys.old.items + 1)) × (is_key line.now ≡ false)) }
{
    let Some(key) = Key::new(line) else {
        return Err(KeysError::NotAKey(keys.len() + 1));
    };
    keys.push(key)?;
    Ok(())
}

// Returns the text without the line feed at its end, if it has one.
fn without_last_feed(text: &[u8]) -> &[u8]
    ensures { result.now ≡ without_last_feed text.now }
{
    match text.split_last() {
        Some((b'\n', front)) => front,
        _ => text,
    }
}

// Checks whether each byte is a hex digit.
fn are_hex_digits(text: &[u8]) -> bool
    ensures { result ≡ list_all is_hex_digit text.now }
{
    text.iter().all(|b| is_hex_digit(*b))
}

// Checks whether the byte is a hex digit.
fn is_hex_digit(b: u8) -> bool
    ensures { result ≡ is_hex_digit b }
{
    matches!(b, b'0'..=b'9' | b'a'..=b'f' | b'A'..=b'F')
}
