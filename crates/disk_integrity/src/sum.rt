// Sums of bytes that come one piece after another.
ghost use Rattle.std.specs.Prelude.{◌≡◌, ◌<◌, ◌^◌, ◌++◌, ◌↔◌, [], List, ℕ, length, IfOk, IsTrue, string_bytes};
ghost use Rattle.hex.specs.Hex.{encode_lower};
ghost use Rattle.sha2.specs.Sha256.{sha256};
ghost use Rattle.disk_integrity.specs.Lines.{sum_line};

use sha2::{Digest, Sha256};
use std::alloc::{AllocError, Global};

/// How many bytes were added so far, and their SHA-256.
#[derive(Drop)]
pub struct RunningSum {
    hasher: Sha256,
    // At the last number there is it stays.
    size: usize,
}

impl RunningSum {
    ghost use Rattle.disk_integrity.specs.Running.{IsSumOf, size_of};

    /// The sum of no bytes.
    pub fn new() -> RunningSum
        ensures { IsSumOf result [] }
    {
        RunningSum {
            hasher: Sha256::new(),
            size: 0,
        }
    }

    /// Adds bytes behind those that were added.
    pub fn add(&mut self, bytes: &[u8])
        ensures { (before : List ℕ) → IsSumOf self.old before → IsSumOf self.new (before ++ bytes.now) }
    {
        self.hasher.update(bytes);
        self.size = self.size.saturating_add(bytes.len());
    }

    /// How many bytes were added.
    pub fn size(&self) -> usize
        ensures { result ≡ size_of self.now }
    {
        self.size
    }

    /// The line of the bytes that were added: how many they are, in decimal, a space, and their SHA-256 as 64 hex digits. Fails only if
    /// memory runs out.
    ///
    /// Contracts say it of fewer than 2^64 bytes.
    pub fn line(&self, alloc: Global) -> Result<String, AllocError>
        ensures { IfOk result (λ line. (bytes : List ℕ) → IsSumOf self.now bytes → length bytes < 2 ^ 64 → string_bytes line ≡ sum_line bytes) }
    {
        let size = self.size;
        let digest = hex::encode(alloc, self.digest())?;
        format!(in alloc; "{size} {digest}\n")
    }

    // The SHA-256 of the bytes that were added.
    fn digest(&self) -> [u8; 32]
        ensures { (bytes : List ℕ) → IsSumOf self.now bytes → result ≡ sha256 bytes }
    {
        self.hasher.clone().unwrap().finalize()
    }

    // Checks whether this is the text of it.
    pub(crate) fn is_digest(&self, text: &[u8]) -> bool
        ensures { (bytes : List ℕ) → IsSumOf self.now bytes → IsTrue result ↔ (text.now ≡ encode_lower (sha256 bytes)) }
    {
        let mut digest = [0; 64];
        hex::encode_to_slice(self.digest(), &mut digest).is_ok() && digest.as_slice() == text
    }
}
