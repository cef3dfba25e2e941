// The text of a message, which may share a part.
ghost use Rattle.std.specs.Prelude.{◌≡◌, ◌++◌, IfOk, map};
ghost use Rattle.net_outbox.specs.Texts.{text_bytes};

use bytes::Bytes;
use std::alloc::{AllocError, Global};

// The fewest bytes that are shared; fewer are copied.
const LEAST_SHARED: usize = 16 * 1024;

/// The text of a message: its own bytes, and then bytes that it shares with other texts, as each copy of a document does.
#[derive(Drop)]
pub struct Text {
    own: Vec<u8>,
    shared: Bytes,
}

impl Text {
    /// Returns a text that shares nothing.
    #[tactic(auto, using(crate::proofs::Texts::owned))]
    pub fn of(own: Vec<u8>) -> Text
        ensures { text_bytes result ≡ own.items }
    {
        Text {
            own,
            shared: Bytes::new(),
        }
    }

    /// Returns a text of these bytes of its own, and then the shared ones. Fewer than 16 KiB are copied instead.
    /// Errors: out of memory.
    #[tactic(auto, using(crate::proofs::Texts::owned))]
    pub fn sharing(own: Vec<u8>, shared: &Bytes) -> Result<Text, AllocError>
        ensures { IfOk result (λ text. text_bytes text ≡ own.items ++ shared.now) }
    {
        if shared.len() >= LEAST_SHARED {
            return Ok(Text {
                own,
                shared: shared.clone()?,
            });
        }
        let mut own = own;
        own.extend_from_slice(shared.as_slice())?;
        Ok(Text::of(own))
    }

    /// Returns its own bytes, which come first.
    pub fn own(&self) -> &[u8]
        ensures { result.now ≡ self.now.own.items }
    {
        &self.own
    }

    /// Returns the bytes that it shares, which follow its own.
    pub fn shared(&self) -> &Bytes
        ensures { result.now ≡ self.now.shared }
    {
        &self.shared
    }
}

/// Returns a text of each of these, which shares nothing. Errors: out of memory.
#[tactic(auto, using(crate::proofs::Texts::one_more))]
pub fn own_texts(alloc: Global, texts: Vec<Vec<u8>>) -> Result<Vec<Text>, AllocError>
    ensures { IfOk result (λ own. map text_bytes own.items ≡ map (λ text. text.items) texts.items) }
{
    let mut own = Vec::with_capacity(alloc, texts.len())?;
    for text in texts {
        own.push(Text::of(text))?;
    }
    Ok(own)
}
