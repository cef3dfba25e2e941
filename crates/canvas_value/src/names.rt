//! Names of properties.
ghost use Rattle.std.specs.Prelude.{◌≡◌, ◌↔◌, IfOk, IfErr, IsTrue, Some, nat_eq, refl};
ghost use Rattle.std.specs.List.{list_all};
ghost use Rattle.std.specs.Cmp.{on_equiv, partial_equiv_from_equiv};
ghost use Rattle.std.specs.Cmp.Lexicographic.{nat_list_cmp_total, nat_list_eq_equiv, pointwise, texts_po, texts_ties};
ghost use Rattle.std.specs.Cmp.Rules.{hashing};
ghost use Rattle.std.specs.Fmt.{debug_str};
ghost use Rattle.std.specs.Hash as fed;
ghost use Rattle.std.proofs.Common.{rules};
ghost use Rattle.canvas_model.specs.Document.{name_cmp};
ghost use Rattle.canvas_value.specs.Names.{IsName, is_name_byte};

use std::alloc::{AllocError, Allocator, Global};
use std::cmp::Ordering;
use std::hash::{Hash, Hasher};
use std::marker::Model;
use std::{fmt, str};
use thiserror::Error;

/// The most bytes that a name has.
pub const MAX_NAME_LEN: usize = 32;

/// Why [`Name::read`] gives no name: the first case that holds, in this order.
#[derive(Clone, Copy, Debug, PartialEq, Eq, Error)]
pub enum NameError {
    /// There are no bytes.
    #[error("a name has at least one byte")]
    Empty,
    /// There are more than 32 bytes.
    #[error("a name has at most 32 bytes")]
    TooLong,
    /// A byte isn't one of `a` to `z`, `0` to `9` and `_`.
    #[error("a name has bytes of a to z, 0 to 9 and _ alone")]
    BadByte,
    /// The bytes are a name, and the memory for them was refused.
    #[error("out of memory")]
    Memory,
}

/// The name of a property: 1 to 32 bytes of `a` to `z`, `0` to `9` and `_`. Names are ordered by
/// their bytes.
///
/// A contract sees it as its bytes.
pub struct Name<A: Allocator = Global> {
    bytes: Vec<u8, A>,
}

impl<A: Allocator> Drop for Name<A> {
    fn drop(self) {
        let Name { bytes: _ } = self;
    }
}

impl<A: Allocator> Model for Name<A> {
    ghost use Rattle.std.specs.Prelude.{List, ℕ};
    ghost use Rattle.canvas_value.specs.Names.{IsName};

    ghost Value = { List ℕ };

    ghost view = { λ n. n.bytes.items };

    ghost invariant = { λ n. IsName n.bytes.items };
}

// Checks whether a name may have the byte.
fn is_name_byte(b: u8) -> bool
    ensures { result ≡ is_name_byte b }
{
    b.is_ascii_lowercase() || b.is_ascii_digit() || b == b'_'
}

// Checks whether a name may have each of the bytes.
fn are_name_bytes(bytes: &[u8]) -> bool
    ensures { result ≡ list_all is_name_byte bytes.now }
{
    bytes.iter().all(|b| is_name_byte(*b))
}

impl<A: Allocator> Name<A> {
    ghost use Rattle.canvas_value.specs.NameErrors.{IsNameError};

    /// Reads a name, as a copy of the bytes.
    ///
    /// It accepts exactly the names. Of anything else it gives the first of `Empty`, `TooLong` and
    /// `BadByte` that holds. `Memory` comes only if the bytes are a name and memory ran out.
    pub fn read(alloc: A, bytes: &[u8]) -> Result<Name<A>, NameError>
        ensures ok { IfOk result (λ n. n ≡ bytes.now) }
        ensures name { IfOk result IsName }

        // A name fails only if memory runs out.
        ensures only_memory { IsName bytes.now → IfErr result (λ e. e ≡ NameError.Memory) }
        ensures fault { IfErr result (IsNameError bytes.now) }
    {
        if bytes.is_empty() {
            return Err(NameError::Empty);
        }
        if bytes.len() > MAX_NAME_LEN {
            return Err(NameError::TooLong);
        }
        if !are_name_bytes(bytes) {
            return Err(NameError::BadByte);
        }
        match Vec::from_slice(alloc, bytes) {
            Ok(bytes) => Ok(Name { bytes }),
            Err(AllocError) => Err(NameError::Memory),
        }
    }

    /// The bytes of the name: 1 to 32, each of `a` to `z`, `0` to `9` and `_`.
    pub fn bytes(&self) -> &[u8]
        ensures value { result.now ≡ self.now }
        ensures name { IsName self.now }
    {
        &self.bytes
    }

    /// The bytes as text, which is ASCII.
    pub fn as_str(&self) -> &str
        ensures { result.now ≡ self.now }
    {
        match str::from_utf8(self.bytes.as_slice()) {
            Ok(text) => text,
            Err(_) => unreachable!(),
        }
    }

    /// Checks whether two names are the same, whichever allocators hold them. It takes no memory.
    pub fn same<B: Allocator>(&self, other: &Name<B>) -> bool
        ensures { IsTrue result ↔ (self.now ≡ other.now) }
    {
        self.bytes() == other.bytes()
    }

    /// The order of two names by their bytes, whichever allocators hold them. It takes no memory.
    pub fn compare<B: Allocator>(&self, other: &Name<B>) -> Ordering
        ensures { result ≡ name_cmp self.now other.now }
    {
        self.bytes().cmp(other.bytes())
    }

    /// The same name under another allocator. The error is that memory ran out.
    pub fn copy_in<B: Allocator>(&self, alloc: B) -> Result<Name<B>, AllocError>
        ensures { IfOk result (λ n. n ≡ self.now) }
    {
        let bytes = Vec::from_slice(alloc, self.bytes.as_slice())?;
        Ok(Name { bytes })
    }
}

impl<A: Allocator> PartialEq for Name<A> {
    ghost eq = { pointwise nat_eq };

    ghost laws = { partial_equiv_from_equiv nat_list_eq_equiv };

    fn eq(&self, other: &Name<A>) -> bool
        ensures value { result ≡ pointwise nat_eq self.now other.now }
        ensures same { IsTrue result ↔ (self.now ≡ other.now) }
    {
        self.same(other)
    }
}

impl<A: Allocator> Eq for Name<A> {
    ghost laws = { nat_list_eq_equiv };
}

impl<A: Allocator> PartialOrd for Name<A> {
    ghost partial_cmp = { λ m n. Some (name_cmp m n) };

    ghost laws = { texts_po };

    fn partial_cmp(&self, other: &Name<A>) -> Option<Ordering> {
        Some(self.cmp(other))
    }
}

impl<A: Allocator> Ord for Name<A> {
    ghost cmp = { name_cmp };

    ghost total = { nat_list_cmp_total };

    ghost matches_partial_cmp = { λ m n. refl };

    ghost matches_eq = { texts_ties };

    fn cmp(&self, other: &Name<A>) -> Ordering
        ensures { result ≡ name_cmp self.now other.now }
    {
        self.compare(other)
    }
}

impl<A: Allocator> Hash for Name<A> {
    ghost hash_input = { fed.slice fed.u8 };

    ghost respects_eq = { Prim.search (hashing, rules) };

    fn hash<H: Hasher>(&self, state: &mut H) {
        self.bytes().hash(state);
    }
}

/// Prints the bytes as they are.
impl<A: Allocator> fmt::Display for Name<A> {
    ghost output = { λ n. Some n };

    fn fmt<W: fmt::Write>(&self, f: &mut fmt::Formatter<W>) -> fmt::Result {
        f.pad(self.as_str())
    }
}

/// Prints the bytes as a text in quotes.
impl<A: Allocator> fmt::Debug for Name<A> {
    ghost debug_output = { debug_str };

    fn fmt<W: fmt::Write>(&self, f: &mut fmt::Formatter<W>) -> fmt::Result {
        fmt::Debug::fmt(self.as_str(), f)
    }
}
