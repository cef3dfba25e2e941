// The names of nodes, and their numbers.
ghost use Rattle.std.specs.Prelude.{◌≡◌, ◌↔◌, IfOk, IsTrue, OnErr, OnOk, length};
ghost use Rattle.std.specs.List.{list_all};
ghost use Rattle.std.specs.Option.{option_copied};
ghost use Rattle.canvas_model.specs.Numbered.{nth};
ghost use Rattle.canvas_script.specs.Names.{IsNodeName, IsNumber, is_node_byte, is_used, names_after_use};

use indexmap::IndexSet;
use std::alloc::{AllocError, Global};
use std::marker::Model;

/// The most bytes that a node's name has.
pub const MAX_NAME_LEN: usize = 16;

/// The names of a script's nodes, in the order of their first uses. Nodes are numbered from 1.
///
/// A contract sees it as the list of the names, which are all different.
#[derive(Drop)]
pub struct Names {
    names: IndexSet<Vec<u8>>,
}

impl Model for Names {
    ghost use Rattle.std.specs.Prelude.{List, ℕ, map};
    ghost use Rattle.std.specs.Coded.{codes};
    ghost use Rattle.canvas_script.specs.Names.{AreNames};

    ghost Value = { List (List ℕ) };

    ghost coded = { Prim.hlevel codes };

    ghost view = { λ n. map (λ name. name.items) n.names.keys };

    ghost invariant = { λ n. AreNames (map (λ name. name.items) n.names.keys) };
}

impl Names {
    /// No names.
    pub fn new(alloc: Global) -> Self
        ensures { length result ≡ 0 }
    {
        Names {
            names: IndexSet::new(alloc),
        }
    }

    /// How many names there are.
    pub fn len(&self) -> u64
        ensures { result ≡ length self.now }
    {
        self.names.len() as u64
    }

    /// Checks whether no name was used.
    pub fn is_empty(&self) -> bool
        ensures { IsTrue result ↔ (length self.now ≡ 0) }
    {
        self.names.is_empty()
    }

    /// The name of the k-th node, from 1. `None` where there are fewer names.
    pub fn name(&self, k: u64) -> Option<&[u8]>
        ensures { option_copied result ≡ nth self.now k }
    {
        if k == 0 {
            return None;
        }
        let name = self.names.get_index((k - 1) as usize)?;
        Some(name.as_slice())
    }

    /// Checks whether the name was used.
    pub fn contains(&self, name: &[u8]) -> bool
        ensures { result ≡ is_used self.now name.now }
    {
        self.names.contains(name)
    }

    /// The name's rank, from 1, among the names in the order of their first uses. At its first use
    /// the name is added. Fails only if memory runs out, and then nothing has changed.
    pub fn number(&mut self, name: &[u8]) -> Result<u64, AllocError>
        requires { IsNodeName name.now }
        ensures number { IfOk result (IsNumber self.new name.now) }
        ensures used { OnOk result (self.new ≡ names_after_use self.old name.now) }
        ensures err { OnErr result (self.new ≡ self.old) }
    {
        let next = self.names.len() as u64 + 1;
        if let Some(index) = self.names.get_index_of(name) {
            return Ok(index as u64 + 1);
        }
        let name = Vec::from_slice(*self.names.allocator(), name)?;
        self.names.insert(name)?;
        Ok(next)
    }
}

/// Checks whether it is a node's name: 1 to 16 of `a` to `z` and `0` to `9`, but not `server`.
pub fn is_node_name(word: &[u8]) -> bool
    ensures { IsTrue result ↔ IsNodeName word.now }
{
    if word.is_empty() || word.len() > MAX_NAME_LEN {
        return false;
    }
    are_node_bytes(word) && word != b"server".as_slice()
}

// Checks whether a node's name may have the byte.
fn is_node_byte(byte: u8) -> bool
    ensures { result ≡ is_node_byte byte }
{
    byte.is_ascii_lowercase() || byte.is_ascii_digit()
}

// Checks whether a node's name may have each of the bytes.
fn are_node_bytes(bytes: &[u8]) -> bool
    ensures { result ≡ list_all is_node_byte bytes.now }
{
    bytes.iter().all(|byte| is_node_byte(*byte))
}
