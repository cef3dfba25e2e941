// Receipts.
ghost use Rattle.std.specs.Prelude.{◌≡◌, ◌+◌};
ghost use Rattle.canvas_board.specs.Marks.{IsLegalHistory};
ghost use Rattle.canvas_board.specs.Receipts.{EndsWith};

use crate::{Front, RoomName};
use canvas_forms::SharedEntry;
use std::marker::Model;

/// That an entry is published: the entry, its version, and the history that it ends.
pub struct Receipt<N: RoomName> {
    entry: SharedEntry,
    version: u64,
    front: Front<N>,
}

impl<N: RoomName> Drop for Receipt<N> {
    fn drop(self) {
        let Receipt {
            entry: _,
            version: _,
            front: _,
        } = self;
    }
}

impl<N: RoomName> Model for Receipt<N> {
    ghost use Rattle.std.specs.Coded.{codes};
    ghost use Rattle.canvas_model.specs.Codes.{value_code};
    ghost use Rattle.canvas_board.specs.Receipts.{ReceiptValue};

    ghost Value = { ReceiptValue };

    ghost coded = { Prim.hlevel (codes, value_code) };

    ghost use Rattle.canvas_board.specs.Receipts.{EndsWith};

    ghost view = { λ r. record { history = r.front; entry = r.entry; version = r.version } };

    ghost invariant = { λ r. EndsWith N.opening r.front r.entry r.version };
}

impl<N: RoomName> Receipt<N> {
    /// The receipt of an entry that ends this history at this version.
    pub fn new(entry: SharedEntry, version: u64, front: Front<N>) -> Receipt<N>
        requires { EndsWith N.opening front entry version }
        ensures { result ≡ record { history = front; entry = entry; version = version } }
    {
        Receipt {
            entry,
            version,
            front,
        }
    }

    /// The version of its entry.
    pub fn version(&self) -> u64
        ensures { result ≡ self.now.version }
    {
        self.version
    }

    /// The version before its own.
    pub fn before(&self) -> u64
        ensures version { self.now.version ≡ result + 1 }
        ensures ends { EndsWith N.opening self.now.history self.now.entry self.now.version }
        ensures legal { IsLegalHistory N.opening self.now.history }
    {
        // What the type says of its history is known by this.
        let _known = self.front.len();
        self.version - 1
    }

    /// Its entry.
    pub fn entry(&self) -> &SharedEntry
        ensures { result.now ≡ self.now.entry }
    {
        &self.entry
    }

    /// The history that its entry ends.
    pub fn front(&self) -> &Front<N>
        ensures history { result.now ≡ self.now.history }
        ensures ends { EndsWith N.opening self.now.history self.now.entry self.now.version }
    {
        &self.front
    }
}
