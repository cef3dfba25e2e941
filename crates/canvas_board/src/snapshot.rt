// What is published at one moment.
ghost use Rattle.std.specs.Prelude.{◌≡◌, IfOk};
ghost use Rattle.canvas_board.specs.Marks.{board};

use crate::{Board, Front, RoomName};
use canvas_judge::State;
use std::alloc::{AllocError, Global};
use std::marker::Model;

/// A copy of what is published at one moment. Contracts see it as the history that it is the board of.
pub struct Snapshot<N: RoomName> {
    front: Front<N>,
    state: State,
    version: u64,
    floor: u64,
}

impl<N: RoomName> Drop for Snapshot<N> {
    fn drop(self) {
        let Snapshot {
            front: _,
            state: _,
            version: _,
            floor: _,
        } = self;
    }
}

impl<N: RoomName> Model for Snapshot<N> {
    ghost use Rattle.std.specs.Prelude.{◌≡◌, List};
    ghost use Rattle.std.specs.Coded.{codes};
    ghost use Rattle.canvas_model.specs.Codes.{value_code};
    ghost use Rattle.canvas_board.specs.Marks.{Mark, board};

    ghost Value = { List Mark };

    ghost coded = { Prim.hlevel (codes, value_code) };

    ghost view = { λ s. s.front };

    ghost invariant = { λ s. (s.state ≡ (board N.opening s.front).state) × (s.version ≡ (board N.opening s.front).version) × (s.floor ≡ (board N.opening s.front).floor) };
}

impl<N: RoomName> Snapshot<N> {
    /// A copy of this board. Errors: out of memory.
    pub(crate) fn of(alloc: Global, shown: &Board<N>) -> Result<Snapshot<N>, AllocError>
        ensures { IfOk result (λ s. s ≡ shown.now) }
    {
        let page = shown.page();
        Ok(Snapshot {
            front: shown.front().again(),
            state: page.state().copy_in(alloc)?,
            version: page.version(),
            floor: page.floor(),
        })
    }

    /// Its history.
    pub fn front(&self) -> &Front<N>
        ensures { result.now ≡ self.now }
    {
        &self.front
    }

    /// The state that is published.
    pub fn state(&self) -> &State
        ensures { result.now ≡ (board N.opening self.now).state }
    {
        &self.state
    }

    /// How many entries are published.
    pub fn version(&self) -> u64
        ensures { result ≡ (board N.opening self.now).version }
    {
        self.version
    }

    /// How many entries the last checkpoint let go of.
    pub fn floor(&self) -> u64
        ensures { result ≡ (board N.opening self.now).floor }
    {
        self.floor
    }
}
