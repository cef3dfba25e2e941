// Terms on which an Ask may be answered out of a copy that is held.
use canvas_board::RoomName;
use canvas_desk::TailLimit;
use canvas_judge::Message;
use canvas_room::{Pace, Seat};
use net_outbox::Text;
use room_handler::{Plain, SharedCopy, Terms, ask_texts, copy_for};
use std::alloc::{AllocError, Global};
use std::cell::Cell;

/// Plain terms; if they share, each Ask is answered out of a copy that is held, where one is due.
pub struct Sharing<N: RoomName> {
    held: Cell<Option<SharedCopy<N>>>,
    is_shared: bool,
}

impl<N: RoomName> Drop for Sharing<N> {
    fn drop(self) {
        let Sharing {
            held: _,
            is_shared: _,
        } = self;
    }
}

impl<N: RoomName> Sharing<N> {
    /// No copy is held yet.
    pub fn new(is_shared: bool) -> Self {
        Sharing {
            held: Cell::new(None),
            is_shared,
        }
    }
}

impl<N: RoomName> Pace for Sharing<N> {
    fn is_due(&self, kept: u64) -> bool {
        Plain.is_due(kept)
    }

    fn tail(&self) -> TailLimit {
        Plain.tail()
    }
}

impl<N: RoomName> Terms<N> for Sharing<N> {
    ghost use Rattle.std.specs.Prelude.{None};

    ghost limit = { λ _. None };

    fn is_over_limit(&self, _alloc: Global, _message: &Message) -> Result<bool, AllocError> {
        Ok(false)
    }

    fn shares_copy<D: Drop>(&self, _alloc: Global, _seat: &mut Seat<N, D>, _version: u64) -> bool {
        self.is_shared
    }

    fn ask_texts<D: Drop>(
        &self,
        alloc: Global,
        seat: &mut Seat<N, D>,
        client: u32,
        version: u64,
    ) -> Result<Vec<Text>, AllocError> {
        let mut held = self.held.replace(None);
        let texts = ask_texts(alloc, seat, &mut held, 0, client, version);
        self.held.set(held);
        texts
    }

    fn push_copy<D: Drop>(
        &self,
        alloc: Global,
        seat: &mut Seat<N, D>,
        client: u32,
        version: u64,
    ) -> Result<Option<(Text, u64)>, AllocError> {
        let mut held = self.held.replace(None);
        let copy = copy_for(alloc, seat, &mut held, 0, client, version);
        self.held.set(held);
        copy
    }
}
