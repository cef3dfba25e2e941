// The terms of a seat that replies to clients.
ghost use Rattle.std.specs.Prelude.{◌↔◌, IfOk, IfSome, IsTrue, map};
ghost use Rattle.canvas_model.specs.Messages as messages;
ghost use Rattle.canvas_judge.specs.Seen.{seen_message};
ghost use Rattle.canvas_board.specs.Marks.{board};
ghost use Rattle.canvas_nodes.specs.Answers.{GivesTexts};
ghost use Rattle.net_outbox.specs.Texts.{text_bytes};
ghost use Rattle.room_handler.specs.Seats.{IsOverLimit};
ghost use Rattle.room_handler.specs.Table.{Gives, SeesOn, TellsCopyAt};

use crate::Told;
use crate::sharing::texts_anew;
use canvas_board::RoomName;
use canvas_desk::TailLimit;
use canvas_judge::{Message, NoReason};
use canvas_room::{EveryEntries, Pace, Seat};
use net_outbox::Text;
use std::alloc::{AllocError, Global};

// The number of entries after which a checkpoint is made by default. It keeps none of them.
const CHECKPOINT_AT: u64 = 256;

/// The terms of a seat: which edits are too large, when a checkpoint is made, and which Asks get a copy out of one for many.
pub trait Terms<N: RoomName>: Pace {
    ghost use Rattle.std.specs.Prelude.{ℕ, Option};

    /// How many bytes the text of an edit may have, if there is a limit.
    ghost limit: { Self → Option ℕ };

    /// Checks whether a message is an edit over the limit. Errors: out of memory.
    fn is_over_limit(&self, alloc: Global, message: &Message) -> Result<bool, AllocError>
        ensures { IfOk result (λ over. IsTrue over ↔ IsOverLimit (limit self.now) (seen_message message.now)) };

    /// Checks whether an Ask from this version gets a copy out of one for many. It may look at what is published.
    fn shares_copy<D: Drop>(&self, alloc: Global, seat: &mut Seat<N, D>, version: u64) -> bool
        ensures { SeesOn N.opening seat.old seat.new };

    /// Returns the texts of the answer to that Ask. Errors: out of memory; no room for a copy.
    fn ask_texts<D: Drop>(
        &self,
        alloc: Global,
        seat: &mut Seat<N, D>,
        client: u32,
        version: u64,
    ) -> Result<Vec<Text>, AllocError>
        ensures gives { IfOk result (λ ts. GivesTexts (Gives N.opening) seat.old (messages.Ask client version) (map text_bytes ts.items) seat.new) }
        ensures sees { SeesOn N.opening seat.old seat.new };

    /// Returns the text of the copy that is pushed to a client at this version, and the copy's version. Returns `None` if it needs no copy.
    /// Errors: out of memory.
    fn push_copy<D: Drop>(
        &self,
        alloc: Global,
        seat: &mut Seat<N, D>,
        client: u32,
        version: u64,
    ) -> Result<Option<(Text, u64)>, AllocError>
        ensures copy { IfOk result (λ told. IfSome told (λ copy. TellsCopyAt (board N.opening seat.new) client version (text_bytes copy.0) copy.1)) }
        ensures sees { SeesOn N.opening seat.old seat.new };

    /// Checks whether the texts of these messages, which answer an Ask, may be written and wait to be sent. It may block until they may; as a
    /// rule they always may.
    fn may_send(&self, _told: &[Told]) -> bool {
        true
    }

    /// Called once an entry of this seat's is published, with its version. It is for what contracts don't see. By default it does nothing.
    fn published(&self, _version: u64) {}

    /// Called after any other answer, with the reason if that is a No. It is for what contracts don't see. By default it does nothing.
    fn answered(&self, _refusal: Option<NoReason>) {}
}

/// Terms without a limit of edits and without a shared copy, with a checkpoint whenever 256 entries are kept.
#[derive(Clone, Copy, Debug, PartialEq, Eq)]
pub struct Plain;

impl Pace for Plain {
    fn is_due(&self, kept: u64) -> bool {
        EveryEntries(CHECKPOINT_AT).is_due(kept)
    }

    fn tail(&self) -> TailLimit {
        EveryEntries(CHECKPOINT_AT).tail()
    }
}

impl<N: RoomName> Terms<N> for Plain {
    ghost use Rattle.std.specs.Prelude.{None};

    ghost limit = { λ _. None };

    fn is_over_limit(&self, _alloc: Global, _message: &Message) -> Result<bool, AllocError> {
        Ok(false)
    }

    fn shares_copy<D: Drop>(&self, _alloc: Global, _seat: &mut Seat<N, D>, _version: u64) -> bool {
        false
    }

    fn ask_texts<D: Drop>(
        &self,
        alloc: Global,
        seat: &mut Seat<N, D>,
        client: u32,
        version: u64,
    ) -> Result<Vec<Text>, AllocError> {
        texts_anew(alloc, seat, client, version)
    }

    fn push_copy<D: Drop>(
        &self,
        _alloc: Global,
        _seat: &mut Seat<N, D>,
        _client: u32,
        _version: u64,
    ) -> Result<Option<(Text, u64)>, AllocError> {
        Ok(None)
    }
}
