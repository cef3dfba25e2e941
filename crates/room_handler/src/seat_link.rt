// A client's link to a seat in the same process.
ghost use Rattle.std.specs.Prelude.{◌≡◌, IfErr, IfOk, map};
ghost use Rattle.canvas_judge.specs.Seen.{seen_message};
ghost use Rattle.canvas_nodes.specs.Answers.{IsAnswer};
ghost use Rattle.room_handler.specs.Links.{Grants, RefusesRound};
ghost use Rattle.room_handler.specs.Table.{Gives, SeesOn};

use crate::messages::refusal;
use crate::{Plain, answer};
use canvas_board::RoomName;
use canvas_journal::Keeper;
use canvas_judge::Message;
use canvas_nodes::{Link, LinkError};
use canvas_room::{Lock, Seat};
use std::alloc::{AllocError, Global};
use std::marker::Model;
use std::sync::Wait;

/// A link to a seat in the same process. Contracts see it as its seat.
pub struct SeatLink<N: RoomName, D: Drop, W: Drop> {
    alloc: Global,
    rt: W,
    seat: Seat<N, D>,
}

impl<N: RoomName, D: Drop, W: Drop> Drop for SeatLink<N, D, W> {
    fn drop(self) {
        let SeatLink {
            alloc: _,
            rt: _,
            seat: _,
        } = self;
    }
}

impl<N: RoomName, D: Drop, W: Drop> Model for SeatLink<N, D, W> {
    ghost use Rattle.std.specs.Prelude.{List};
    ghost use Rattle.std.specs.Coded.{codes};
    ghost use Rattle.canvas_model.specs.Codes.{value_code};
    ghost use Rattle.canvas_board.specs.Marks.{Mark};

    ghost Value = { List Mark };

    ghost coded = { Prim.hlevel (codes, value_code) };

    ghost view = { λ l. l.seat };
}

impl<N: RoomName, D: Drop, W: Drop> SeatLink<N, D, W> {
    /// A link to this seat, which waits by `rt`.
    pub fn new(alloc: Global, rt: W, seat: Seat<N, D>) -> Self
        ensures { result ≡ seat }
    {
        SeatLink { alloc, rt, seat }
    }

    /// The seat.
    pub fn into_seat(self) -> Seat<N, D>
        ensures { result ≡ self }
    {
        let SeatLink {
            alloc: _,
            rt: _,
            seat,
        } = self;
        seat
    }
}

impl<K: Keeper + Drop, N: RoomName, R: Wait + Drop, W: Wait + Drop> SeatLink<N, Lock<K, N, R>, W> {
    // Returns its seat's answer to a message, on `Plain` terms. Errors: out of memory.
    fn told(&mut self, message: Message) -> Result<Vec<Message>, AllocError>
        ensures gives { IfOk result (λ answer. Gives N.opening self.old (seen_message message) (map seen_message answer.items) self.new) }
        ensures whole { IfOk result (λ answer. IsAnswer (map seen_message answer.items)) }
        ensures sees { SeesOn N.opening self.old self.new }
    {
        answer(self.alloc, &self.rt, &mut self.seat, message, &Plain)
    }
}

impl<K: Keeper + Drop, N: RoomName, R: Wait + Drop, W: Wait + Drop> Link
    for SeatLink<N, Lock<K, N, R>, W> {
    ghost gives = { Grants N.opening };

    ghost fails = { RefusesRound N.opening };

    /// The seat's answer. Refused where that is a No, and `Memory` if memory runs out for it.
    fn round(&mut self, message: Message) -> Result<Vec<Message>, LinkError>
        ensures gives { IfOk result (λ answer. Grants N.opening self.old (seen_message message) (map seen_message answer.items) self.new) }
        ensures whole { IfOk result (λ answer. IsAnswer (map seen_message answer.items)) }
        ensures refused { IfErr result (λ e. RefusesRound N.opening self.old (seen_message message) e self.new) }
    {
        let answer = self.told(message)?;
        match refusal(&answer) {
            Some(reason) => Err(LinkError::Refused(reason)),
            None => Ok(answer),
        }
    }
}
