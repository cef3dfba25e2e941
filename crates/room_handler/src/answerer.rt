// A seat as what answers the clients of connections.
ghost use Rattle.std.specs.Prelude.{◌≡◌, ◌↔◌, ℕ, IfNone, IfOk, IfSome, IsTrue, map};
ghost use Rattle.std.specs.Option.{option_map};
ghost use Rattle.canvas_model.specs.Messages as messages;
ghost use Rattle.canvas_judge.specs.Seen.{seen_message};
ghost use Rattle.canvas_nodes.specs.Answers.{GivesTexts, IsAnswer, refusal_alone};
ghost use Rattle.net_outbox.specs.Texts.{text_bytes};
ghost use Rattle.canvas_board.specs.Marks.{board};
ghost use Rattle.canvas_board.specs.News.{HasReached};
ghost use Rattle.room_handler.specs.Seats.{SeatGives, SeatSeesOn};
ghost use Rattle.room_handler.specs.Table.{AnswersAsk, IsPush, TellsCopyAt};
ghost use Rattle.room_handler.specs.Told.{seen_told};

use crate::asking::{ask_told, push};
use crate::messages::{alone, refusal};
use crate::sharing::bytes_of_each;
use crate::told::told_refusal;
use crate::{Terms, Told, answer, told_texts};
use canvas_board::RoomName;
use canvas_journal::Keeper;
use canvas_judge::{Message, NoReason};
use canvas_nodes::{Answerer, texts_of};
use canvas_room::{Lock, Seat};
use canvas_server::Request;
use net_outbox::{Text, own_texts};
use std::alloc::{AllocError, Global};
use std::marker::Model;
use std::sync::Wait;

/// A seat that replies to clients on these terms, with what it needs to submit. Contracts see what its seat has seen, and the limit of an edit's
/// text.
pub struct SeatAnswerer<N: RoomName, D: Drop, W: Drop, T: Terms<N> + Drop> {
    alloc: Global,
    rt: W,
    seat: Seat<N, D>,
    terms: T,
}

impl<N: RoomName, D: Drop, W: Drop, T: Terms<N> + Drop> Drop for SeatAnswerer<N, D, W, T> {
    fn drop(self) {
        let SeatAnswerer {
            alloc: _,
            rt: _,
            seat: _,
            terms: _,
        } = self;
    }
}

impl<N: RoomName, D: Drop, W: Drop, T: Terms<N> + Drop> Model for SeatAnswerer<N, D, W, T> {
    ghost use Rattle.std.specs.Coded.{codes};
    ghost use Rattle.canvas_model.specs.Codes.{value_code};
    ghost use Rattle.room_handler.specs.Seats.{SeatValue};

    ghost Value = { SeatValue };

    ghost coded = { Prim.hlevel (codes, value_code) };

    ghost view = { λ a. record { seen = a.seat; limit = T.limit a.terms } };
}

impl<N: RoomName, D: Drop, W: Drop, T: Terms<N> + Drop> SeatAnswerer<N, D, W, T> {
    /// An answerer at this seat, on these terms, which waits by `rt`.
    pub fn new(alloc: Global, rt: W, seat: Seat<N, D>, terms: T) -> Self
        ensures { result ≡ record { seen = seat; limit = T.limit terms } }
    {
        SeatAnswerer {
            alloc,
            rt,
            seat,
            terms,
        }
    }

    /// Checks whether a client has joined, and so many entries are published. Never blocks. Errors: the room has ended.
    pub fn has_reached(&mut self, client: u32, version: u64) -> Result<bool, AllocError>
        ensures reached { IfOk result (λ answer. IsTrue answer ↔ HasReached (board N.opening self.new.seen) client version) }
        ensures sees { SeatSeesOn N.opening self.old self.new }
    {
        match self.seat.has_reached(client, version) {
            Ok(answer) => Ok(answer),
            // A seat keeps its room, so it is never closed.
            Err(_) => Err(AllocError),
        }
    }

    /// What a client is told unasked that was told all up to this version: `push`.
    pub fn push(&mut self, client: u32, version: u64) -> Result<Option<Vec<Told>>, AllocError>
        ensures tells { IfOk result (λ told. IsPush (board N.opening self.new.seen) client version (option_map (λ messages. map seen_told messages.items) told)) }
        ensures sees { SeatSeesOn N.opening self.old self.new }
    {
        push(self.alloc, &mut self.seat, client, version)
    }

    /// Returns the text of the copy that is pushed to a client at this version, and the copy's version, as its terms say. Returns `None` if it
    /// needs no copy. Errors: out of memory.
    pub fn push_copy(
        &mut self,
        client: u32,
        version: u64,
    ) -> Result<Option<(Text, u64)>, AllocError>
        ensures copy { IfOk result (λ told. IfSome told (λ copy. TellsCopyAt (board N.opening self.new.seen) client version (text_bytes copy.0) copy.1)) }
        ensures sees { SeatSeesOn N.opening self.old self.new }
    {
        self.terms
            .push_copy(self.alloc, &mut self.seat, client, version)
    }

    // Checks whether an Ask from this version gets a copy out of one for many.
    fn shares_copy(&mut self, version: u64) -> bool
        ensures { SeatSeesOn N.opening self.old self.new }
    {
        self.terms.shares_copy(self.alloc, &mut self.seat, version)
    }

    // Returns the texts of the answer to that Ask.
    fn copied(&mut self, client: u32, version: u64) -> Result<Vec<Text>, AllocError>
        ensures gives { IfOk result (λ ts. GivesTexts (SeatGives N.opening) self.old (messages.Ask client version) (map text_bytes ts.items) self.new) }
        ensures sees { SeatSeesOn N.opening self.old self.new }
    {
        self.terms
            .ask_texts(self.alloc, &mut self.seat, client, version)
    }

    // Returns the answer to any other Ask, and reports it to the terms.
    fn told(&mut self, client: u32, version: u64) -> Result<Vec<Told>, AllocError>
        ensures answers { IfOk result (λ told. AnswersAsk (board N.opening self.new.seen) client version (map seen_told told.items)) }
        ensures sees { SeatSeesOn N.opening self.old self.new }
    {
        let told = ask_told(self.alloc, &mut self.seat, client, version);
        let reason = match &told {
            Ok(messages) => told_refusal(messages),
            Err(_) => Some(NoReason::Memory),
        };
        self.terms.answered(reason);
        told
    }

    // Returns the texts of that answer, if its terms let them wait to be sent. Errors: out of memory; they don't, and then no text is written.
    fn asked(
        &mut self,
        alloc: Global,
        client: u32,
        version: u64,
    ) -> Result<Vec<Vec<u8>>, AllocError>
        ensures gives { IfOk result (λ ts. GivesTexts (SeatGives N.opening) self.old (messages.Ask client version) (map (λ t. t.items) ts.items) self.new) }
        ensures sees { SeatSeesOn N.opening self.old self.new }
    {
        let told = self.told(client, version)?;
        if !self.terms.may_send(&told) {
            return Err(AllocError);
        }
        told_texts(alloc, &told)
    }

    // Returns the texts of the answer to an Ask, out of a copy that many are sent, if its terms say so. Errors: out of memory; its terms don't
    // let the texts wait to be sent.
    fn ask_texts(
        &mut self,
        alloc: Global,
        client: u32,
        version: u64,
    ) -> Result<Vec<Text>, AllocError>
        ensures gives { IfOk result (λ ts. GivesTexts (SeatGives N.opening) self.old (messages.Ask client version) (map text_bytes ts.items) self.new) }
        ensures sees { SeatSeesOn N.opening self.old self.new }
    {
        if self.shares_copy(version) {
            return self.copied(client, version);
        }
        let texts = self.asked(alloc, client, version)?;
        own_texts(alloc, texts)
    }

    // Returns the bytes of each text of that answer. Errors: out of memory; its terms don't let the texts wait to be sent.
    fn ask_bytes(
        &mut self,
        alloc: Global,
        client: u32,
        version: u64,
    ) -> Result<Vec<Vec<u8>>, AllocError>
        ensures gives { IfOk result (λ ts. GivesTexts (SeatGives N.opening) self.old (messages.Ask client version) (map (λ t. t.items) ts.items) self.new) }
        ensures sees { SeatSeesOn N.opening self.old self.new }
    {
        if !self.shares_copy(version) {
            return self.asked(alloc, client, version);
        }
        let texts = self.copied(client, version)?;
        bytes_of_each(alloc, &texts)
    }

    // An answer that refuses an edit as too large. Errors: out of memory.
    fn too_large(&self) -> Result<Vec<Message>, AllocError>
        ensures { IfOk result (λ answer. map seen_message answer.items ≡ refusal_alone NoReason.TooLarge) }
    {
        alone(self.alloc, Message::No(NoReason::TooLarge))
    }

    // Reports the answer to a message to the terms.
    fn note(&self, answer: &Result<Vec<Message>, AllocError>) {
        let reason = match answer {
            Ok(messages) => refusal(messages),
            Err(_) => Some(NoReason::Memory),
        };
        self.terms.answered(reason);
    }
}

impl<K, N, R, W, T> SeatAnswerer<N, Lock<K, N, R>, W, T>
where
    K: Keeper + Drop,
    N: RoomName,
    R: Wait + Drop,
    W: Wait + Drop,
    T: Terms<N> + Drop,
{
    /// Returns the texts of the answer to a message, out of a copy that many are sent, if its terms say so. Errors: out of memory; its terms
    /// don't let the texts wait to be sent.
    pub fn reply_texts(&mut self, alloc: Global, message: Message) -> Result<Vec<Text>, AllocError>
        ensures gives { IfOk result (λ ts. GivesTexts (SeatGives N.opening) self.old (seen_message message) (map text_bytes ts.items) self.new) }
        ensures sees { SeatSeesOn N.opening self.old self.new }
    {
        match asked_of(&message) {
            Some((client, version)) => self.ask_texts(alloc, client, version),
            None => {
                let texts = self.answer_texts(alloc, message)?;
                own_texts(alloc, texts)
            }
        }
    }

    /// Gets edits judged and kept together, at most 64, before each gets its answer: those before the first message that is no edit or is over the
    /// limit; if memory runs out, fewer. Each then gets the answer that was judged here, if they come in their order and nothing else is
    /// done at the seat.
    pub fn judge_ahead(&mut self, messages: Vec<Message>)
        ensures { self.new ≡ self.old }
    {
        let mut requests = Vec::new(self.alloc);
        for message in messages {
            let Some(request) = self.edit_of(message) else {
                break;
            };
            if requests.push(request).is_err() {
                break;
            }
        }
        if requests.len() > 1 {
            self.seat.judge_ahead(&self.rt, requests);
        }
    }

    // Returns the request of an edit; `None` if the message is no edit or is over the limit, or memory runs out.
    fn edit_of(&self, message: Message) -> Option<Request> {
        if !matches!(&message, Message::Edit { .. }) {
            return None;
        }
        match self.terms.is_over_limit(self.alloc, &message) {
            Ok(false) => Request::asked_by(message),
            Ok(true) | Err(_) => None,
        }
    }

    // Returns the texts of the answer to a message that shares nothing. Errors: out of memory.
    fn answer_texts(&mut self, alloc: Global, message: Message) -> Result<Vec<Vec<u8>>, AllocError>
        ensures gives { IfOk result (λ ts. GivesTexts (SeatGives N.opening) self.old (seen_message message) (map (λ t. t.items) ts.items) self.new) }
        ensures sees { SeatSeesOn N.opening self.old self.new }
    {
        let answer = self.given(message)?;
        texts_of(alloc, &answer)
    }

    // Returns the answer to a message, and reports it to the terms. Errors: out of memory.
    fn given(&mut self, message: Message) -> Result<Vec<Message>, AllocError>
        ensures gives { IfOk result (λ answer. SeatGives N.opening self.old (seen_message message) (map seen_message answer.items) self.new) }
        ensures whole { IfOk result (λ answer. IsAnswer (map seen_message answer.items)) }
        ensures sees { SeatSeesOn N.opening self.old self.new }
    {
        let answer = self.answered(message);
        self.note(&answer);
        answer
    }

    // Returns the answer to a message. Makes a checkpoint after it, if one is due. Errors: out of memory.
    fn answered(&mut self, message: Message) -> Result<Vec<Message>, AllocError>
        ensures gives { IfOk result (λ answer. SeatGives N.opening self.old (seen_message message) (map seen_message answer.items) self.new) }
        ensures whole { IfOk result (λ answer. IsAnswer (map seen_message answer.items)) }
        ensures sees { SeatSeesOn N.opening self.old self.new }
    {
        let is_over = self.terms.is_over_limit(self.alloc, &message)?;
        if is_over {
            return self.too_large();
        }
        answer(self.alloc, &self.rt, &mut self.seat, message, &self.terms)
    }
}

impl<K, N, R, W, T> Answerer for SeatAnswerer<N, Lock<K, N, R>, W, T>
where
    K: Keeper + Drop,
    N: RoomName,
    R: Wait + Drop,
    W: Wait + Drop,
    T: Terms<N> + Drop,
{
    ghost use Rattle.room_handler.specs.Seats.{SeatGives};

    ghost gives = { SeatGives N.opening };

    fn answer(&mut self, message: Message) -> Result<Vec<Message>, AllocError> {
        self.given(message)
    }

    fn texts(&mut self, alloc: Global, message: Message) -> Result<Vec<Vec<u8>>, AllocError> {
        match asked_of(&message) {
            Some((client, version)) => self.ask_bytes(alloc, client, version),
            None => self.answer_texts(alloc, message),
        }
    }
}

// Returns the client and the version of an Ask. Returns `None` for any other message.
fn asked_of(message: &Message) -> Option<(u32, u64)>
    ensures some { IfSome result (λ ask. seen_message message.now ≡ messages.Ask ask.0 ask.1) }
    ensures none { IfNone result ((client version : ℕ) → seen_message message.now ≡ messages.Ask client version → ⊥) }
{
    match message {
        Message::Ask { client, version } => Some((*client, *version)),
        _ => None,
    }
}
