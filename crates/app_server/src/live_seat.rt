// A seat as the connections of a worker have it: it answers messages, and tells what is published unasked.
ghost use Rattle.std.specs.Prelude.{◌≡◌, ◌↔◌, ◌≤◌, ◌⊎◌, ◌∷◌, [], None, IfErr, IfOk, IsTrue, MatchResult, OnErr, map};
ghost use Rattle.canvas_model.specs.Messages.{Idle};
ghost use Rattle.canvas_judge.specs.Seen.{seen_message};
ghost use Rattle.canvas_nodes.specs.Answers.{AreMessageTexts, refusal_alone};
ghost use Rattle.net_outbox.specs.Texts.{text_bytes};
ghost use Rattle.canvas_turns.specs.Told.{version_told};
ghost use Rattle.room_handler.specs.Seats.{SeatSeesOn};
ghost use Rattle.room_handler.specs.Told.{seen_told};
ghost use Rattle.canvas_sockets.specs.Turned.{RepliesInTexts};
ghost use Rattle.app_server.specs.Live.{BeginsAt, GivesLiveInTexts, IsTold, LiveReplies, LiveSeesOn, RefusesHere, RefusesPlace, RepliesToWord, TellsUnasked};

use crate::budget::pushed;
use crate::polling::Caller;
use crate::seat_terms::SeatTerms;
use crate::streams::Socket;
use app_listener::Shared;
use canvas_bell::Bell;
use canvas_board::RoomName;
use canvas_journal::Keeper;
use canvas_judge::{Message, NoReason};
use canvas_live::{Here, Place, Word};
use canvas_nodes::texts_of;
use canvas_room::Lock;
use canvas_sockets::Replier;
use canvas_turns::{Handler, Push};
use net_outbox::{Text, own_texts};
use room_handler::{SeatAnswerer, Terms, Told, told_texts};
use std::alloc::{AllocError, Global};
use std::collections::BTreeMap;
use std::marker::Model;
use std::rc::Rc;
use std::sync::Wait;
use std::time::Clock;

/// The seat of a worker's connections, of which it serves one at a time: it replies to messages, and pushes what is published to a live client.
/// Contracts see the seat, and the place of the client that it serves.
/// `T` are the terms of its answerer.
pub(crate) struct LiveSeat<'a, N: RoomName, D: Drop, W: Drop, T: Terms<N> + Drop> {
    answerer: SeatAnswerer<N, D, W, T>,
    terms: SeatTerms<'a, N, W>,
    place: Option<Place>,
    shared: &'a Shared,
    bell: &'a Bell<Caller>,
    // The socket of the connection that it serves now.
    socket: Option<Rc<Socket, Global>>,
    // The number up to which it is whispered now what others tell of themselves.
    until: u64,
}

impl<N: RoomName, D: Drop, W: Drop, T: Terms<N> + Drop> Drop for LiveSeat<'_, N, D, W, T> {
    fn drop(self) {
        let LiveSeat {
            answerer: _,
            terms: _,
            place: _,
            shared: _,
            bell: _,
            socket: _,
            until: _,
        } = self;
    }
}

impl<'a, N: RoomName, D: Drop, W: Drop, T: Terms<N> + Drop> Model for LiveSeat<'a, N, D, W, T> {
    ghost use Rattle.std.specs.Coded.{codes};
    ghost use Rattle.canvas_model.specs.Codes.{value_code};
    ghost use Rattle.app_server.specs.Live.{LiveValue};

    ghost Value = { LiveValue };

    ghost coded = { Prim.hlevel (codes, value_code) };

    ghost view = { λ s. record { seat = s.answerer; place = s.place } };
}

impl<'a, N: RoomName, D: Drop, W: Wait + Clock + Drop, T: Terms<N> + Drop> LiveSeat<
    'a,
    N,
    D,
    W,
    T,
> {
    /// Returns the seat of connections, which serves none. The terms are those of the answerer.
    pub(crate) fn new(
        answerer: SeatAnswerer<N, D, W, T>,
        terms: SeatTerms<'a, N, W>,
        shared: &'a Shared,
        bell: &'a Bell<Caller>,
    ) -> LiveSeat<'a, N, D, W, T>
        ensures { result ≡ record { seat = answerer; place = None } }
    {
        LiveSeat {
            answerer,
            terms,
            place: None,
            shared,
            bell,
            socket: None,
            until: 0,
        }
    }

    /// Serves the connection of this socket from now on, to which it is whispered what others have told of themselves up to this number.
    pub(crate) fn begin_step(&mut self, socket: Rc<Socket, Global>, until: u64)
        ensures { self.new ≡ self.old }
    {
        self.socket = Some(socket);
        self.until = until;
    }

    /// Serves no connection from now on: a socket is closed once nobody has it.
    pub(crate) fn end_step(&mut self)
        ensures { self.new ≡ self.old }
    {
        self.socket = None;
    }

    /// From now on its client is told from this place on, if it is told unasked.
    pub(crate) fn go_to_place(&mut self, place: Option<Place>)
        ensures { self.new ≡ record self.old { place = place } }
    {
        self.place = place;
    }

    /// From where its client is told unasked, if it is.
    pub(crate) fn own_place(&self) -> Option<Place>
        ensures { result ≡ self.now.place }
    {
        self.place
    }

    /// Its connection has ended.
    pub(crate) fn leave(&mut self)
        ensures { self.new ≡ record self.old { place = None } }
    {
        if let Some(place) = self.place {
            self.shared.figures.end_live();
            self.terms.end_here(place.client);
        }
        self.place = None;
        self.terms.leave();
    }

    // Rings for the entry that was published last, if one was since it rang.
    fn ring(&self) {
        if let Some(version) = self.terms.take_published() {
            self.bell.ring(version);
        }
    }

    // Returns what is pushed to a client at this place, maybe nothing. Errors: out of memory.
    fn told_after(&mut self, alloc: Global, place: Place) -> Result<Vec<Told>, AllocError>
        ensures tells { IfOk result (λ messages. TellsUnasked N.opening self.new.seat.seen place.client place.version (map seen_told messages.items)) }
        ensures sees { SeatSeesOn N.opening self.old.seat self.new.seat }
        ensures place { self.new.place ≡ self.old.place }
    {
        match self.answerer.push(place.client, place.version)? {
            Some(told) => Ok(told),
            None => Ok(Vec::new(alloc)),
        }
    }

    // Returns the reply to bytes that are no message: they may be a word of live connections.
    fn reply_to_word(&mut self, alloc: Global, bytes: &[u8]) -> Result<Vec<Text>, NoReason>
        ensures { MatchResult result
            (λ ts. RepliesInTexts (RepliesToWord N.opening) self.old bytes.now (map text_bytes ts.items) self.new)
            (λ reason. RepliesToWord N.opening self.old bytes.now (refusal_alone reason) self.new) }
    {
        match self.terms.word_in(alloc, bytes) {
            Ok(Some(Word::Live(place))) => self.begin(alloc, place),
            Ok(Some(Word::Here(here))) => self.hear(alloc, here),
            Ok(None) => Err(NoReason::NotRead),
            Err(_) => Err(NoReason::Memory),
        }
    }

    // Tells the others what its client tells of itself.
    fn hear(&mut self, alloc: Global, here: Here) -> Result<Vec<Text>, NoReason>
        ensures stays { self.new ≡ self.old }
        ensures hears { IfOk result (λ ts. AreMessageTexts (map text_bytes ts.items) (Idle ∷ []) × IsTold self.old.place here.client × (here.value_bytes ≤ 1024)) }
        ensures refuses { IfErr result (λ reason. (reason ≡ NoReason.Memory) ⊎ RefusesHere self.old here.client here.value_bytes reason) }
    {
        if !self.is_told(here.client) {
            return Err(self.terms.refuse(NoReason::Stranger));
        }
        if here.is_too_large() {
            return Err(self.terms.refuse(NoReason::TooLarge));
        }
        let Ok(texts) = idle_alone(alloc) else {
            return Err(NoReason::Memory);
        };
        match self.terms.tell_here(here) {
            Ok(()) => {
                self.terms.answer();
                Ok(texts)
            }
            Err(_) => Err(self.terms.refuse(NoReason::Memory)),
        }
    }

    // Checks whether its client is this one, and told unasked.
    fn is_told(&self, client: u32) -> bool
        ensures { IsTrue result ↔ IsTold self.now.place client }
    {
        match self.place {
            Some(place) => place.client == client,
            None => false,
        }
    }

    // Answers a client that wants to be told unasked from this place on.
    fn begin(&mut self, alloc: Global, place: Place) -> Result<Vec<Text>, NoReason>
        ensures begins { IfOk result (λ ts. AreMessageTexts (map text_bytes ts.items) (Idle ∷ []) × SeatSeesOn N.opening self.old.seat self.new.seat × BeginsAt N.opening self.old place (Idle ∷ []) self.new) }
        ensures refuses { IfErr result (λ reason. (reason ≡ NoReason.Memory) ⊎ ((reason ≡ NoReason.Stranger) × SeatSeesOn N.opening self.old.seat self.new.seat × RefusesPlace N.opening self.old place (refusal_alone reason) self.new)) }
        ensures sees { OnErr result (LiveSeesOn N.opening self.old self.new) }
    {
        let Ok(texts) = idle_alone(alloc) else {
            return Err(NoReason::Memory);
        };
        match self.answerer.has_reached(place.client, place.version) {
            Ok(true) => {
                self.terms.answer();
                match self.place {
                    Some(before) => if before.client != place.client {
                        self.terms.end_here(before.client);
                    },
                    None => self.shared.figures.begin_live(),
                }
                self.place = Some(place);
                Ok(texts)
            }
            Ok(false) => Err(self.terms.refuse(NoReason::Stranger)),
            Err(_) => Err(self.terms.refuse(NoReason::Memory)),
        }
    }
}

impl<'a, K, N, R, W, T> LiveSeat<'a, N, Lock<K, N, R>, W, T>
where
    K: Keeper + Drop,
    N: RoomName,
    R: Wait + Drop,
    W: Wait + Clock + Drop,
    T: Terms<N> + Drop,
{
    // Gets the edits judged together that have come with this message, if it is one of them and they weren't yet.
    fn judge_ahead(&mut self, alloc: Global, bytes: &[u8])
        ensures { self.new ≡ self.old }
    {
        let Some(socket) = &self.socket else {
            return;
        };
        let texts = socket.inbox().take_run(bytes, EDIT);
        self.judge_all(alloc, &texts);
    }

    /// Gets edits judged together that have come on connections of the worker, before each is handed out.
    pub(crate) fn judge_all(&mut self, alloc: Global, texts: &[Vec<u8>])
        ensures { self.new ≡ self.old }
    {
        if texts.len() < 2 {
            return;
        }
        if let Ok(edits) = edits_of(alloc, &self.terms, texts) {
            self.answerer.judge_ahead(edits);
        }
    }

    // The reply to a message that a client sends. Rings for what it published, if it did.
    fn reply_to_asked(&mut self, alloc: Global, message: Message) -> Result<Vec<Text>, NoReason>
        ensures gives { IfOk result (λ ts. GivesLiveInTexts N.opening self.old (seen_message message) (map text_bytes ts.items) self.new) }
        ensures memory { IfErr result (λ reason. reason ≡ NoReason.Memory) }
        ensures sees { LiveSeesOn N.opening self.old self.new }
    {
        let texts = self.answerer.reply_texts(alloc, message);
        self.ring();
        match texts {
            Ok(texts) => Ok(texts),
            Err(_) => Err(NoReason::Memory),
        }
    }

    // The reply to the bytes of a message.
    fn reply_to(&mut self, alloc: Global, bytes: &[u8]) -> Result<Vec<Text>, NoReason>
        ensures { MatchResult result
            (λ ts. RepliesInTexts (LiveReplies N.opening) self.old bytes.now (map text_bytes ts.items) self.new)
            (λ reason. LiveReplies N.opening self.old bytes.now (refusal_alone reason) self.new) }
    {
        match self.terms.asked(alloc, bytes) {
            Ok(message) => self.reply_to_asked(alloc, message),
            Err(NoReason::NotRead) => self.reply_to_word(alloc, bytes),
            Err(reason) => Err(reason),
        }
    }
}

impl<'a, K, N, R, W, T> Replier for LiveSeat<'a, N, Lock<K, N, R>, W, T>
where
    K: Keeper + Drop,
    N: RoomName,
    R: Wait + Drop,
    W: Wait + Clock + Drop,
    T: Terms<N> + Drop,
{
    ghost replies = { LiveReplies N.opening };

    fn reply(&mut self, alloc: Global, bytes: &[u8]) -> Result<Vec<Text>, NoReason> {
        self.judge_ahead(alloc, bytes);
        self.reply_to(alloc, bytes)
    }

    fn sent(&mut self) {
        self.terms.sent();
    }
}

impl<'a, K, N, R, W, T> Handler for LiveSeat<'a, N, Lock<K, N, R>, W, T>
where
    K: Keeper + Drop,
    N: RoomName,
    R: Wait + Drop,
    W: Wait + Clock + Drop,
    T: Terms<N> + Drop,
{
    ghost use Rattle.app_server.specs.Live.{LiveGoesTo, LiveServesOthers, LiveTells, TellsSomeHere};

    ghost tells = { LiveTells N.opening };

    ghost goes_to = { LiveGoesTo };

    ghost whispers = { TellsSomeHere };

    ghost between = { LiveServesOthers };

    fn place(&self) -> Option<u64> {
        let place = self.place?;
        Some(place.version)
    }

    fn push(&mut self, alloc: Global) -> Result<Push, AllocError> {
        let Some(place) = self.place else {
            return Ok(nothing(alloc, false));
        };
        if !self.terms.may_tell() {
            return Ok(nothing(alloc, true));
        }
        if let Some((copy, version)) = self.answerer.push_copy(place.client, place.version)? {
            return Ok(Push {
                texts: Vec::from_array(alloc, [copy])?,
                versions: Vec::from_array(alloc, [version])?,
                is_held: false,
            });
        }
        if self.terms.awaits_copy() {
            return Ok(nothing(alloc, true));
        }
        let mut told = self.told_after(alloc, place)?;
        let count = pushed(&told);
        told.truncate(count);
        let texts = told_texts(alloc, &told)?;
        let texts = own_texts(alloc, texts)?;
        if !self.terms.takes(&texts) {
            return Ok(nothing(alloc, true));
        }
        Ok(Push {
            texts,
            versions: versions_of(alloc, &told)?,
            is_held: false,
        })
    }

    fn whisper(&mut self, alloc: Global) -> Result<Vec<Text>, AllocError> {
        if self.place.is_none() {
            return Ok(Vec::new(alloc));
        }
        let texts = self.terms.whispers(alloc, self.until)?;
        own_texts(alloc, texts)
    }

    fn go_to(&mut self, version: u64) {
        self.shared.figures.push();
        if let Some(place) = self.place {
            self.place = Some(Place {
                client: place.client,
                version,
            });
        }
    }

    fn rest(&mut self) {
        self.terms.rest();
    }
}

/// What the text of an edit begins with, as clients write it.
pub(crate) const EDIT: &[u8] = b"[\"edit\",";

/// What the text of an Ask begins with.
pub(crate) const ASK: &[u8] = b"[\"ask\",";

// Returns the edits of which these are the texts, up to the first that isn't one, or isn't the next of its client behind those before: if one that
// was judged before is refused, none of its client after it may have been taken. Errors: out of memory.
fn edits_of<N: RoomName, W: Wait + Clock>(
    alloc: Global,
    terms: &SeatTerms<'_, N, W>,
    texts: &[Vec<u8>],
) -> Result<Vec<Message>, AllocError> {
    let mut edits = Vec::with_capacity(alloc, texts.len())?;
    let mut last = BTreeMap::new(alloc);
    for text in texts {
        let Ok(message) = terms.asked(alloc, text.as_slice()) else {
            break;
        };
        let Some((client, number)) = number_of(&message) else {
            break;
        };
        let is_next = match last.get(&client) {
            Some(before) => number_after(*before) == number,
            None => true,
        };
        if !is_next {
            break;
        }
        last.insert(client, number)?;
        edits.push(message)?;
    }
    Ok(edits)
}

// Returns the number after this one.
fn number_after(number: u64) -> u64 {
    number.saturating_add(1)
}

// Returns the client and the number of an edit.
fn number_of(message: &Message) -> Option<(u32, u64)> {
    match message {
        Message::Edit { client, seq, .. } => Some((*client, *seq)),
        _ => None,
    }
}

// Returns the text of an Idle. Errors: out of memory.
fn idle_alone(alloc: Global) -> Result<Vec<Text>, AllocError>
    ensures { IfOk result (λ ts. AreMessageTexts (map text_bytes ts.items) (Idle ∷ [])) }
{
    let idle: Message = Message::Idle;
    let texts = texts_of(alloc, &[idle])?;
    own_texts(alloc, texts)
}

// Nothing to tell, or nothing now.
fn nothing(alloc: Global, is_held: bool) -> Push
    ensures texts { result.texts.items ≡ [] }
    ensures versions { result.versions.items ≡ [] }
{
    Push {
        texts: Vec::new(alloc),
        versions: Vec::new(alloc),
        is_held,
    }
}

// The version that each of these messages leads to. Errors: out of memory.
fn versions_of(alloc: Global, told: &[Told]) -> Result<Vec<u64>, AllocError>
    ensures { IfOk result (λ versions. versions.items ≡ map version_told (map seen_told told.now)) }
{
    let mut versions = Vec::with_capacity(alloc, told.len())?;
    for message in told {
        versions.push(version_of(message))?;
    }
    Ok(versions)
}

// The version that what is told leads a client to.
fn version_of(told: &Told) -> u64
    ensures { result ≡ version_told (seen_told told.now) }
{
    match told {
        Told::Entry { version, .. } => *version,
        Told::Other(message) => version_told(message),
    }
}

// The version that a message leads a client to.
fn version_told(message: &Message) -> u64
    ensures { result ≡ version_told (seen_message message.now) }
{
    match message {
        Message::Entry { version, .. } => *version,
        Message::Copy(copy) => copy.version,
        _ => 0,
    }
}
