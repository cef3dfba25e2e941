//! A server in memory, as an answerer: it tells an Ask one entry at most.
ghost use Rattle.std.specs.Prelude.{IfOk, map};
ghost use Rattle.canvas_judge.specs.Seen.{seen_message};
ghost use Rattle.canvas_nodes.specs.Answers.{IsAnswer, EndsAnswer};

use canvas_judge::{Entry, Message, NoReason};
use canvas_nodes::{Answerer, answered};
use canvas_server::{Request, Server, TakeError, Took};
use canvas_sockets::Replier;
use canvas_turns::{Handler, Push};
use net_outbox::{Text, own_texts};
use std::alloc::{AllocError, Global};
use std::test::Fail;

/// A server whose entries are all published.
#[derive(Drop)]
pub struct Room {
    alloc: Global,
    server: Server,
}

impl Room {
    /// A server before the first request.
    pub fn new(alloc: Global) -> Result<Room, Fail> {
        let server = Server::new(alloc)?;
        Ok(Room { alloc, server })
    }

    // Takes a request and publishes its entry. Tells why it was refused, if it was.
    fn take(&mut self, request: Request) -> Option<NoReason> {
        let took = self.server.take(request);
        let version = self.server.version();
        if self.server.published() <= version {
            self.server.publish(version);
        }
        match took {
            Ok(Took::Gap { .. }) => Some(NoReason::Gap),
            Ok(_) => None,
            Err(TakeError::Stranger) => Some(NoReason::Stranger),
            Err(TakeError::Full) => Some(NoReason::Full),
            Err(TakeError::Memory) => Some(NoReason::Memory),
        }
    }

    // What is answered once a request is taken.
    fn told_of(&self, request: &Request) -> Message
        ensures { EndsAnswer (seen_message result) }
    {
        match request {
            Request::Join => Message::Welcome(self.server.state().next()),
            Request::Edit { .. } => Message::Idle,
        }
    }

    fn submit(&mut self, request: Request) -> Result<Vec<Message>, AllocError>
        ensures { IfOk result (λ answer. IsAnswer (map seen_message answer.items)) }
    {
        let told = self.told_of(&request);
        if let Some(reason) = self.take(request) {
            return alone(self.alloc, Message::No(reason));
        }
        alone(self.alloc, told)
    }

    // The entry after that version, if there is one.
    fn entry_after(&self, version: u64) -> Result<Option<Entry>, AllocError> {
        match self.server.tail(self.alloc, version, 1)? {
            Some(mut entries) => Ok(entries.pop()),
            None => Ok(None),
        }
    }

    // The next entry, if there is one, and an Idle.
    fn tell(&self, client: u32, version: u64) -> Result<Vec<Message>, AllocError>
        ensures { IfOk result (λ answer. IsAnswer (map seen_message answer.items)) }
    {
        if !self.server.state().has_joined(client) {
            return alone(self.alloc, Message::No(NoReason::Stranger));
        }
        match self.entry_after(version)? {
            Some(entry) => told(self.alloc, version.saturating_add(1), entry),
            None => alone(self.alloc, Message::Idle),
        }
    }
}

// An answer of one message.
fn alone(alloc: Global, message: Message) -> Result<Vec<Message>, AllocError>
    requires { EndsAnswer (seen_message message) }
    ensures { IfOk result (λ answer. IsAnswer (map seen_message answer.items)) }
{
    let mut answer = Vec::new(alloc);
    answer.push(message)?;
    Ok(answer)
}

// An answer that tells an entry.
fn told(alloc: Global, version: u64, entry: Entry) -> Result<Vec<Message>, AllocError>
    ensures { IfOk result (λ answer. IsAnswer (map seen_message answer.items)) }
{
    let mut answer = Vec::new(alloc);
    answer.push(Message::Entry { version, entry })?;
    answer.push(Message::Idle)?;
    Ok(answer)
}

impl Answerer for Room {
    ghost gives = { λ _ _ _ _. Unit {0} };

    fn answer(&mut self, message: Message) -> Result<Vec<Message>, AllocError> {
        if let Message::Ask { client, version } = &message {
            return self.tell(*client, *version);
        }
        match Request::asked_by(message) {
            Some(request) => self.submit(request),
            None => alone(self.alloc, Message::No(NoReason::NotRead)),
        }
    }
}

impl Replier for Room {
    ghost replies = { λ _ _ _ _. Unit {0} };

    fn reply(&mut self, alloc: Global, bytes: &[u8]) -> Result<Vec<Text>, NoReason> {
        match answered(alloc, self, bytes) {
            Ok(texts) => match own_texts(alloc, texts) {
                Ok(texts) => Ok(texts),
                Err(_) => Err(NoReason::Memory),
            },
            Err(reason) => Err(reason),
        }
    }
}

impl Handler for Room {
    ghost tells = { λ _ _ _. Unit {0} };

    ghost goes_to = { λ _ _ _. Unit {0} };

    ghost whispers = { λ _. Unit {0} };

    ghost between = { λ _ _. Unit {0} };

    fn place(&self) -> Option<u64> {
        None
    }

    fn push(&mut self, alloc: Global) -> Result<Push, AllocError> {
        Ok(Push {
            texts: Vec::new(alloc),
            versions: Vec::new(alloc),
            is_held: false,
        })
    }

    fn whisper(&mut self, alloc: Global) -> Result<Vec<Text>, AllocError> {
        Ok(Vec::new(alloc))
    }

    fn go_to(&mut self, _version: u64) {}

    fn rest(&mut self) {}
}
