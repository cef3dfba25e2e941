// Answers, read as they come.
ghost use Rattle.std.specs.Prelude.{◌≡◌, ◌≤◌, ◌++◌, ◌↔◌, ℕ, [], List, IfOk, IfSome, IsTrue, IsSome, Ok, length, take};
ghost use Rattle.etcd_gateway.specs.Bodies.{HasNothingFor, HasReadBytes, IsHttpAnswer, IsBehindHead, IsReadWhole, has_read};
ghost use Rattle.etcd_gateway.specs.declared.reader.Stage.TheVariants.{Sized};

use crate::chunk::{Chunk, read_chunk};
use crate::error::GatewayError;
use crate::head::{Framing, read_head};
use std::alloc::Global;

// How far an answer was read.
#[derive(Clone, Copy, Debug, PartialEq, Eq)]
enum Stage {
    // Its head is to come.
    Head,
    // So many bytes of its body are to come.
    Sized(u64),
    // Chunks of its body are to come.
    Chunks,
    // It is whole.
    Whole,
}

/// An answer that is read as its bytes come.
#[derive(Debug, Drop)]
pub struct AnswerReader {
    stage: Stage,
    limit: u64,
    status: u16,
    body: Vec<u8>,
}

/// An answer of HTTP.
#[derive(Debug, Drop)]
pub struct Answer {
    /// Its status.
    pub status: u16,
    /// Its body, without what divides chunks.
    pub body: Vec<u8>,
}

impl AnswerReader {
    /// Nothing is read yet, of an answer whose body has at most `limit` bytes. Takes no memory.
    pub fn new(alloc: Global, limit: u64) -> Self
        ensures { HasReadBytes result [] }
    {
        AnswerReader {
            stage: Stage::Head,
            limit,
            status: 0,
            body: Vec::new(alloc),
        }
    }

    /// Reads on, from the front of the bytes that follow what was read: the whole head, what there is of the body, or one whole chunk.
    /// Answers how many bytes that took; 0 where the answer is whole, or if more have to come first. Call it again with the bytes
    /// behind those.
    ///
    /// `NotHttp` where the bytes are no answer, or its head doesn't say how long its body is; `TooLarge` where the body is longer than its
    /// limit, the head longer than 16384 bytes, or there are more than 64 fields; `Memory` if memory runs out. After an error the
    /// reader is of no use.
    pub fn take(&mut self, bytes: &[u8]) -> Result<usize, GatewayError>
        // What was read so far and what was taken now are what is read from now on.
        ensures read { IfOk result (λ count. (past : List ℕ) → HasReadBytes self.old past → HasReadBytes self.new (past ++ take count bytes.now)) }
        ensures within { IfOk result (λ count. count ≤ length bytes.now) }
        ensures nothing { result ≡ Ok 0 → HasNothingFor self.old bytes.now }
    {
        match self.stage {
            Stage::Head => self.take_head(bytes),
            Stage::Sized(left) => self.take_body(left, bytes),
            Stage::Chunks => self.take_chunk(bytes),
            Stage::Whole => Ok(0),
        }
    }

    // Reads the head.
    fn take_head(&mut self, bytes: &[u8]) -> Result<usize, GatewayError>
        requires { self.old.stage ≡ Stage.Head }
        ensures read { IfOk result (λ count. (past : List ℕ) → HasReadBytes self.old past → HasReadBytes self.new (past ++ take count bytes.now)) }
        ensures within { IfOk result (λ count. count ≤ length bytes.now) }
        ensures nothing { result ≡ Ok 0 → HasNothingFor self.old bytes.now }
    {
        let Some(head) = read_head(bytes)? else {
            return Ok(0);
        };
        self.stage = stage_behind(head.framing, self.limit)?;
        self.status = head.status;
        Ok(head.length)
    }

    // Reads on in the body.
    fn take_body(&mut self, left: u64, bytes: &[u8]) -> Result<usize, GatewayError>
        requires { self.old.stage ≡ Stage.Sized left }
        ensures read { IfOk result (λ count. (past : List ℕ) → HasReadBytes self.old past → HasReadBytes self.new (past ++ take count bytes.now)) }
        ensures within { IfOk result (λ count. count ≤ length bytes.now) }
        ensures nothing { result ≡ Ok 0 → HasNothingFor self.old bytes.now }
    {
        let count = bytes.len().min(left as usize);
        self.body.extend_from_slice(&bytes[..count])?;
        self.stage = sized_stage(left - count as u64);
        Ok(count)
    }

    // Reads a chunk.
    fn take_chunk(&mut self, bytes: &[u8]) -> Result<usize, GatewayError>
        requires { self.old.stage ≡ Stage.Chunks }
        ensures read { IfOk result (λ count. (past : List ℕ) → HasReadBytes self.old past → HasReadBytes self.new (past ++ take count bytes.now)) }
        ensures within { IfOk result (λ count. count ≤ length bytes.now) }
        ensures nothing { result ≡ Ok 0 → HasNothingFor self.old bytes.now }
    {
        let room = self.limit.saturating_sub(self.body.len() as u64);
        match read_chunk(bytes, room)? {
            Some(Chunk::Bytes(data, length)) => {
                self.body.extend_from_slice(data)?;
                Ok(length)
            }
            Some(Chunk::Last(length)) => {
                self.stage = Stage::Whole;
                Ok(length)
            }
            None => Ok(0),
        }
    }

    /// The answer, where it is whole.
    pub fn into_answer(self) -> Option<Answer>
        ensures answer { IfSome result (λ answer. (past : List ℕ) → HasReadBytes self past → IsHttpAnswer past answer.status answer.body.items) }
        ensures whole { IsSome result ↔ IsReadWhole self }
    {
        match self.stage {
            Stage::Whole => Some(Answer {
                status: self.status,
                body: self.body,
            }),
            _ => None,
        }
    }

    /// Checks whether the answer is whole.
    pub fn is_whole(&self) -> bool
        ensures { IsTrue result ↔ IsReadWhole self.now }
    {
        self.stage == Stage::Whole
    }
}

// The stage behind a head.
fn stage_behind(framing: Framing, limit: u64) -> Result<Stage, GatewayError>
    ensures { IfOk result (λ stage. (status : ℕ) (past : List ℕ) → IsBehindHead past status (λ said text. (said ≡ framing) × (text ≡ [])) → has_read stage status [] past) }
{
    match framing {
        Framing::Sized(size) if size > limit => Err(GatewayError::TooLarge),
        Framing::Sized(size) => Ok(sized_stage(size)),
        Framing::Chunked => Ok(Stage::Chunks),
    }
}

// The stage where so many bytes of a body are to come.
fn sized_stage(left: u64) -> Stage
    ensures { (status : ℕ) (body past : List ℕ) → has_read (Sized left) status body past → has_read result status body past }
{
    if left == 0 {
        Stage::Whole
    } else {
        Stage::Sized(left)
    }
}
