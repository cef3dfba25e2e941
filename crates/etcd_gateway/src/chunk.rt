// The chunks of bodies.
ghost use Rattle.std.specs.Prelude.{◌≡◌, ◌≢◌, ◌<◌, ◌≤◌, IfErr, IfNone, IfOk, IfSome, length};
ghost use Rattle.httparse.specs.Grammar.{ChunkLine};
ghost use Rattle.httparse.specs.Spans.{IsChunkLineAt};
ghost use Rattle.etcd_gateway.specs.Bodies.{BeginsChunk, HasNoChunk};

use crate::error::GatewayError;
use crate::head::MAX_HEAD;
use httparse::spans::{EMPTY_HEADER_SPAN, parse_headers};
use httparse::{Error as ParseError, Status as Parsed, parse_chunk_size};

/// A chunk.
#[derive(Clone, Copy)]
pub(crate) enum Chunk<'a> {
    /// One with bytes, and how long it is as it was sent.
    Bytes(&'a [u8], usize),
    /// The last one, which has no bytes, with the fields after it: how long it is as it was sent.
    Last(usize),
}

// The chunk with which these bytes begin. `None` where it isn't whole yet. `TooLarge` where it has more bytes than `room`, its line
// or the fields behind the last one aren't whole after 16384 bytes, or there are more than 64 of these.
pub(crate) fn read_chunk(bytes: &[u8], room: u64) -> Result<Option<Chunk<'_>>, GatewayError>
    ensures some { IfOk result (λ found. IfSome found (BeginsChunk bytes.now)) }
    ensures none { IfOk result (λ found. IfNone found (HasNoChunk bytes.now)) }
    ensures not_http { IfErr result (λ e. e ≡ GatewayError.NotHttp → HasNoChunk bytes.now) }
{
    match parse_chunk_size(bytes) {
        Ok(Parsed::Complete((line, 0))) => read_last(bytes, line),
        Ok(Parsed::Complete((line, size))) => if size > room {
            Err(GatewayError::TooLarge)
        } else {
            read_bytes(bytes, line, size)
        },
        Ok(Parsed::Partial) if bytes.len() > MAX_HEAD => Err(GatewayError::TooLarge),
        Ok(Parsed::Partial) => Ok(None),
        Err(_) => Err(GatewayError::NotHttp),
    }
}

// The chunk of so many bytes, behind its line.
fn read_bytes(bytes: &[u8], line: usize, size: u64) -> Result<Option<Chunk<'_>>, GatewayError>
    requires line { (l : ChunkLine) × IsChunkLineAt bytes.now line size l }
    requires within { line ≤ length bytes.now }
    requires more { 0 < size }
    ensures some { IfOk result (λ found. IfSome found (BeginsChunk bytes.now)) }
    ensures none { IfOk result (λ found. IfNone found (HasNoChunk bytes.now)) }
    ensures not_http { IfErr result (λ e. e ≡ GatewayError.NotHttp → HasNoChunk bytes.now) }
{
    let (_, behind) = bytes.split_at(line);
    let size = size as usize;
    if behind.len() < size {
        return Ok(None);
    }
    let (data, end) = behind.split_at(size);
    if end.len() < 2 {
        return Ok(None);
    }
    if end.starts_with(b"\r\n") {
        Ok(Some(Chunk::Bytes(data, line + size + 2)))
    } else {
        Err(GatewayError::NotHttp)
    }
}

// The last chunk, behind its line.
fn read_last(bytes: &[u8], line: usize) -> Result<Option<Chunk<'_>>, GatewayError>
    requires line { (l : ChunkLine) × IsChunkLineAt bytes.now line 0 l }
    requires within { line ≤ length bytes.now }
    ensures some { IfOk result (λ found. IfSome found (BeginsChunk bytes.now)) }
    ensures none { IfOk result (λ found. IfNone found (HasNoChunk bytes.now)) }
    ensures not_http { IfErr result (λ e. e ≡ GatewayError.NotHttp → HasNoChunk bytes.now) }
{
    let mut spans = [EMPTY_HEADER_SPAN; 64];
    let (_, behind) = bytes.split_at(line);
    match parse_headers(behind, &mut spans) {
        Ok(Parsed::Complete((fields, _))) => Ok(Some(Chunk::Last(line + fields))),
        Ok(Parsed::Partial) if bytes.len() > MAX_HEAD => Err(GatewayError::TooLarge),
        Ok(Parsed::Partial) => Ok(None),
        Err(error) => Err(fields_error(error)),
    }
}

// Why the fields behind the last chunk aren't read.
fn fields_error(error: ParseError) -> GatewayError
    ensures { result ≡ GatewayError.NotHttp → error ≢ ParseError.TooManyHeaders }
{
    match error {
        ParseError::TooManyHeaders => GatewayError::TooLarge,
        _ => GatewayError::NotHttp,
    }
}
