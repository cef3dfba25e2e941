// A request and its answer, by a connection to an endpoint.
ghost use Rattle.std.specs.Prelude.{◌≤◌, IfOk, length};

use crate::deadline::Deadline;
use crate::error::StoreError;
use etcd_gateway::{Answer, AnswerReader, GatewayError};
use std::alloc::Global;
use std::io;
use std::io::{ErrorKind, Read, Write};
use std::net::{Net, TcpStream, ToSocketAddrs};
use std::time::{Clock, Duration};

// The most bytes of an answer's body: several times a page of chunks in base64.
const MAX_BODY: u64 = 16777216;

// How long an endpoint may take to take a connection, in seconds.
const CONNECT_SECONDS: u64 = 2;

// The shortest greeting of TLS, which is answered by whoever speaks TLS: that it is too short.
const TLS_HELLO: &[u8] = &[22, 3, 1, 0, 4, 1, 0, 0, 0];

// What came on a connection.
#[derive(Drop)]
pub(crate) enum Arrival {
    // An answer.
    Answer(Answer),
    // Its end, and no byte.
    Nothing,
}

// A connection to an endpoint, by its first address that takes one in time.
pub(crate) fn connect<R>(net: &R, host: &str, until: Deadline) -> Result<TcpStream, StoreError>
where
    R: Net<Stream = TcpStream> + Clock,
{
    let Ok(addresses) = host.to_socket_addrs(net) else {
        return Err(StoreError::Unreachable);
    };
    for address in addresses {
        let limit = until.left(net)?.min(Duration::from_secs(CONNECT_SECONDS));
        if let Ok(stream) = TcpStream::connect_timeout(net, &address, limit) {
            stream.set_nodelay(true)?;
            return Ok(stream);
        }
    }
    Err(StoreError::Unreachable)
}

// Checks whether the other side still holds the connection, and has sent nothing unasked.
pub(crate) fn is_open(stream: &TcpStream) -> bool {
    let mut byte = [0u8; 1];
    let waiting = match stream.set_nonblocking(true) {
        Ok(()) => stream.peek(&mut byte),
        Err(error) => Err(error),
    };
    let still = matches!(waiting, Err(error) if error.kind() == ErrorKind::WouldBlock);
    still && stream.set_nonblocking(false).is_ok()
}

// Checks whether an endpoint speaks TLS, by a connection of its own: it answers a greeting with a record of TLS.
pub(crate) fn speaks_tls<R>(net: &R, host: &str, until: Deadline) -> Result<bool, StoreError>
where
    R: Net<Stream = TcpStream> + Clock,
{
    let mut stream = connect(net, host, until)?;
    send(net, &mut stream, TLS_HELLO, until)?;
    let mut byte = [0u8; 1];
    let count = read_within(net, &mut stream, &mut byte, until)?;
    Ok(count == 1 && matches!(byte, [21 | 22]))
}

// Sends a request on this connection, and tells what comes.
pub(crate) fn exchange<R>(
    clock: &R,
    stream: &mut TcpStream,
    request: &[u8],
    until: Deadline,
) -> Result<Arrival, StoreError>
where
    R: Clock + AllocGlobal,
{
    send(clock, stream, request, until)?;
    receive(clock, stream, until)
}

// Sends bytes in time.
fn send<R: Clock>(
    clock: &R,
    stream: &mut TcpStream,
    bytes: &[u8],
    until: Deadline,
) -> Result<(), StoreError> {
    let mut at: usize = 0;
    for _ in 0..bytes.len() {
        let Some(rest) = bytes.get(at..) else {
            return Err(StoreError::Unanswered);
        };
        if rest.is_empty() {
            break;
        }
        let count = write_within(clock, stream, rest, until)?;
        at = at.saturating_add(count);
    }
    Ok(())
}

// Writes some bytes in time, one at least.
fn write_within<R: Clock>(
    clock: &R,
    stream: &mut TcpStream,
    bytes: &[u8],
    until: Deadline,
) -> Result<usize, StoreError> {
    stream.set_write_timeout(Some(until.left(clock)?))?;
    match stream.write(bytes)? {
        0 => Err(StoreError::Unanswered),
        count => Ok(count),
    }
}

// Reads some bytes in time, or none where the connection has ended.
fn read_within<R: Clock>(
    clock: &R,
    stream: &mut TcpStream,
    piece: &mut [u8],
    until: Deadline,
) -> Result<usize, StoreError> {
    stream.set_read_timeout(Some(until.left(clock)?))?;
    Ok(stream.read(piece)?)
}

// The answer that comes on this connection in time, and nothing after it.
fn receive<R: Clock + AllocGlobal>(
    clock: &R,
    stream: &mut TcpStream,
    until: Deadline,
) -> Result<Arrival, StoreError> {
    let alloc = clock.alloc();
    let mut reader = AnswerReader::new(alloc, MAX_BODY);
    let mut waiting: Vec<u8> = Vec::new(alloc);
    let mut is_first = true;
    for _ in 0..u64::MAX {
        if !read_next(clock, stream, &mut waiting, until)? {
            return ended(is_first);
        }
        is_first = false;
        let taken = take_all(&mut reader, &waiting)?;
        waiting.drain(..taken);
        if reader.is_whole() {
            break;
        }
    }
    match reader.into_answer() {
        Some(answer) if waiting.is_empty() => Ok(Arrival::Answer(answer)),
        _ => Err(StoreError::Unanswered),
    }
}

// What a connection tells that has ended before an answer was whole.
fn ended(is_first: bool) -> Result<Arrival, StoreError> {
    if is_first {
        Ok(Arrival::Nothing)
    } else {
        Err(StoreError::Unanswered)
    }
}

// Puts what comes next behind what waits. Tells whether anything came.
fn read_next<R: Clock>(
    clock: &R,
    stream: &mut TcpStream,
    waiting: &mut Vec<u8>,
    until: Deadline,
) -> Result<bool, StoreError> {
    let mut piece = [0u8; 16384];
    let count = read_within(clock, stream, &mut piece, until)?;
    let Some(bytes) = piece.get(..count) else {
        return Err(StoreError::Unanswered);
    };
    waiting.extend_from_slice(bytes)?;
    Ok(count > 0)
}

// Takes as much as there is, and answers how much that was.
fn take_all(reader: &mut AnswerReader, bytes: &[u8]) -> Result<usize, GatewayError>
    ensures { IfOk result (λ taken. taken ≤ length bytes.now) }
{
    let mut at = 0;
    for _ in 0..bytes.len() {
        let (_, rest) = bytes.split_at(at);
        let count = reader.take(rest)?;
        if count == 0 {
            break;
        }
        at += count;
    }
    Ok(at)
}
