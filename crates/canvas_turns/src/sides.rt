// The streams of a line, and the sockets over them.
ghost use Rattle.std.specs.Prelude.{◌≡◌, []};
ghost use Rattle.websocket.specs.declared.protocol.config.Role.TheVariants as role;
ghost use Rattle.tungstenite.specs.Socket.{IsFresh};
ghost use Rattle.canvas_turns.specs.Lines.{IsFreshLine, IsNextLine, IsNextReader};

use canvas_sockets::Line;
use net_frames::FrameWriter;
use net_idle::Pausing;
use net_outbox::Outbox;
use std::alloc::Global;
use std::io::Sink;
use tungstenite::{Duplex, NoMask, Role, WebSocket, WebSocketConfig};

/// What a line reads: a stream that pauses. What its socket writes by itself, as pongs, goes nowhere.
pub(crate) type Inlet<I> = Duplex<Pausing<I>, Sink>;

/// A line of a server over streams whose handshake is done: it reads from the one, and what it writes waits until the other takes it.
pub(crate) fn line_over<I: Drop, O: Drop>(
    alloc: Global,
    input: I,
    output: O,
    config: WebSocketConfig,
) -> Line<Inlet<I>, Outbox<O>>
    ensures { IsFreshLine result input output }
{
    let inlet = Duplex {
        reader: Pausing::new(input),
        writer: std::io::sink(),
    };
    Line {
        reader: socket_over(alloc, inlet, config),
        writer: FrameWriter::new(alloc, Outbox::new(alloc, output)),
    }
}

/// The line that goes on where this one stands, by new sockets, so that none keeps what a large message took: for the reader where its stream has
/// paused, and for the writer.
pub(crate) fn next_line<I: Drop, O: Drop>(
    alloc: Global,
    line: Line<Inlet<I>, Outbox<O>>,
    config: WebSocketConfig,
) -> Line<Inlet<I>, Outbox<O>>
    requires { line.writer.output ≡ [] }
    ensures { IsNextLine line result }
{
    let Line { reader, writer } = line;
    Line {
        reader: next_reader(alloc, reader, config),
        writer: FrameWriter::new(alloc, writer.into_inner()),
    }
}

// The socket that goes on where this one has paused, or this one, if it hasn't.
fn next_reader<I: Drop>(
    alloc: Global,
    reader: WebSocket<Inlet<I>, NoMask>,
    config: WebSocketConfig,
) -> WebSocket<Inlet<I>, NoMask>
    ensures { IsNextReader reader result }
{
    if !reader.get_ref().reader.has_paused() {
        return reader;
    }
    let mut inlet = reader.into_inner();
    inlet.reader.go_on();
    socket_over(alloc, inlet, config)
}

// A WebSocket of a server over a stream whose handshake is done.
fn socket_over<S: Drop>(alloc: Global, stream: S, config: WebSocketConfig) -> WebSocket<S, NoMask>
    ensures { IsFresh result stream role.Server }
{
    WebSocket::from_raw_socket(alloc, stream, NoMask, Role::Server, Some(config))
}
