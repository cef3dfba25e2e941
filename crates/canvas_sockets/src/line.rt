// The two sides of a connection.

use net_frames::FrameWriter;
use tungstenite::{NoMask, WebSocket};

/// The two sides of a connection after its handshake: a WebSocket that reads, and a writer that buffers nothing itself.
///
/// What the reader answers by itself, as a pong, goes nowhere: whoever has the line answers it by the writer. So no read touches what was
/// written.
#[derive(Drop)]
pub struct Line<I, O> {
    /// It reads.
    pub reader: WebSocket<I, NoMask>,
    /// It writes.
    pub writer: FrameWriter<O>,
}
