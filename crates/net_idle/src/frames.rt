// Where the frames of a WebSocket end in the bytes of a stream.
ghost use Rattle.std.specs.Prelude.{◌≡◌, ◌↔◌, ℕ, List, [], ◌∷◌, ◌++◌, IsTrue};
ghost use Rattle.net_idle.specs.Frames.{AreWhole, HasFollowedBytes, entered};

use websocket::protocol::frame::FrameHeader;
use websocket::protocol::frame::coding::OpCode;

/// Follows the frames in the bytes that a peer sends (RFC 6455, section 5.2), from the end of the handshake on.
#[derive(Clone, Copy, Debug)]
pub(crate) struct Frames {
    // The bytes of a frame's header, so far.
    head: [u8; FrameHeader::MAX_SIZE],
    filled: usize,
    // How many bytes of the frame's payload are still to come.
    left: u64,
    // Whether the last frame of a message is still to come.
    is_split: bool,
    // Whether bytes came that are no header.
    is_lost: bool,
}

impl Frames {
    /// Of no bytes yet.
    pub(crate) fn new() -> Frames
        ensures { HasFollowedBytes result [] }
    {
        Frames {
            head: [0; FrameHeader::MAX_SIZE],
            filled: 0,
            left: 0,
            is_split: false,
            is_lost: false,
        }
    }

    /// Checks whether the bytes so far are whole messages, as far as they are frames at all.
    pub(crate) fn are_whole(&self) -> bool
        ensures { IsTrue result ↔ AreWhole self.now }
    {
        self.filled == 0 && self.left == 0 && !self.is_split && !self.is_lost
    }

    /// Goes on by these bytes.
    pub(crate) fn pass(&mut self, bytes: &[u8])
        ensures { (before : List ℕ) → HasFollowedBytes self.old before → HasFollowedBytes self.new (before ++ bytes.now) }
    {
        for byte in bytes {
            self.pass_one(*byte);
        }
    }

    // Goes on by a byte.
    fn pass_one(&mut self, byte: u8)
        ensures { (before : List ℕ) → HasFollowedBytes self.old before → HasFollowedBytes self.new (before ++ byte ∷ []) }
    {
        if self.left > 0 {
            self.left -= 1;
        } else {
            self.begin(byte);
        }
    }

    // Goes on by a byte of a header. Once bytes were no header, no byte is one.
    fn begin(&mut self, byte: u8)
        requires { self.old.left ≡ 0 }
        ensures { (before : List ℕ) → HasFollowedBytes self.old before → HasFollowedBytes self.new (before ++ byte ∷ []) }
    {
        if self.is_lost || self.filled >= FrameHeader::MAX_SIZE {
            self.is_lost = true;
            return;
        }
        self.head[self.filled] = byte;
        self.filled += 1;
        match FrameHeader::parse(&self.head[..self.filled]) {
            Ok(Some((header, length))) => self.enter(&header, length),
            Ok(None) => {}
            Err(_) => self.is_lost = true,
        }
    }

    // Goes on into a frame with this header, of so many bytes.
    fn enter(&mut self, header: &FrameHeader, length: u64)
        ensures { self.new ≡ entered header.now length self.old }
    {
        self.filled = 0;
        self.left = length;
        match header.opcode {
            OpCode::Data(_) => self.is_split = !header.is_final,
            OpCode::Control(_) => {}
        }
    }
}
