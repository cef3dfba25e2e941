// Laws of what a connection says.
ghost use Rattle.canvas_turns.specs.Said.{NoByteIsLost};

use crate::Handler;
use std::io::{Read, Write};

/// Whatever the peer sends and takes, and whomever its handler serves between: after any steps of a connection, what its peer got and then what
/// waits has grown by the frames of what was said, and that is the replies to what was read and what was told unasked or whispered. It does nothing when it
/// runs: call it where a proof needs the law.
pub fn every_connection<H: Handler, I: Read, O: Read + Write>()
    ensures { NoByteIsLost H.replies H.tells H.goes_to H.whispers H.between I.remaining O.contents }
{}
