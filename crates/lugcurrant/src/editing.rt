// A client that plays the edit lines of its input against a server on this machine.
ghost use Rattle.lugcurrant.specs.Edits.{PlaysInput};

use canvas_daemon::{edit, end};
use std::io::{BufRead, Write};
use std::net::{Net, TcpStream};
use std::random::RandomSource;

/// Plays the edit lines of the input against the server at this port, as `canvasd edit` does. Returns the program's status: 0, or that of the
/// fault that ended it, which is reported on `faults`.
pub(crate) fn run_edit<R, I, W, F>(
    rt: &R,
    port: u16,
    input: &mut I,
    output: &mut W,
    faults: &mut F,
) -> u8
where
    R: Net<Stream = TcpStream> + RandomSource + AllocGlobal + Clone + Drop,
    I: BufRead,
    W: Write,
    F: Write,
    ensures { PlaysInput port result
        (I.remaining input.old) (I.remaining input.new)
        (W.contents output.old) (W.contents output.new)
        (F.contents faults.old) (F.contents faults.new) }
{
    match edit(rt, port, input, output) {
        Ok(()) => 0,
        Err(fault) => end(&fault, faults),
    }
}
