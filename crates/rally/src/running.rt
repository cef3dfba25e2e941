// The program: its words, and the status that it ends with.
ghost use Rattle.std.specs.Prelude.{IfErr, IfOk, map, string_bytes};
ghost use Rattle.rally.specs.Runs.{DoesRally, FailsRally, IsRallyRun};

use crate::args::read_words;
use crate::fault::end;
use crate::rallying::rally;
use canvas_daemon::DaemonFault;
use std::io::Write;
use std::sync::Wait;
use std::thread::Threads;

/// Does what the words after the program's name ask for, and answers the program's status: 0; 1 where the clients differ; else that of the
/// fault, which is told on `faults`, or 4 where it can't be told. Words that ask for nothing are the fault `Usage`, and then nothing is
/// read or written.
pub fn run<R, W, F>(
    rt: &R,
    files: HostRuntime,
    words: &[String],
    output: &mut W,
    faults: &mut F,
) -> u8
where
    R: Threads + Wait + AllocGlobal + Clone + Send + Sync + Drop,
    W: Write,
    F: Write,
    ensures { IsRallyRun (map string_bytes words.now) result
        (W.contents output.old) (W.contents output.new)
        (F.contents faults.old) (F.contents faults.new) }
{
    match perform(rt, files, words, output) {
        Ok(true) => 0,
        Ok(false) => 1,
        Err(fault) => end(&fault, faults),
    }
}

// Does what the words ask for. Returns whether the clients agree.
fn perform<R, W>(
    rt: &R,
    files: HostRuntime,
    words: &[String],
    output: &mut W,
) -> Result<bool, DaemonFault>
where
    R: Threads + Wait + AllocGlobal + Clone + Send + Sync + Drop,
    W: Write,
    ensures done { IfOk result (λ equal. DoesRally (map string_bytes words.now) equal (W.contents output.old) (W.contents output.new)) }
    ensures failed { IfErr result (FailsRally (map string_bytes words.now) (W.contents output.old) (W.contents output.new)) }
{
    let Some(asked) = read_words(words) else {
        return Err(DaemonFault::Usage);
    };
    rally(rt, files, asked.dir, asked.clients, asked.edits, output)
}
