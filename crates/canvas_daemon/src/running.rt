// The program: its words, and the status that it ends with.
ghost use Rattle.std.specs.Prelude.{IfErr, IfOk, map, string_bytes};
ghost use Rattle.canvas_daemon.specs.Runs.{Does, Fails, IsDaemonRun};

use crate::args::{DaemonCommand, read_command};
use crate::editing::edit;
use crate::fault::{DaemonFault, end};
use crate::serving::serve;
use crate::showing::show;
use crate::trying::trial;
use std::io::{BufRead, Write};
use std::net::{Net, TcpListener, TcpStream};
use std::random::RandomSource;
use std::sync::Wait;
use std::thread::Threads;

/// Does what the words after the program's name ask for, and answers the program's status: 0; 1 where the clients of a trial differ;
/// else that of the fault, which is told on `faults`, or 4 where it can't be told. Words that ask for nothing are the fault `Usage`, and
/// then nothing is read or written.
pub fn run<R, I, W, F>(
    rt: &R,
    files: HostRuntime,
    words: &[String],
    input: &mut I,
    output: &mut W,
    faults: &mut F,
) -> u8
where
    R: Net<Listener = TcpListener, Stream = TcpStream>
        + RandomSource
        + Threads
        + Wait
        + AllocGlobal
        + Clone
        + Send
        + Sync
        + Drop,
    I: BufRead,
    W: Write,
    F: Write,
    ensures { IsDaemonRun (map string_bytes words.now) result
        (I.remaining input.old) (I.remaining input.new)
        (W.contents output.old) (W.contents output.new)
        (F.contents faults.old) (F.contents faults.new) }
{
    match perform(rt, files, words, input, output) {
        Ok(status) => status,
        Err(fault) => end(&fault, faults),
    }
}

// Does what the words ask for. Answers the status, where no fault ends it.
fn perform<R, I, W>(
    rt: &R,
    files: HostRuntime,
    words: &[String],
    input: &mut I,
    output: &mut W,
) -> Result<u8, DaemonFault>
where
    R: Net<Listener = TcpListener, Stream = TcpStream>
        + RandomSource
        + Threads
        + Wait
        + AllocGlobal
        + Clone
        + Send
        + Sync
        + Drop,
    I: BufRead,
    W: Write,
    ensures done { IfOk result (λ status. Does (map string_bytes words.now) status
        (I.remaining input.old) (I.remaining input.new)
        (W.contents output.old) (W.contents output.new)) }
    ensures failed { IfErr result (Fails (map string_bytes words.now)
        (I.remaining input.old) (I.remaining input.new)
        (W.contents output.old) (W.contents output.new)) }
{
    let Some(command) = read_command(words) else {
        return Err(DaemonFault::Usage);
    };
    match command {
        DaemonCommand::Serve {
            dir,
            port,
            connections,
        } => serve(rt, files, dir, port, connections, output)?,
        DaemonCommand::Edit { port } => edit(rt, port, input, output)?,
        DaemonCommand::Show { dir } => show(files, dir, output)?,
        DaemonCommand::Trial { dir } => {
            if !trial(rt, files, dir, output)? {
                return Ok(1);
            }
        }
    }
    Ok(0)
}
