//! A scene is read from an input and played: the requests of a log on a server, or the events of a
//! world of nodes. What is written is an answer for each, and a report of the document or of the
//! world.
#![tactic(auto)]

ghost use Rattle.std.specs.Prelude.{◌≡◌, ◌<◌, [], ℕ, length, IfOk, IfErr, OnOk};
ghost use Rattle.std.specs.Io.KnownBytes.{Appends};
ghost use Rattle.canvas_lines.specs.Faults.{fault_line};
ghost use Rattle.canvas_lines.specs.Spelling.{IsBadLine};
ghost use Rattle.canvas_scene.specs.Results.{IsErrorInLog, LeavesAnswered, IsLogOf, IsReportOfLog};
ghost use Rattle.canvas_scene.specs.Results.{IsCutBy, IsFaultEnd, IsPlayed, TellsUsage, IsRun, IsStatus, IsStopped, IsTextLeft, IsTextPlayed};
ghost use Rattle.canvas_scene.specs.Runs.{IsFold, IsWhole};

use canvas_lines::{Fault, Reading, one_bad_line, read_input, read_requests, tell, write_out};
use canvas_script::{ScriptError, is_world, world_run};
use canvas_server::Server;
use std::alloc::Global;
use std::io::{Read, Write};

mod answers;
mod play;
mod report;

use play::play;
use report::write_report;

/// Plays the requests of an input on an empty server, and answers this server as it is then, with
/// every entry kept. To `out` it adds a line that answers each request, then the version and a line
/// for each live object, each followed by one for each of its properties.
///
/// The lines end with a line feed, which the last may lack. Empty lines and lines that begin with
/// `#` are passed over. The first other line is `log`, and each later one a request: `join`, or one
/// of these, where C is the author's id and VALUE the JSON of a value (RFC 8259): `C create ID KIND
/// PARENT POS`, `C set ID NAME VALUE`, `C clear ID NAME`, `C move ID PARENT POS`, `C delete ID`.
///
/// The errors: `BadLine`, where a line can't be read, and then the answers to the lines before it
/// were added to `out`; `Memory`, only if memory runs out, and then `out` is as it was.
pub fn log_run(alloc: Global, input: &[u8], out: &mut Vec<u8>) -> Result<Server, ScriptError>
    ensures log { IfOk result (λ run. IsLogOf input.now run.kept) }
    ensures fold { IfOk result (λ run. IsFold run.kept run.state) }
    ensures whole { IfOk result IsWhole }
    ensures report { IfOk result
        (λ run. IsReportOfLog input.now run.kept run.state out.old.items out.new.items) }
    ensures error { IfErr result (IsErrorInLog input.now) }
    ensures left { IfErr result (LeavesAnswered input.now out.old.items out.new.items) }
    ensures readable { IfOk result (λ _. (n : ℕ) → IsBadLine input.now n → ⊥) }
{
    // An input that stands for requests has no bad line.
    one_bad_line();
    let Reading { requests, bad_line } = read_requests(alloc, input)?;
    let mut text = Vec::new(alloc);
    let run = play(alloc, requests, &mut text)?;
    if let Some(line) = bad_line {
        out.extend_from_slice(&text)?;
        return Err(ScriptError::BadLine(line));
    }
    write_report(alloc, run.version(), run.state().doc(), &mut text)?;
    out.extend_from_slice(&text)?;
    Ok(run)
}

/// Reads a scene, plays it, and writes its answers and report. What it answers is the program's
/// status: 0; 2 where a line can't be read, which is told on `faults`; 3 if memory runs out; 4
/// where a read or write failed, or the input has more than 2^30 bytes or takes more than 2^31
/// reads.
pub fn run<R: Read, W: Write, F: Write>(
    alloc: Global,
    input: &mut R,
    output: &mut W,
    faults: &mut F,
) -> u8
    ensures status { IsStatus result }
    ensures played { result ≡ 0 → IsPlayed
        (R.remaining input.old) (R.remaining input.new)
        (W.contents output.old) (W.contents output.new) }
    ensures quiet { result ≡ 0 → F.contents faults.new ≡ F.contents faults.old }
    ensures stopped { result ≡ 2 → IsStopped
        (R.remaining input.old) (R.remaining input.new)
        (W.contents output.old) (W.contents output.new)
        (F.contents faults.old) (F.contents faults.new) }
    ensures memory { result ≡ 3 → Appends
        (F.contents faults.old) (F.contents faults.new) (fault_line Fault.Memory) }
{
    match play_input(alloc, input, output) {
        Ok(()) => 0,
        Err(fault) => end(&fault, faults),
    }
}

/// Tells of a fault on `faults`. The program's status: the fault's, or 4 where it can't be told.
pub fn end<F: Write>(fault: &Fault, faults: &mut F) -> u8
    ensures { IsFaultEnd fault.now result (F.contents faults.old) (F.contents faults.new) }
{
    match tell(fault, faults) {
        Ok(()) => fault.status(),
        Err(_) => 4,
    }
}

// Reads, plays and writes. If a line can't be read, the answers to those before it are written.
fn play_input<R: Read, W: Write>(alloc: Global, input: &mut R, output: &mut W) -> Result<(), Fault>
    ensures played { OnOk result (IsPlayed
        (R.remaining input.old) (R.remaining input.new)
        (W.contents output.old) (W.contents output.new)) }
    ensures cut { IfErr result (IsCutBy
        (R.remaining input.old) (R.remaining input.new)
        (W.contents output.old) (W.contents output.new)) }
{
    let text = read_input(alloc, input)?;
    let mut out = Vec::new(alloc);
    let played = play_text(alloc, &text, &mut out);
    write_out(output, &out)?;
    played?;
    Ok(())
}

// Plays a text: a script of a world where the first line that isn't passed over is `world`, else a
// log. Adds to `out` what it prints.
fn play_text(alloc: Global, text: &[u8], out: &mut Vec<u8>) -> Result<(), ScriptError>
    ensures played { OnOk result (IsTextPlayed text.now out.old.items out.new.items) }
    ensures left { IfErr result (IsTextLeft text.now out.old.items out.new.items) }
{
    if is_world(text) {
        world_run(alloc, text, out)?;
    } else {
        log_run(alloc, text, out)?;
    }
    Ok(())
}

/// Runs the program with the words that follow its name. It takes none: where there are some, it
/// reads nothing, and tells how it is called.
pub fn start<R: Read, W: Write, F: Write>(
    alloc: Global,
    words: &[String],
    input: &mut R,
    output: &mut W,
    faults: &mut F,
) -> u8
    ensures run { words.now ≡ [] → IsRun result
        (R.remaining input.old) (R.remaining input.new)
        (W.contents output.old) (W.contents output.new)
        (F.contents faults.old) (F.contents faults.new) }
    ensures unread { 0 < length words.now → R.remaining input.new ≡ R.remaining input.old }
    ensures unwritten { 0 < length words.now → W.contents output.new ≡ W.contents output.old }
    ensures refused { 0 < length words.now → TellsUsage result
        (F.contents faults.old) (F.contents faults.new) }
{
    if words.is_empty() {
        run(alloc, input, output, faults)
    } else {
        refuse(faults)
    }
}

/// Tells on `faults` how the program is called. The program's status: 2, or 4 where it can't be told.
pub fn refuse<F: Write>(faults: &mut F) -> u8
    ensures { TellsUsage result (F.contents faults.old) (F.contents faults.new) }
{
    match write_out(faults, b"usage: scene < FILE\n") {
        Ok(()) => 2,
        Err(_) => 4,
    }
}
