// What stands in the segments of a document.
ghost use Rattle.std.specs.Prelude.{◌≡◌, ℕ, IfOk, IfSome, IsErrOf, IsOk, IsTrue, None, OnOk, length, string_bytes};
ghost use Rattle.std.specs.Io.KnownBytes.{Appends};
ghost use Rattle.canvas_shelf.specs.Disk.{Content, numbers, seen};
ghost use Rattle.canvas_shelf.specs.Records.{texts};
ghost use Rattle.app_admin.specs.Checks.{WritesCheckIf, WritesCheckIfOf, WritesCheckOf, WritesDamageOf, WritesNoLossIf, WritesNoLossIfOf, WritesShelf, segment_line, segment_lines, taken_line, torn_size};
ghost use Rattle.app_admin.specs.LossLines.{TellsLossAs, fault_of_loss, gone_line, loss_line, no_loss_line, sums_line};
ghost use Rattle.app_admin.specs.Taken.{source_of};

use crate::finding_loss::{SumSource, find_loss};
use crate::homes::Home;
use crate::taking::{Taken, take};
use app_faults::Fault;
use canvas_journal::look;
use canvas_lines::write_out;
use canvas_shelf::{Shelf, first_record};
use disk_integrity::{Loss, SumFault, Trace};
use std::alloc::{AllocError, Global};
use std::io::Write;

/// Tells in a line for each segment, the highest first, how many bytes it has, how many whole records, and how many bytes stand behind
/// these; and in one more, which segment recovery takes, how many entries stand behind its checkpoint, and to which version they lead.
/// Writes nothing to the shelf.
///
/// The errors: `Device`, where the device failed; `Damaged`, for the first record that isn't what it has to be, after the lines of the
/// segments; `Memory`; and `Stream`, where the output failed.
pub fn check_shelf<S: Shelf, W: Write>(
    alloc: Global,
    shelf: &mut S,
    output: &mut W,
) -> Result<(), Fault>
    ensures found { IsTrue (S.honest shelf.old) → OnOk result (WritesCheckOf (S.disk shelf.old) (W.contents output.old) (W.contents output.new)) }
    ensures form { OnOk result (WritesShelf (W.contents output.old) (W.contents output.new)) }
    ensures damaged { IsTrue (S.honest shelf.old) → (n : ℕ) (at : ℕ) → IsErrOf result (Fault.Damaged n at) →
        WritesDamageOf (S.disk shelf.old) n at (W.contents output.old) (W.contents output.new) }
    ensures disk { IsTrue (S.honest shelf.old) → (S.disk shelf.new ≡ S.disk shelf.old) × (S.past shelf.new ≡ S.past shelf.old) }
    ensures honest { S.honest shelf.new ≡ S.honest shelf.old }
{
    let listed = shelf.list(alloc)?;
    let lines = lines_of(alloc, shelf, &listed)?;
    write_out(output, &lines)?;
    let (_state, version) = look(alloc, shelf)?;
    let taken = take(alloc, shelf)?;
    let line = line_of(alloc, &taken, version)?;
    write_out(output, line.as_bytes())?;
    Ok(())
}

// How often a document is checked whose segments change meanwhile.
const ROUNDS: u32 = 50;

/// The same of the document that is kept there, and if sums are kept beside its segments, then that they hold what a crash may leave, or what
/// they hold that no crash leaves (`find_loss`), in one line more. Writes nothing to it, and a server may have it meanwhile: what seems wrong
/// while it makes a checkpoint is looked at again.
///
/// The errors are those of `check_shelf`, of `Home::look`, `Home::numbers` and `Home::trace`; `Device` too if sums can't be read; `Damaged` for a
/// loss, or `Gone` if no segment is left of a document, after its line; and `Busy` if there was a checkpoint each time that something seemed
/// wrong, of 50, and then nothing is written. If no document is found no line is written.
pub fn check<S: Shelf + Drop, H: Home<S> + SumSource, W: Write>(
    alloc: Global,
    home: &mut H,
    output: &mut W,
) -> Result<(), Fault>
    ensures found { IsTrue (H.honest home.old) → OnOk result (WritesCheckIfOf (H.summed home.old) (H.disk home.old) (W.contents output.old) (W.contents output.new)) }
    ensures form { OnOk result (WritesCheckIf (H.summed home.old) (W.contents output.old) (W.contents output.new)) }
{
    for _ in 0..ROUNDS {
        let before = home.numbers(alloc)?;
        let mut text: Vec<u8> = Vec::new(alloc);
        let done = check_once(alloc, home, &mut text);
        let is_sure = done.is_ok() || home.numbers(alloc)? == before;
        if is_sure {
            return told(done, &text, output);
        }
    }
    Err(Fault::Busy)
}

// Writes what was told of a document, and ends as the check did.
fn told<W: Write>(done: Result<(), Fault>, text: &[u8], output: &mut W) -> Result<(), Fault>
    ensures bytes { OnOk result (OnOk done (Appends (W.contents output.old) (W.contents output.new) text.now)) }
    ensures done { OnOk result (IsOk done) }
{
    write_out(output, text)?;
    done
}

// Checks a document once. The sums of a segment are read before its bytes, so that a server's next sync doesn't seem a loss.
fn check_once<S: Shelf + Drop, H: Home<S> + SumSource, W: Write>(
    alloc: Global,
    home: &mut H,
    output: &mut W,
) -> Result<(), Fault>
    ensures found { IsTrue (H.honest home.old) → OnOk result (WritesCheckIfOf (H.summed home.old) (H.disk home.old) (W.contents output.old) (W.contents output.new)) }
    ensures form { OnOk result (WritesCheckIf (H.summed home.old) (W.contents output.old) (W.contents output.new)) }
    ensures disk { IsTrue (H.honest home.old) → H.disk home.new ≡ H.disk home.old }
    ensures honest { H.honest home.new ≡ H.honest home.old }
    ensures summed { H.summed home.new ≡ H.summed home.old }
{
    let mut shelf = home.look(alloc)?;
    match check_shelf(alloc, &mut shelf, output) {
        Ok(()) => check_loss(alloc, &*home, &mut shelf, output),
        Err(fault) => Err(home.explain(fault)),
    }
}

// Looks for a loss in the shelf of a document if sums are kept beside its segments, writes whether there is one, and fails if there is.
fn check_loss<S: Shelf, H: Home<S> + SumSource, W: Write>(
    alloc: Global,
    home: &H,
    shelf: &mut S,
    output: &mut W,
) -> Result<(), Fault>
    ensures found { IsTrue (S.honest shelf.old) → OnOk result (WritesNoLossIfOf (H.summed home.now) (S.disk shelf.old) (W.contents output.old) (W.contents output.new)) }
    ensures form { OnOk result (WritesNoLossIf (H.summed home.now) (W.contents output.old) (W.contents output.new)) }
{
    if !home.is_summed() {
        return Ok(());
    }
    let trace = home.trace()?;
    let loss = find_loss(alloc, shelf, home, trace)?;
    tell_loss(alloc, &loss, output)
}

// Writes whether there is a loss, and fails where there is one.
fn tell_loss<W: Write>(alloc: Global, loss: &Option<Loss>, output: &mut W) -> Result<(), Fault>
    ensures ok { OnOk result ((loss.now ≡ None) × Appends (W.contents output.old) (W.contents output.new) no_loss_line) }
    ensures damaged { (n : ℕ) (at : ℕ) → IsErrOf result (Fault.Damaged n at) → IfSome loss.now (TellsLossAs (Fault.Damaged n at) (W.contents output.old) (W.contents output.new)) }
    ensures gone { IsErrOf result Fault.Gone → IfSome loss.now (TellsLossAs Fault.Gone (W.contents output.old) (W.contents output.new)) }
{
    let Some(loss) = loss else {
        write_out(output, b"no loss: a crash may have left it so\n")?;
        return Ok(());
    };
    let line = loss_line(alloc, loss)?;
    write_out(output, line.as_bytes())?;
    Err(fault_of_loss(loss))
}

// The fault that a loss is: damage of its segment, which is as it was up to there; or that no segment is left.
fn fault_of_loss(loss: &Loss) -> Fault
    ensures { result ≡ fault_of_loss loss.now }
{
    match *loss {
        Loss::Sums { segment, fault } => match fault {
            SumFault::Unreadable { good }
            | SumFault::Short { good, .. }
            | SumFault::Changed { good, .. } => Fault::Damaged {
                segment,
                offset: good,
            },
        },
        Loss::NoCheckpoint { segment, offset } | Loss::NoCutRecord { segment, offset } => {
            Fault::Damaged { segment, offset }
        }
        Loss::Gone { .. } => Fault::Gone,
    }
}

// The line of a loss.
fn loss_line(alloc: Global, loss: &Loss) -> Result<String, AllocError>
    ensures { IfOk result (λ line. string_bytes line ≡ loss_line loss.now) }
{
    match *loss {
        Loss::Sums { segment, fault } => sums_line(alloc, segment, fault),
        Loss::NoCheckpoint { segment, offset } => format!(in alloc;
            "loss: segment {segment} is no checkpoint that was cut short: it differs at offset {offset}\n"
        ),
        Loss::NoCutRecord { segment, offset } => format!(in alloc;
            "loss: segment {segment} ends in more than a record that was cut short, from offset {offset} on\n"
        ),
        Loss::Gone { trace } => gone_line(alloc, trace),
    }
}

// The line of a document that has gone, of which this is left.
fn gone_line(alloc: Global, trace: Trace) -> Result<String, AllocError>
    ensures { IfOk result (λ line. string_bytes line ≡ gone_line trace) }
{
    match trace {
        Trace::Identity => format!(in alloc;
            "loss: no segment of the document is left, but its identity is\n"
        ),
        Trace::Sums { segment } => format!(in alloc;
            "loss: no segment of the document is left, but sums of segment {segment} are\n"
        ),
    }
}

// The line of sums that don't hold.
fn sums_line(alloc: Global, segment: u32, fault: SumFault) -> Result<String, AllocError>
    ensures { IfOk result (λ line. string_bytes line ≡ sums_line segment fault) }
{
    match fault {
        SumFault::Unreadable { good } => format!(in alloc;
            "loss: the sums of segment {segment} can't be read behind those of its first {good} bytes\n"
        ),
        SumFault::Short { good: _, named } => format!(in alloc;
            "loss: segment {segment} is shorter than it was: {named} bytes were synced\n"
        ),
        SumFault::Changed { good, named } => format!(in alloc;
            "loss: of segment {segment} the bytes from {good} to {named} aren't those that were synced\n"
        ),
    }
}

// The lines of these segments.
fn lines_of<S: Shelf>(alloc: Global, shelf: &mut S, listed: &[u32]) -> Result<Vec<u8>, Fault>
    requires { IsTrue (S.honest shelf.old) → listed.now ≡ numbers (S.disk shelf.old) }
    ensures lines { IsTrue (S.honest shelf.old) → IfOk result (λ lines. lines.items ≡ segment_lines (seen (S.disk shelf.old))) }
    ensures form { IfOk result (λ lines. (content : Content) × (lines.items ≡ segment_lines content)) }
    ensures undamaged { (n : ℕ) (at : ℕ) → IsErrOf result (Fault.Damaged n at) → ⊥ }
    ensures disk { IsTrue (S.honest shelf.old) → (S.disk shelf.new ≡ S.disk shelf.old) × (S.past shelf.new ≡ S.past shelf.old) }
    ensures honest { S.honest shelf.new ≡ S.honest shelf.old }
{
    let mut lines = Vec::new(alloc);
    for number in listed {
        let bytes = shelf.read(alloc, *number)?;
        let line = segment_line(alloc, *number, &bytes)?;
        lines.extend_from_slice(line.as_bytes())?;
    }
    Ok(lines)
}

// The line of a segment.
fn segment_line(alloc: Global, number: u32, bytes: &[u8]) -> Result<String, AllocError>
    ensures { IfOk result (λ line. string_bytes line ≡ segment_line number bytes.now) }
{
    let size = bytes.len();
    let (whole, torn) = measure(bytes);
    format!(in alloc; "segment {number}: bytes {size}, whole records {whole}, torn rest {torn}\n")
}

// How many whole records bytes are, and how many bytes stand behind these.
fn measure(bytes: &[u8]) -> (usize, usize)
    ensures whole { result.0 ≡ length (texts bytes.now) }
    ensures torn { result.1 ≡ torn_size bytes.now }
{
    let mut whole = 0;
    let mut rest = bytes;
    while let Some((_text, after)) = first_record(rest) {
        whole += 1;
        rest = after;
    }
    (whole, rest.len())
}

// The line of what recovery takes.
fn line_of(alloc: Global, taken: &Option<Taken>, version: u64) -> Result<String, AllocError>
    ensures { IfOk result (λ line. string_bytes line ≡ taken_line (source_of taken.now) version) }
{
    match taken {
        Some(taken) => {
            let number = taken.number;
            let (past, _torn) = measure(&taken.behind);
            format!(in alloc;
                "recovery takes segment {number}: version {version}, entries past its checkpoint {past}\n"
            )
        }
        None => format!(in alloc; "recovery takes no segment: version {version}\n"),
    }
}
