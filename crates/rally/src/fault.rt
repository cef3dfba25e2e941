// What ends the program early.
ghost use Rattle.std.specs.Prelude.{◌≡◌};
ghost use Rattle.canvas_daemon.specs.Faults.{IsMemoryOrDevice};
ghost use Rattle.rally.specs.Faults.{IsRallyEnd};

use canvas_daemon::DaemonFault;
use canvas_desk::SubmitError;
use canvas_journal::KeepError;
use canvas_lines::write_out;
use std::io::Write;

/// Tells of a fault on `faults`, as `canvasd` does, but for its own usage. The program's status: the fault's, or 4 where it can't be told.
pub fn end<F: Write>(fault: &DaemonFault, faults: &mut F) -> u8
    ensures { IsRallyEnd fault.now result (F.contents faults.old) (F.contents faults.new) }
{
    match fault {
        DaemonFault::Usage => tell_usage(faults),
        _ => canvas_daemon::end(fault, faults),
    }
}

// Tells how the program is called. The program's status.
fn tell_usage<F: Write>(faults: &mut F) -> u8
    ensures { IsRallyEnd DaemonFault.Usage result (F.contents faults.old) (F.contents faults.new) }
{
    match write_out(faults, b"usage: rally DIR CLIENTS EDITS\n") {
        Ok(()) => 2,
        Err(_) => 4,
    }
}

/// The fault by which a node's error ends the program: out of memory, or else a device that failed.
pub(crate) fn fault_of(error: SubmitError) -> DaemonFault
    ensures { IsMemoryOrDevice result }
{
    match error {
        SubmitError::NotKept(KeepError::Memory) | SubmitError::Owed { .. } => DaemonFault::Memory,
        SubmitError::NotKept(_) | SubmitError::Refused(_) => DaemonFault::Device,
    }
}
