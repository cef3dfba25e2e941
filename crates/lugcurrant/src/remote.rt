// The commands that care for a document in an etcd alone, each to its end: they answer the program's status, once a fault is told.
ghost use Rattle.std.specs.Prelude.{◌⊎◌, OnOk, string_bytes};
ghost use Rattle.app_admin.specs.Begun.{WritesBegun, WritesImported};
ghost use Rattle.app_faults.specs.Told.{EndsCommand};
ghost use Rattle.app_faults.specs.declared.subject.Subject.TheVariants.{Document, Folder};

use app_admin_etcd::{MoveFault, import_document, move_in, move_out};
use app_faults::{Subject, finish};
use app_identity::Address;
use std::io::{Read, Write};
use std::net::{Net, TcpListener, TcpStream};
use std::random::RandomSource;
use std::sync::Wait;
use std::thread::Threads;
use std::time::Clock;

/// Makes a document of the rows of the input.
pub(crate) fn import_remote<R, I, W, F>(
    rt: &R,
    address: &Address,
    input: &mut I,
    output: &mut W,
    faults: &mut F,
) -> u8
where
    R: Net<Listener = TcpListener, Stream = TcpStream>
        + Threads
        + Wait
        + Clock
        + RandomSource
        + AllocGlobal
        + Clone
        + Send
        + Drop
        + 'static,
    I: Read,
    W: Write,
    F: Write,
    ensures { EndsCommand (WritesImported (I.remaining input.old) (I.remaining input.new) (W.contents output.old) (W.contents output.new))
        Document (string_bytes address.now.name) result (F.contents faults.old) (F.contents faults.new) }
{
    finish(
        import_document(rt, address, input, output),
        Subject::Document,
        &address.name,
        faults,
    )
}

/// Moves a document from a folder into an etcd, or back. A fault is told with the place that it is of.
pub(crate) fn run_move<R, W, F>(
    rt: &R,
    files: HostRuntime,
    dir: &str,
    address: &Address,
    is_back: bool,
    output: &mut W,
    faults: &mut F,
) -> u8
where
    R: Net<Listener = TcpListener, Stream = TcpStream>
        + Threads
        + Wait
        + Clock
        + RandomSource
        + AllocGlobal
        + Clone
        + Send
        + Drop
        + 'static,
    W: Write,
    F: Write,
    ensures { EndsCommand (WritesBegun (W.contents output.old) (W.contents output.new)) Folder dir.now result (F.contents faults.old) (F.contents faults.new)
        ⊎ EndsCommand ⊥ Document (string_bytes address.now.name) result (F.contents faults.old) (F.contents faults.new) }
{
    match moved(rt, files, dir, address, is_back, output) {
        Ok(()) => 0,
        Err(MoveFault::Folder(fault)) => finish(Err(fault), Subject::Folder, dir, faults),
        Err(MoveFault::Document(fault)) => finish(
            Err(fault),
            Subject::Document,
            &address.name,
            faults,
        ),
    }
}

// Moves a document.
fn moved<R, W>(
    rt: &R,
    files: HostRuntime,
    dir: &str,
    address: &Address,
    is_back: bool,
    output: &mut W,
) -> Result<(), MoveFault>
where
    R: Net<Listener = TcpListener, Stream = TcpStream>
        + Threads
        + Wait
        + Clock
        + RandomSource
        + AllocGlobal
        + Clone
        + Send
        + Drop
        + 'static,
    W: Write,
    ensures { OnOk result (WritesBegun (W.contents output.old) (W.contents output.new)) }
{
    if is_back {
        move_out(rt, files, dir, address, output)
    } else {
        move_in(rt, files, dir, address, output)
    }
}
