// The program: its words, and the status that it ends with.
ghost use Rattle.std.specs.Prelude.{◌≡◌, IfOk, string_bytes};
ghost use Rattle.app_admin.specs.Begun.{WritesImported};
ghost use Rattle.app_admin.specs.Logs.{WritesLog};
ghost use Rattle.app_faults.specs.Told.{EndsCommand};
ghost use Rattle.app_storage.specs.Faults.{IsServedUntilFault};
ghost use Rattle.lugcurrant.specs.Runs.{CarriesOut, EndsAt, IsWordRefused, IsCommandRun, Shows, WritesChecked, WritesShown, place_bytes, served_of};

use crate::caring::{run_check, run_import, run_log, run_restore, run_rows, run_tree};
use crate::editing::run_edit;
use crate::kicking::run_kick;
use crate::remote::{import_remote, run_move};
use app_admin::{FolderHome, Home, Layout, NewFolder};
use app_admin_etcd::DocumentHome;
use app_args::{DocumentPlace, Invocation, Options, WordError, WordsError, read_words};
use app_faults::{Fault, Subject, Told, end, tell};
use app_server::serve;
use canvas_shelf::Shelf;
use std::alloc::{AllocError, Global};
use std::io::{BufRead, Eprint, Print, Read, Write};
use std::net::{Net, TcpListener, TcpStream};
use std::random::RandomSource;
use std::sync::Wait;
use std::thread::Threads;
use std::time::Clock;

/// Does what the words ask for, of which the first is the program's name, and answers the program's status: 0, or that of the fault
/// that ended it, which is told on `faults`.
pub fn run<R, I, W, F>(
    rt: &R,
    files: HostRuntime,
    words: &[String],
    input: &mut I,
    output: &mut W,
    faults: &mut F,
) -> u8
where
    R: Net<Listener = TcpListener, Stream = TcpStream>
        + Threads
        + Wait
        + Clock
        + RandomSource
        + Print
        + Eprint
        + AllocGlobal
        + Clone
        + Send
        + Sync
        + Drop
        + 'static,
    I: BufRead,
    W: Write,
    F: Write,
    ensures { IsCommandRun result
        (I.remaining input.old) (I.remaining input.new)
        (W.contents output.old) (W.contents output.new)
        (F.contents faults.old) (F.contents faults.new) }
{
    match read_words(rt.alloc(), words) {
        Ok(asked) => carry_out(rt, files, asked, input, output, faults),
        Err(WordsError::Line(error)) => match error.print(rt) {
            Ok(()) => error.exit_code() as u8,
            Err(_) => 4,
        },
        Err(WordsError::Word(error)) => refuse(error, faults),
    }
}

// Tells which word isn't as it has to be. Its sentence names no folder.
fn refuse<F: Write>(error: WordError, faults: &mut F) -> u8
    ensures { IsWordRefused error result (F.contents faults.old) (F.contents faults.new) }
{
    let told = Told {
        fault: Fault::from(error),
        subject: Subject::Folder,
        name: "",
        port: 0,
    };
    tell(&told, faults)
}

// Does what is asked for.
fn carry_out<R, I, W, F>(
    rt: &R,
    files: HostRuntime,
    asked: Invocation,
    input: &mut I,
    output: &mut W,
    faults: &mut F,
) -> u8
where
    R: Net<Listener = TcpListener, Stream = TcpStream>
        + Threads
        + Wait
        + Clock
        + RandomSource
        + Eprint
        + AllocGlobal
        + Clone
        + Send
        + Sync
        + Drop
        + 'static,
    I: BufRead,
    W: Write,
    F: Write,
    ensures { CarriesOut asked result
        (I.remaining input.old) (I.remaining input.new)
        (W.contents output.old) (W.contents output.new)
        (F.contents faults.old) (F.contents faults.new) }
{
    match asked {
        Invocation::Serve(options) => run_server(rt, files, options, faults),
        Invocation::Show { place, layout } => show(rt, files, &place, layout, output, faults),
        Invocation::Import { place } => import(rt, files, &place, input, output, faults),
        Invocation::Restore {
            backup,
            dir,
            accept_loss,
        } => run_restore(files, &backup, &dir, accept_loss, output, faults),
        Invocation::Move {
            dir,
            address,
            is_back,
        } => run_move(rt, files, &dir, &address, is_back, output, faults),
        Invocation::Check { place } => check(rt, files, &place, output, faults),
        Invocation::Log { place } => log(rt, files, &place, output, faults),
        Invocation::Kick { file, numbers } => run_kick(rt, files, &file, &numbers, output, faults),
        Invocation::Edit { port } => run_edit(rt, port, input, output, faults),
    }
}

// Writes a document's tree, or its rows.
fn show<R, W, F>(
    rt: &R,
    files: HostRuntime,
    place: &DocumentPlace,
    layout: Option<Layout>,
    output: &mut W,
    faults: &mut F,
) -> u8
where
    R: Net<Stream = TcpStream> + Clock + RandomSource + AllocGlobal + Clone + Drop,
    W: Write,
    F: Write,
    ensures { Shows place.now layout result (W.contents output.old) (W.contents output.new) (F.contents faults.old) (F.contents faults.new) }
{
    let alloc = rt.alloc();
    match place {
        DocumentPlace::Folder(dir) => show_home(
            alloc,
            &mut FolderHome { files, dir },
            Subject::Folder,
            dir,
            layout,
            output,
            faults,
        ),
        DocumentPlace::Document(address) => show_home(
            alloc,
            &mut DocumentHome::new(rt, address),
            Subject::Document,
            &address.name,
            layout,
            output,
            faults,
        ),
    }
}

// Writes the tree of the document that is kept there, or its rows.
fn show_home<S: Shelf + Drop, H: Home<S>, W: Write, F: Write>(
    alloc: Global,
    home: &mut H,
    subject: Subject,
    name: &str,
    layout: Option<Layout>,
    output: &mut W,
    faults: &mut F,
) -> u8
    ensures { EndsCommand (WritesShown layout (W.contents output.old) (W.contents output.new)) subject name.now result (F.contents faults.old) (F.contents faults.new) }
{
    match layout {
        None => run_tree(alloc, home, subject, name, output, faults),
        Some(layout) => run_rows(alloc, home, subject, name, layout, output, faults),
    }
}

// Tells what stands in a document's segments.
fn check<R, W, F>(
    rt: &R,
    files: HostRuntime,
    place: &DocumentPlace,
    output: &mut W,
    faults: &mut F,
) -> u8
where
    R: Net<Stream = TcpStream> + Clock + RandomSource + AllocGlobal + Clone + Drop,
    W: Write,
    F: Write,
    ensures { EndsAt place.now (WritesChecked place.now (W.contents output.old) (W.contents output.new)) result (F.contents faults.old) (F.contents faults.new) }
{
    let alloc = rt.alloc();
    match place {
        DocumentPlace::Folder(dir) => run_check(
            alloc,
            &mut FolderHome { files, dir },
            Subject::Folder,
            dir,
            output,
            faults,
        ),
        DocumentPlace::Document(address) => run_check(
            alloc,
            &mut DocumentHome::new(rt, address),
            Subject::Document,
            &address.name,
            output,
            faults,
        ),
    }
}

// Writes the entries past a document's checkpoint.
fn log<R, W, F>(
    rt: &R,
    files: HostRuntime,
    place: &DocumentPlace,
    output: &mut W,
    faults: &mut F,
) -> u8
where
    R: Net<Stream = TcpStream> + Clock + RandomSource + AllocGlobal + Clone + Drop,
    W: Write,
    F: Write,
    ensures { EndsAt place.now (WritesLog (W.contents output.old) (W.contents output.new)) result (F.contents faults.old) (F.contents faults.new) }
{
    let alloc = rt.alloc();
    match place {
        DocumentPlace::Folder(dir) => run_log(
            alloc,
            &mut FolderHome { files, dir },
            Subject::Folder,
            dir,
            output,
            faults,
        ),
        DocumentPlace::Document(address) => run_log(
            alloc,
            &mut DocumentHome::new(rt, address),
            Subject::Document,
            &address.name,
            output,
            faults,
        ),
    }
}

// Makes a new document of the rows of the input.
fn import<R, I, W, F>(
    rt: &R,
    files: HostRuntime,
    place: &DocumentPlace,
    input: &mut I,
    output: &mut W,
    faults: &mut F,
) -> u8
where
    R: Net<Listener = TcpListener, Stream = TcpStream>
        + Threads
        + Wait
        + Clock
        + RandomSource
        + AllocGlobal
        + Clone
        + Send
        + Drop
        + 'static,
    I: Read,
    W: Write,
    F: Write,
    ensures { EndsAt place.now (WritesImported (I.remaining input.old) (I.remaining input.new) (W.contents output.old) (W.contents output.new))
        result (F.contents faults.old) (F.contents faults.new) }
{
    match place {
        DocumentPlace::Folder(dir) => run_import(
            rt.alloc(),
            &mut NewFolder { files, dir },
            Subject::Folder,
            dir,
            input,
            output,
            faults,
        ),
        DocumentPlace::Document(address) => import_remote(rt, address, input, output, faults),
    }
}

// Serves until a fault ends it, and tells of the fault.
fn run_server<R, F>(rt: &R, files: HostRuntime, options: Options, faults: &mut F) -> u8
where
    R: Net<Listener = TcpListener, Stream = TcpStream>
        + Threads
        + Wait
        + Clock
        + RandomSource
        + Eprint
        + AllocGlobal
        + Clone
        + Send
        + Sync
        + Drop
        + 'static,
    F: Write,
    ensures { IsServedUntilFault (served_of options.place) (place_bytes options.place)
        options.serving.port options.serving.workers options.serving.stop_file
        result (F.contents faults.old) (F.contents faults.new) }
{
    let port = options.serving.port;
    let subject = served_of(&options.place);
    match place_text(rt.alloc(), &options.place) {
        Ok(name) => {
            let fault = serve(rt, files, options);
            end(
                &Told {
                    fault,
                    subject,
                    name: &name,
                    port,
                },
                faults,
            )
        }
        Err(_) => end(
            &Told {
                fault: Fault::Memory,
                subject,
                name: "",
                port,
            },
            faults,
        ),
    }
}

// What a server's faults are of.
fn served_of(place: &DocumentPlace) -> Subject
    ensures { result ≡ served_of place.now }
{
    match place {
        DocumentPlace::Folder(_) => Subject::ServedFolder,
        DocumentPlace::Document(_) => Subject::ServedDocument,
    }
}

// The folder of a document, or its name in an etcd.
fn place_text(alloc: Global, place: &DocumentPlace) -> Result<String, AllocError>
    ensures { IfOk result (λ text. string_bytes text ≡ place_bytes place.now) }
{
    match place {
        DocumentPlace::Folder(dir) => String::from_str(alloc, dir),
        DocumentPlace::Document(address) => String::from_str(alloc, &address.name),
    }
}
