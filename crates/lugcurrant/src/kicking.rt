// How an operator ends connections of a running server: a file brings it their numbers.
ghost use Rattle.std.specs.Prelude.{OnOk};
ghost use Rattle.app_faults.specs.Told.{EndsCommand};
ghost use Rattle.app_faults.specs.declared.subject.Subject.TheVariants.{Folder};
ghost use Rattle.lugcurrant.specs.Kicks.{WritesTaken};

use app_faults::{Fault, KickFault, Subject, finish};
use app_server::kick_text;
use std::fs::{self, File};
use std::io::{self, ErrorKind, Write};
use std::thread::sleep;
use std::time::{Clock, Duration};

// How often it is looked whether a server has taken the file, and how long each look takes: 5 seconds in all.
const MOST_LOOKS: u32 = 100;

const LOOK_MILLIS: u64 = 50;

/// Gives a server the numbers of the connections that it ends, in a file, and prints that it has taken them.
pub(crate) fn run_kick<R: Clock + AllocGlobal, W: Write, F: Write>(
    rt: &R,
    files: HostRuntime,
    file: &str,
    numbers: &[u64],
    output: &mut W,
    faults: &mut F,
) -> u8
    ensures { EndsCommand (WritesTaken file.now (W.contents output.old) (W.contents output.new)) Folder file.now result (F.contents faults.old) (F.contents faults.new) }
{
    finish(
        kick(rt, files, file, numbers, output),
        Subject::Folder,
        file,
        faults,
    )
}

// Gives a server these numbers. Errors: `NoKick` if no server takes them; `Stream` if the output fails; out of memory.
fn kick<R: Clock + AllocGlobal, W: Write>(
    rt: &R,
    files: HostRuntime,
    file: &str,
    numbers: &[u64],
    output: &mut W,
) -> Result<(), Fault>
    ensures { OnOk result (WritesTaken file.now (W.contents output.old) (W.contents output.new)) }
{
    let text = kick_text(rt.alloc(), numbers)?;
    put(files, file, text.as_bytes())?;
    if !is_taken(rt, files, file) {
        return Err(Fault::NoKick {
            why: KickFault::NotTaken,
        });
    }
    tell_taken(file, output)
}

// Prints that a server has taken this file.
fn tell_taken<W: Write>(file: &str, output: &mut W) -> Result<(), Fault>
    ensures { OnOk result (WritesTaken file.now (W.contents output.old) (W.contents output.new)) }
{
    if writeln!(output, "the server has taken {file}").is_err() || output.flush().is_err() {
        return Err(Fault::Stream);
    }
    Ok(())
}

// Writes a file, if none is there: into another beside it, which has its name once it is whole. Of two kicks at once one finds the other's.
fn put(files: HostRuntime, file: &str, text: &[u8]) -> Result<(), Fault> {
    let new = format!(in files.alloc(); "{file}.new")?;
    let made = match File::create_new(&files, &new) {
        Ok(made) => made,
        Err(error) => return Err(not_made(&error)),
    };
    let done = fill(files, made, &new, file, text);
    if done.is_err() {
        let _ = fs::remove_file(&files, &new);
    }
    done
}

// Writes a new file, and gives it its name, if nothing has it.
fn fill(
    files: HostRuntime,
    made: File,
    new: &String,
    file: &str,
    text: &[u8],
) -> Result<(), Fault> {
    let mut made = made;
    if fs::symlink_metadata(&files, file).is_ok() {
        return Err(Fault::NoKick {
            why: KickFault::There,
        });
    }
    if made.write_all(text).is_err() || fs::rename(&files, new, file).is_err() {
        return Err(Fault::NoKick {
            why: KickFault::NotWritten,
        });
    }
    Ok(())
}

// What it means that the file beside isn't made.
fn not_made(error: &io::Error) -> Fault {
    let why = match error.kind() {
        ErrorKind::AlreadyExists => KickFault::There,
        _ => KickFault::NotWritten,
    };
    Fault::NoKick { why }
}

// Waits at most 5 seconds until a server has taken the file, and takes it back then. Returns whether a server has taken it.
fn is_taken<R: Clock>(rt: &R, files: HostRuntime, file: &str) -> bool {
    for _ in 0..MOST_LOOKS {
        if matches!(fs::exists(&files, file), Ok(false)) {
            return true;
        }
        sleep(rt, Duration::from_millis(LOOK_MILLIS));
    }
    match fs::remove_file(&files, file) {
        Ok(()) => false,
        Err(error) => error.kind() == ErrorKind::NotFound,
    }
}
