// The commands that care for a document, each to its end: they answer the program's status, once a fault is told.
ghost use Rattle.std.specs.Prelude.{◌⊎◌};
ghost use Rattle.app_admin.specs.Begun.{WritesBegun, WritesImported};
ghost use Rattle.app_admin.specs.Checks.{WritesCheckIf};
ghost use Rattle.app_admin.specs.Logs.{WritesLog};
ghost use Rattle.app_admin.specs.Shown.{WritesRows};
ghost use Rattle.app_faults.specs.Told.{EndsCommand};
ghost use Rattle.app_faults.specs.declared.subject.Subject.TheVariants.{Folder};
ghost use Rattle.canvas_lines.specs.Reports.{WritesReport};

use app_admin::{
    FolderHome, Ground, Home, Layout, SumSource, begin_folder, check, import_on, log, read_backup,
    show_rows, show_tree,
};
use app_faults::{Subject, finish};
use canvas_shelf::Shelf;
use std::alloc::Global;
use std::io::{Read, Write};

/// Writes the tree of the document that is kept there.
pub(crate) fn run_tree<S: Shelf + Drop, H: Home<S>, W: Write, F: Write>(
    alloc: Global,
    home: &mut H,
    subject: Subject,
    name: &str,
    output: &mut W,
    faults: &mut F,
) -> u8
    ensures { EndsCommand (WritesReport (W.contents output.old) (W.contents output.new)) subject name.now result (F.contents faults.old) (F.contents faults.new) }
{
    finish(show_tree(alloc, home, output), subject, name, faults)
}

/// Writes the rows of the document that is kept there.
pub(crate) fn run_rows<S: Shelf + Drop, H: Home<S>, W: Write, F: Write>(
    alloc: Global,
    home: &mut H,
    subject: Subject,
    name: &str,
    layout: Layout,
    output: &mut W,
    faults: &mut F,
) -> u8
    ensures { EndsCommand (WritesRows layout (W.contents output.old) (W.contents output.new)) subject name.now result (F.contents faults.old) (F.contents faults.new) }
{
    finish(
        show_rows(alloc, home, layout, output),
        subject,
        name,
        faults,
    )
}

/// Writes the entries past the checkpoint of the document that is kept there.
pub(crate) fn run_log<S: Shelf + Drop, H: Home<S>, W: Write, F: Write>(
    alloc: Global,
    home: &mut H,
    subject: Subject,
    name: &str,
    output: &mut W,
    faults: &mut F,
) -> u8
    ensures { EndsCommand (WritesLog (W.contents output.old) (W.contents output.new)) subject name.now result (F.contents faults.old) (F.contents faults.new) }
{
    finish(log(alloc, home, output), subject, name, faults)
}

/// Makes a new document there of the rows of the input.
pub(crate) fn run_import<G: Ground, I: Read, W: Write, F: Write>(
    alloc: Global,
    ground: &mut G,
    subject: Subject,
    name: &str,
    input: &mut I,
    output: &mut W,
    faults: &mut F,
) -> u8
    ensures { EndsCommand (WritesImported (I.remaining input.old) (I.remaining input.new) (W.contents output.old) (W.contents output.new))
        subject name.now result (F.contents faults.old) (F.contents faults.new) }
{
    finish(
        import_on(alloc, ground, input, output),
        subject,
        name,
        faults,
    )
}

/// Makes a new folder of a backup; of one that has lost something only if that is accepted. A fault of the backup is told with the backup's
/// name.
pub(crate) fn run_restore<W: Write, F: Write>(
    files: HostRuntime,
    backup: &str,
    dir: &str,
    accept_loss: bool,
    output: &mut W,
    faults: &mut F,
) -> u8
    ensures { EndsCommand (WritesBegun (W.contents output.old) (W.contents output.new)) Folder dir.now result (F.contents faults.old) (F.contents faults.new)
        ⊎ EndsCommand ⊥ Folder backup.now result (F.contents faults.old) (F.contents faults.new) }
{
    let alloc = files.alloc();
    match read_backup(alloc, &mut FolderHome { files, dir: backup }, accept_loss) {
        Ok((state, version)) => {
            let done = begin_folder(files, dir, &state, version, output);
            finish(done, Subject::Folder, dir, faults)
        }
        Err(fault) => finish(Err(fault), Subject::Folder, backup, faults),
    }
}

/// Tells what stands in the segments of the document that is kept there.
pub(crate) fn run_check<S: Shelf + Drop, H: Home<S> + SumSource, W: Write, F: Write>(
    alloc: Global,
    home: &mut H,
    subject: Subject,
    name: &str,
    output: &mut W,
    faults: &mut F,
) -> u8
    ensures { EndsCommand (WritesCheckIf (H.summed home.old) (W.contents output.old) (W.contents output.new)) subject name.now result (F.contents faults.old) (F.contents faults.new) }
{
    finish(check(alloc, home, output), subject, name, faults)
}
