// Watched shelves, and calls that are made of them in turn.
ghost use Rattle.std.specs.Prelude.{◌≡◌, false};

use crate::documents::{Access, shelf_for};
use canvas_shelf::Shelf;
use disk_integrity::{CallCounts, ShelfCall, SumFiles, Watched};
use std::alloc::Global;
use std::fs;
use std::test::Fail;

// A call of a shelf, and the bytes that it appends or is to read.
pub type Step = (ShelfCall, &'static [u8]);

// What stands in a file's place.
#[derive(Clone, Copy)]
pub enum Standing {
    Nothing,
    // A file of another time.
    File,
    // A folder, so that the file can't be made.
    Folder,
}

// What is told of a watched shelf of which calls were made.
#[derive(Clone, Copy)]
pub struct Told {
    // How many of the calls were done.
    pub done: usize,
    // How many calls failed, as the shelf counts them.
    pub failures: u64,
    // Which call was noted as the first failure before any was made.
    pub before: Option<ShelfCall>,
    // Which call is noted as the first failure now.
    pub failed: Option<ShelfCall>,
    // What was counted.
    pub counts: CallCounts,
}

// What goes to a thread.
fn goes<T: Send>(_value: &T) {}

// Makes a call of a shelf. Whether it was done; where it reads, whether it read these bytes.
fn does<S: Shelf>(alloc: Global, shelf: &mut S, call: ShelfCall, bytes: &[u8]) -> bool
    requires { S.honest shelf.old ≡ false }
    ensures { S.honest shelf.new ≡ S.honest shelf.old }
{
    match call {
        ShelfCall::List => shelf.list(alloc).is_ok(),
        ShelfCall::Read(number) => match shelf.read(alloc, number) {
            Ok(read) => read.as_slice() == bytes,
            Err(_) => false,
        },
        ShelfCall::Create(number) => shelf.create(number).is_ok(),
        ShelfCall::Append(number) => shelf.append(number, bytes).is_ok(),
        ShelfCall::Sync(number) => shelf.sync(number).is_ok(),
        ShelfCall::Retire(number) => shelf.retire(number).is_ok(),
    }
}

// Makes these calls of a shelf. How many were done, and how many failed, as the shelf counts them.
fn play<S: Shelf>(alloc: Global, shelf: &mut S, steps: &[Step]) -> (usize, u64)
    requires { S.honest shelf.old ≡ false }
{
    let mut done = 0usize;
    for (call, bytes) in steps {
        if does(alloc, shelf, *call, bytes) {
            done = done.saturating_add(1);
        }
    }
    (done, shelf.failures())
}

// Makes these calls of a shelf that is watched from now on, with the sums of its segments in this folder. What is told of it then.
fn watch<S: Shelf + Drop + Send>(
    rt: &HostRuntime,
    shelf: S,
    folder: &str,
    steps: &[Step],
) -> Result<Told, Fail>
    requires { S.honest shelf ≡ false }
{
    let witness = SumFiles::new(rt.clone()?, folder)?;
    let mut watched = Watched::new(rt.alloc(), shelf, witness)?;
    goes(&watched);
    let notes = watched.notes().share()?;
    let before = notes.failed();
    let (done, failures) = play(rt.alloc(), &mut watched, steps);
    Ok(Told {
        done,
        failures,
        before,
        failed: notes.failed(),
        counts: watched.notes().counts(),
    })
}

// Makes these calls of the watched shelf of a folder that is there. What is told of it then.
pub fn watched(
    rt: &HostRuntime,
    folder: &str,
    access: Access,
    steps: &[Step],
) -> Result<Told, Fail> {
    watch(rt, shelf_for(rt, folder, access)?, folder, steps)
}

// Makes a folder anew, with this in the place of the sums of its second segment.
pub fn renew(rt: &HostRuntime, folder: &str, standing: Standing) -> Result<(), Fail> {
    let _ = fs::remove_dir_all(rt, folder);
    fs::create_dir(rt, folder)?;
    let path = format!(in rt.alloc(); "{folder}/segment-0000000002.sum")?;
    match standing {
        Standing::Nothing => {}
        Standing::File => fs::write(rt, path.as_str(), "of another time\n")?,
        Standing::Folder => fs::create_dir(rt, path.as_str())?,
    }
    Ok(())
}
