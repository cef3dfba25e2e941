// What is left of a document in a folder, beside its segments.
use app_faults::Fault;
use disk_integrity::{SumFault, Trace, check_sums, read_sums};
use std::alloc::{AllocError, Global};
use std::fs::{self, DirEntry, File, ReadDir};
use std::io::{self, ErrorKind};
use std::rt::Files;

/// What is left of a document in a folder, beside its segments: its identity, or sums that name bytes of a segment, of the highest such
/// segment. Neither is there before a first segment was synced. The sum of an identity alone says nothing: whoever deletes `identity` by hand
/// leaves it. `None` if nothing is left, also of a folder that is missing. Writes nothing.
///
/// The errors: `Device`, if the folder can't be read; `Memory`.
pub fn trace_in<R: Files<File = File> + AllocGlobal + Clone + Drop>(
    files: &R,
    dir: &str,
) -> Result<Option<Trace>, Fault> {
    let identity = format!(in files.alloc(); "{dir}/identity")?;
    if is_there(files, &identity)? {
        return Ok(Some(Trace::Identity));
    }
    match highest_sums(files, dir)? {
        Some(segment) => Ok(Some(Trace::Sums { segment })),
        None => Ok(None),
    }
}

// Checks whether something has this path, be it a link that leads nowhere.
fn is_there<R: Files<File = File>>(files: &R, path: &str) -> Result<bool, Fault> {
    match fs::symlink_metadata(files, path) {
        Ok(_) => Ok(true),
        Err(error) if error.kind() == ErrorKind::NotFound => Ok(false),
        Err(error) => Err(Fault::from(error)),
    }
}

// The highest segment of which sums in the folder name bytes.
fn highest_sums<R: Files<File = File> + AllocGlobal + Clone + Drop>(
    files: &R,
    dir: &str,
) -> Result<Option<u32>, Fault> {
    let mut numbers = Vec::new(files.alloc());
    match fs::read_dir(files, dir) {
        Ok(entries) => add_numbers(&mut numbers, entries)?,
        Err(error) if error.kind() == ErrorKind::NotFound => return Ok(None),
        Err(error) => return Err(Fault::from(error)),
    }
    highest_named(files, dir, &numbers)
}

// The highest of these segments of which sums name bytes.
fn highest_named<R: Files<File = File> + AllocGlobal>(
    files: &R,
    dir: &str,
    numbers: &[u32],
) -> Result<Option<u32>, Fault> {
    let mut highest = None;
    for number in numbers {
        if highest < Some(*number) && names_bytes(files, dir, *number)? {
            highest = Some(*number);
        }
    }
    Ok(highest)
}

// Checks whether the sums of a segment name bytes of it.
fn names_bytes<R: Files<File = File> + AllocGlobal>(
    files: &R,
    dir: &str,
    number: u32,
) -> Result<bool, Fault> {
    match read_sums(files, dir, number) {
        Ok(sums) => Ok(matches!(check_sums(&[], &sums), Err(SumFault::Short { .. }))),
        Err(error) => Err(Fault::from(error)),
    }
}

// Adds the numbers of the segments whose sums are among a folder's files.
fn add_numbers<R: Files + Clone + Drop>(
    numbers: &mut Vec<u32>,
    entries: ReadDir<R, Global>,
) -> Result<(), Fault> {
    for entry in entries {
        add_number(numbers, entry)?;
    }
    Ok(())
}

// Adds the number of the segment whose sums a file is. A name that isn't text is passed over.
fn add_number<R: Files + Drop>(
    numbers: &mut Vec<u32>,
    entry: io::Result<DirEntry<R>>,
) -> Result<(), Fault> {
    match entry {
        Ok(entry) => match number_in(entry.file_name()) {
            Some(number) => Ok(push(numbers, number)?),
            None => Ok(()),
        },
        Err(error) if error.kind() == ErrorKind::InvalidFilename => Ok(()),
        Err(error) => Err(Fault::from(error)),
    }
}

// Adds a number.
fn push(numbers: &mut Vec<u32>, number: u32) -> Result<(), AllocError> {
    numbers.push(number)?;
    Ok(())
}

// The number of the segment whose sums a file of this name holds.
fn number_in(name: &str) -> Option<u32> {
    let digits = name.strip_prefix("segment-")?.strip_suffix(".sum")?;
    if digits.len() != 10 {
        return None;
    }
    digits.parse().ok()
}
