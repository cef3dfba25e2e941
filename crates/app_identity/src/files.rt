// The files of a folder's identity, and of its sum.
ghost use Rattle.std.specs.Prelude.{◌≡◌, IfOk, IfSome, None, false, string_bytes};
ghost use Rattle.net_http.specs.Identities.{IsIdentity};
ghost use Rattle.disk_integrity.specs.Lines.{sum_line};

use crate::drawer::{Drawer, settle};
use crate::error::IdentityError;
use crate::identity_in;
use disk_integrity::RunningSum;
use std::alloc::{AllocError, Global};
use std::fs::{self, File};
use std::io::{self, ErrorKind, Read, Write};
use std::random::RandomSource;
use std::rt::Files;

// The file of the identity, that of its sum, and how the name of one ends that is written first.
const NAME: &str = "identity";

const SUM: &str = "identity.sum";

const DRAFT: &str = ".new";

// How many bytes of a file are read. An identity has 32 digits and a line feed, and its sum 68 bytes.
const MOST_BYTES: u64 = 128;

// An identity in a folder, and if its sum is there too.
#[derive(Drop)]
struct Found {
    text: String,
    is_summed: bool,
}

// A folder of the system, as what holds an identity. Nothing is claimed of its files.
#[derive(Drop)]
struct FolderDrawer<'a, R: Files<File = File> + AllocGlobal> {
    files: &'a R,
    dir: &'a str,
}

impl<R: Files<File = File> + AllocGlobal> Drawer for FolderDrawer<'_, R> {
    ghost held = { λ s. None };

    ghost honest = { λ s. false };

    // A folder of an older version gets its sum here.
    fn find(&mut self, _alloc: Global) -> Result<Option<String>, IdentityError> {
        let Some(found) = find(self.files, self.dir)? else {
            return Ok(None);
        };
        if !found.is_summed {
            keep_sum(self.files, self.dir, &found.text)?;
        }
        Ok(Some(found.text))
    }

    fn put(&mut self, text: &str) -> Result<(), IdentityError> {
        keep_identity(self.files, self.dir, text)
    }
}

/// The identity of a folder's document. If the folder has none it is made and synced first; if it has no sum of it, as a folder of
/// an older version, that is made.
///
/// The errors: `NotOne`, if the file holds something else; `Changed`, if its sum names another; `Device`, if one of them can't be read
/// or written, or if the system gives no random bits; `Memory`.
pub fn identity<R>(files: &R, dir: &str) -> Result<String, IdentityError>
where
    R: Files<File = File> + RandomSource + AllocGlobal,
    ensures { IfOk result (λ text. IsIdentity (string_bytes text)) }
{
    settle(&mut FolderDrawer { files, dir }, files)
}

/// The identity of a folder's document, if it has one. Writes nothing. A sum without an identity says nothing.
///
/// The errors: `NotOne`, if the file holds something else; `Changed`, if its sum names another; `Device`, if one of them can't be
/// read; `Memory`.
pub fn read_identity<R>(files: &R, dir: &str) -> Result<Option<String>, IdentityError>
where
    R: Files<File = File> + AllocGlobal,
    ensures { IfOk result (λ found. IfSome found (λ text. IsIdentity (string_bytes text))) }
{
    match find(files, dir)? {
        Some(found) => Ok(Some(found.text)),
        None => Ok(None),
    }
}

// The identity of a folder's document, if it has one, which is the one that its sum names, if there is one.
fn find<R>(files: &R, dir: &str) -> Result<Option<Found>, IdentityError>
where
    R: Files<File = File> + AllocGlobal,
    ensures { IfOk result (λ found. IfSome found (λ f. IsIdentity (string_bytes f.text))) }
{
    let Some(text) = read(files, dir, NAME)? else {
        return Ok(None);
    };
    let text = identity_in(files.alloc(), &text)?;
    let is_summed = has_sum(files, dir, &text)?;
    Ok(Some(Found { text, is_summed }))
}

// Checks whether there is a sum of an identity. Fails with `Changed` if it isn't this one's.
fn has_sum<R>(files: &R, dir: &str, text: &str) -> Result<bool, IdentityError>
where
    R: Files<File = File> + AllocGlobal,
{
    match read(files, dir, SUM) {
        Ok(None) => Ok(false),
        Ok(Some(sum)) => if sum == sum_of(files.alloc(), text)? {
            Ok(true)
        } else {
            Err(IdentityError::Changed)
        },
        Err(error) => match error.kind() {
            ErrorKind::InvalidData => Err(IdentityError::Changed),
            _ => Err(IdentityError::from(error)),
        },
    }
}

// The line of an identity's sum, as `disk_integrity` has it for a segment.
fn sum_of(alloc: Global, text: &str) -> Result<String, AllocError>
    ensures { IfOk result (λ line. string_bytes line ≡ sum_line text.now) }
{
    let mut sum = RunningSum::new();
    sum.add(text.as_bytes());
    sum.line(alloc)
}

/// A new identity, of random bits.
///
/// The errors: `Device`, where the system gives none; `Memory`.
pub fn made_identity<R>(files: &R) -> Result<String, IdentityError>
where
    R: RandomSource + AllocGlobal,
    ensures { IfOk result (λ text. IsIdentity (string_bytes text)) }
{
    let mut bits = [0; 16];
    if files.fill_bytes(&mut bits).is_err() {
        return Err(IdentityError::Device);
    }
    let digits = hex::encode(files.alloc(), bits)?;
    identity_in(files.alloc(), &digits)
}

/// Keeps an identity in the folder, in place of the one that is there, and its sum: each is written beside its place, into a file that wasn't
/// there, and synced; and the folder is synced once it is in its place. The sum of another one is removed first: so a crash leaves an identity
/// with its own sum, or with none. A draft that a crash left is removed too, and no link is followed.
///
/// The errors: `Device`, where it can't be written; `Memory`.
pub fn keep_identity<R: Files<File = File> + AllocGlobal>(
    files: &R,
    dir: &str,
    text: &str,
) -> Result<(), IdentityError> {
    let alloc = files.alloc();
    remove(files, &within(alloc, dir, SUM)?)?;
    fs::open(files, dir)?.sync_all()?;
    let line = format!(in alloc; "{text}\n")?;
    write_whole(files, dir, NAME, &line)?;
    keep_sum(files, dir, text)
}

// Keeps the sum of an identity in the folder.
fn keep_sum<R: Files<File = File> + AllocGlobal>(
    files: &R,
    dir: &str,
    text: &str,
) -> Result<(), IdentityError> {
    let line = sum_of(files.alloc(), text)?;
    write_whole(files, dir, SUM, &line)?;
    Ok(())
}

/// Takes the identity and its sum out of a folder, which is synced then. The sum goes first: so a crash leaves no sum of an identity that isn't
/// there, but for one that says nothing.
///
/// The errors: `Device`, where there is none or it can't be removed; `Memory`.
pub fn remove_identity<R: Files<File = File> + AllocGlobal>(
    files: &R,
    dir: &str,
) -> Result<(), IdentityError> {
    let alloc = files.alloc();
    remove(files, &within(alloc, dir, SUM)?)?;
    fs::remove_file(files, within(alloc, dir, NAME)?)?;
    fs::open(files, dir)?.sync_all()?;
    Ok(())
}

// Writes a file of the folder whole: beside its place, into a file that wasn't there, which is synced and renamed; then the folder is.
fn write_whole<R: Files<File = File> + AllocGlobal>(
    files: &R,
    dir: &str,
    name: &str,
    text: &str,
) -> io::Result<()> {
    let path = within(files.alloc(), dir, name)?;
    let draft = format!(in files.alloc(); "{path}{DRAFT}")?;
    remove(files, &draft)?;
    let mut file = File::create_new(files, &draft)?;
    file.write_all(text.as_bytes())?;
    file.sync_all()?;
    fs::rename(files, &draft, &path)?;
    fs::open(files, dir)?.sync_all()
}

// Removes a file, if there is one.
fn remove<R: Files<File = File>>(files: &R, path: &str) -> io::Result<()> {
    match fs::remove_file(files, path) {
        Err(error) if error.kind() != ErrorKind::NotFound => Err(error),
        _ => Ok(()),
    }
}

// The path of a file of the folder.
fn within(alloc: Global, dir: &str, name: &str) -> Result<String, AllocError> {
    format!(in alloc; "{dir}/{name}")
}

// What a file of the folder holds, if it is there.
fn read<R: Files<File = File> + AllocGlobal>(
    files: &R,
    dir: &str,
    name: &str,
) -> io::Result<Option<String>> {
    match read_there(files, dir, name) {
        Ok(text) => Ok(Some(text)),
        Err(error) if error.kind() == ErrorKind::NotFound => Ok(None),
        Err(error) => Err(error),
    }
}

// What a file of the folder holds. Anything but a regular file is no text: opening a pipe would wait for its other end.
fn read_there<R: Files<File = File> + AllocGlobal>(
    files: &R,
    dir: &str,
    name: &str,
) -> io::Result<String> {
    let alloc = files.alloc();
    let path = within(alloc, dir, name)?;
    if !fs::symlink_metadata(files, &path)?.is_file() {
        return Err(io::Error::from(ErrorKind::InvalidData));
    }
    let file = fs::open(files, &path)?;
    let mut text = String::new(alloc);
    file.take(MOST_BYTES).read_to_string(&mut text)?;
    Ok(text)
}
