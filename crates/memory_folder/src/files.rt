// Files in memory, and what a folder's calls make of them.
ghost use Rattle.std.specs.Prelude.{◌≡◌, ◌<◌, ◌≤◌, ◌∷◌, [], ℕ, true, false, length, get_or, map, IfOk, OnOk, OnErr, string_bytes};
ghost use Rattle.canvas_folder.specs.Files.{has_file, names_there, bytes_at, made_in, changed, file_with_more, file_as_synced, as_removed, as_sure};
ghost use Rattle.canvas_folder.specs.Names.{same};
ghost use Rattle.memory_folder.specs.Held.{held_files};
ghost use Rattle.memory_folder.specs.Left.{asked_to_stay};
ghost use Rattle.memory_folder.specs.declared.held.Held.{Held};

use crate::held::Held;
use canvas_shelf::ShelfError;
use std::alloc::{AllocError, Global};
use std::str;

// The same files once more.
pub(crate) fn copy_all(alloc: Global, files: &[Held]) -> Result<Vec<Held>, AllocError>
    ensures { IfOk result (λ v. held_files v.items ≡ held_files files.now) }
{
    let mut copy = Vec::new(alloc);
    for f in files {
        copy.push(f.copy(alloc)?)?;
    }
    Ok(copy)
}

// Where the file of this name is; behind the last one where no file has it.
fn find(files: &[Held], name: &[u8]) -> usize
    ensures within { result ≤ length files.now }
    ensures other { (k : ℕ) (d : Held) → k < result → same (get_or files.now k d).name.items name.now ≡ false }
    ensures found { (d : Held) → result < length files.now → same (get_or files.now result d).name.items name.now ≡ true }
{
    for (i, f) in files.iter().enumerate() {
        if f.name.as_slice() == name {
            return i;
        }
    }
    files.len()
}

// Where the file of this name is that stands.
fn find_standing(files: &[Held], name: &[u8]) -> usize
    requires { has_file name.now (held_files files.now) ≡ true }
    ensures within { result < length files.now }
    ensures other { (k : ℕ) (d : Held) → k < result → same (get_or files.now k d).name.items name.now ≡ false }
    ensures found { (d : Held) → same (get_or files.now result d).name.items name.now ≡ true }
    ensures bytes { (d : Held) → bytes_at name.now (held_files files.now) ≡ (get_or files.now result d).bytes.items }
{
    find(files, name)
}

// A name as text.
fn text_of(alloc: Global, name: &[u8]) -> Result<String, ShelfError>
    ensures { IfOk result (λ s. string_bytes s ≡ name.now) }
{
    match str::from_utf8(name) {
        Ok(text) => Ok(String::from_str(alloc, text)?),
        Err(_) => Err(ShelfError::Device),
    }
}

// The names that stand.
pub(crate) fn names(alloc: Global, files: &[Held]) -> Result<Vec<String>, ShelfError>
    ensures { IfOk result (λ v. map string_bytes v.items ≡ names_there (held_files files.now)) }
{
    let mut names = Vec::new(alloc);
    for f in files {
        if f.there {
            names.push(text_of(alloc, &f.name)?)?;
        }
    }
    Ok(names)
}

// The bytes of a file that stands.
pub(crate) fn bytes<'a>(files: &'a [Held], name: &[u8]) -> &'a [u8]
    requires { has_file name.now (held_files files.now) ≡ true }
    ensures { result.now ≡ bytes_at name.now (held_files files.now) }
{
    let i = find_standing(files, name);
    &files[i].bytes
}

// Makes a file of a name that doesn't stand.
pub(crate) fn make(alloc: Global, files: &mut Vec<Held>, name: &[u8]) -> Result<(), AllocError>
    ensures ok { OnOk result (held_files files.new.items ≡ made_in name.now (held_files files.old.items)) }
    ensures err { OnErr result (held_files files.new.items ≡ held_files files.old.items) }
{
    let mut file = Held {
        name: name.to_vec(alloc)?,
        there: true,
        sure: false,
        again: false,
        synced: None,
        bytes: Vec::new(alloc),
    };
    let i = find(files, name);
    if i < files.len() {
        file.again = true;
        files[i] = file;
        return Ok(());
    }
    files.push(file)?;
    Ok(())
}

// Adds bytes at the end of a file that stands.
pub(crate) fn append(files: &mut [Held], name: &[u8], bytes: &[u8]) -> Result<(), AllocError>
    requires { has_file name.now (held_files files.old) ≡ true }
    ensures ok { OnOk result (held_files files.new ≡ changed name.now (file_with_more bytes.now) (held_files files.old)) }
    ensures err { OnErr result (held_files files.new ≡ held_files files.old) }
{
    let i = find_standing(files, name);
    files[i].bytes.extend_from_slice(bytes)?;
    Ok(())
}

// Makes sure of the bytes of a file that stands.
pub(crate) fn sync(alloc: Global, files: &mut [Held], name: &[u8]) -> Result<(), AllocError>
    requires { has_file name.now (held_files files.old) ≡ true }
    ensures ok { OnOk result (held_files files.new ≡ changed name.now file_as_synced (held_files files.old)) }
    ensures err { OnErr result (held_files files.new ≡ held_files files.old) }
{
    let i = find_standing(files, name);
    let copy = files[i].bytes.to_vec(alloc)?;
    files[i].synced = Some(copy);
    Ok(())
}

// Removes a name that stands.
pub(crate) fn remove(files: &mut [Held], name: &[u8])
    requires { has_file name.now (held_files files.old) ≡ true }
    ensures { held_files files.new ≡ changed name.now as_removed (held_files files.old) }
{
    let i = find_standing(files, name);
    let file = &mut files[i];
    file.there = false;
    file.sure = false;
}

// Makes sure of which names stand.
pub(crate) fn make_sure(files: &mut [Held])
    ensures { held_files files.new ≡ map as_sure (held_files files.old) }
{
    for i in 0..files.len() {
        files[i].sure = true;
    }
}

// How many unsynced bytes of a file are to stay, if it is named.
pub(crate) fn asked_of(keep: &[(&[u8], u64)], name: &[u8]) -> Option<u64>
    ensures { result ≡ asked_to_stay name.now (map (λ k. (k.0.now, k.1)) keep.now) }
{
    for (named, bytes) in keep {
        if *named == name {
            return Some(*bytes);
        }
    }
    None
}
