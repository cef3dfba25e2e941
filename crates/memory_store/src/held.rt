// Segments that stand, in memory.
ghost use Rattle.std.specs.Prelude.{◌≡◌, true, ◌<◌, ◌≤◌, ℕ, None, length, get_or, IfOk, IfSome, OnOk, OnErr};
ghost use Rattle.canvas_etcd.specs.Listed.{listed_in};
ghost use Rattle.canvas_etcd.specs.Stores.{segment_bytes, size_at, put_behind, without_segment};
ghost use Rattle.memory_store.specs.Held.{held_content};
ghost use Rattle.memory_store.specs.Sound.{numbers_fall};

use canvas_etcd::Standing;
use std::alloc::{AllocError, Allocator, Global};

// A segment that stands.
#[derive(Drop)]
pub(crate) struct Held {
    pub(crate) number: u32,
    pub(crate) bytes: Vec<u8>,
}

// The same segments once more.
pub(crate) fn copy_all(alloc: Global, held: &[Held]) -> Result<Vec<Held>, AllocError>
    ensures { IfOk result (λ v. held_content v.items ≡ held_content held.now) }
{
    let mut copy = Vec::new(alloc);
    for segment in held {
        copy.push(Held {
            number: segment.number,
            bytes: segment.bytes.to_vec(alloc)?,
        })?;
    }
    Ok(copy)
}

// Each segment's number and size.
pub(crate) fn list(alloc: Global, held: &[Held]) -> Result<Vec<Standing>, AllocError>
    ensures { IfOk result (λ v. v.items ≡ listed_in (held_content held.now)) }
{
    let mut listed = Vec::new(alloc);
    for segment in held {
        listed.push(Standing {
            number: segment.number,
            size: segment.bytes.len() as u64,
        })?;
    }
    Ok(listed)
}

// Where the segment of this number is, or belongs: behind those with higher numbers.
fn place(held: &[Held], number: u32) -> usize
    ensures within { result ≤ length held.now }
    ensures above { (k : ℕ) (h : Held) → k < result → number < (get_or held.now k h).number }
    ensures next { (h : Held) → result < length held.now → (get_or held.now result h).number ≤ number }
{
    for (i, segment) in held.iter().enumerate() {
        if segment.number <= number {
            return i;
        }
    }
    held.len()
}

// The bytes of a segment; none where it doesn't stand.
pub(crate) fn read<A: Allocator>(
    alloc: A,
    held: &[Held],
    number: u32,
) -> Result<Vec<u8, A>, AllocError>
    requires { size_at number (held_content held.now) ≡ None → ⊥ }
    ensures { IfOk result (λ v. v.items ≡ segment_bytes number (held_content held.now)) }
{
    let i = find(held, number);
    Vec::from_slice(alloc, &held[i].bytes)
}

// Where a segment is that stands.
fn find(held: &[Held], number: u32) -> usize
    requires { size_at number (held_content held.now) ≡ None → ⊥ }
    ensures within { result < length held.now }
    ensures bytes { (h : Held) → segment_bytes number (held_content held.now) ≡ (get_or held.now result h).bytes.items }
{
    for (i, segment) in held.iter().enumerate() {
        if segment.number == number {
            return i;
        }
    }
    unreachable!()
}

// Puts bytes behind those of a segment, in its place.
fn put_in(alloc: Global, held: &mut Vec<Held>, number: u32, bytes: &[u8]) -> Result<(), AllocError>
    ensures ok { OnOk result (held_content held.new.items ≡ put_behind number bytes.now (held_content held.old.items)) }
    ensures err { OnErr result (held_content held.new.items ≡ held_content held.old.items) }
{
    let i = place(held, number);
    if i < held.len() && held[i].number == number {
        held[i].bytes.extend_from_slice(bytes)?;
        return Ok(());
    }
    let bytes = bytes.to_vec(alloc)?;
    held.insert(i, Held { number, bytes })?;
    Ok(())
}

// Puts bytes behind those of a segment, which stands from here on.
pub(crate) fn put(
    alloc: Global,
    held: &mut Vec<Held>,
    number: u32,
    bytes: &[u8],
) -> Result<(), AllocError>
    ensures ok { OnOk result (held_content held.new.items ≡ put_behind number bytes.now (held_content held.old.items)) }
    ensures err { OnErr result (held_content held.new.items ≡ held_content held.old.items) }
    ensures falls { numbers_fall (held_content held.old.items) ≡ true → numbers_fall (held_content held.new.items) ≡ true }
{
    put_in(alloc, held, number, bytes)
}

// Deletes a segment from its place, if it stands.
fn remove_in(held: &mut Vec<Held>, number: u32)
    requires { numbers_fall (held_content held.old.items) ≡ true }
    ensures { held_content held.new.items ≡ without_segment number (held_content held.old.items) }
{
    let i = place(held, number);
    if i < held.len() && held[i].number == number {
        held.remove(i);
    }
}

// Deletes a segment, if it stands.
pub(crate) fn remove(held: &mut Vec<Held>, number: u32)
    requires { numbers_fall (held_content held.old.items) ≡ true }
    ensures content { held_content held.new.items ≡ without_segment number (held_content held.old.items) }
    ensures falls { numbers_fall (held_content held.new.items) ≡ true }
{
    remove_in(held, number);
}
