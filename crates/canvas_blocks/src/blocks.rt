// Lists of blocks.
ghost use Rattle.std.specs.Prelude.{◌≡◌, ◌<◌, ◌≤◌, ◌∷◌, [], ◌++◌, IfOk, OnOk, OnErr, Some, length, slice_get, slice_index_or, slice_set};
ghost use Rattle.std.specs.Fn.{FnReturnsAt};
ghost use Rattle.std.specs.List.{insert, remove};
ghost use Rattle.std.specs.Option.{option_map};
ghost use Rattle.canvas_blocks.specs.Blocks.{flat, index_at, index_of, sizes, with_value, IsEdge, IsIn, IsPlace, NoneEmpty};

use crate::find::find;
use std::alloc::{AllocError, Allocator};
use std::mem;

// The most items of a block.
const MOST: usize = 512;

/// Puts another item in place of the one at this offset of this block.
pub fn replace_in<T: Drop, A: Allocator>(
    blocks: &mut Vec<Vec<T, A>, A>,
    block: usize,
    offset: usize,
    item: T,
) -> T
    requires there { IsIn blocks.old.items block offset }
    requires none_empty { NoneEmpty blocks.old.items }
    ensures item { result ≡ slice_index_or (flat blocks.old.items) (index_of blocks.old.items block offset) result }
    ensures items { flat blocks.new.items ≡ slice_set (flat blocks.old.items) (index_of blocks.old.items block offset) item }
    ensures none_empty { NoneEmpty blocks.new.items }
    ensures sizes { sizes blocks.new.items ≡ sizes blocks.old.items }
{
    let block = &mut blocks[block];
    mem::replace(&mut block[offset], item)
}

/// Gives the pair at this offset of this block another value, and gives its own back.
pub fn replace_value<K: Drop, V: Drop, A: Allocator>(
    blocks: &mut Vec<Vec<(K, V), A>, A>,
    block: usize,
    offset: usize,
    value: V,
) -> V
    requires there { IsIn blocks.old.items block offset }
    requires none_empty { NoneEmpty blocks.old.items }
    ensures value { Some result ≡ option_map (λ pair. pair.1) (slice_get (flat blocks.old.items) (index_of blocks.old.items block offset)) }
    ensures items { flat blocks.new.items ≡ with_value (flat blocks.old.items) (index_of blocks.old.items block offset) value }
    ensures none_empty { NoneEmpty blocks.new.items }
{
    let block = &mut blocks[block];
    let pair = &mut block[offset];
    mem::replace(&mut pair.1, value)
}

/// Takes the item at this offset of this block out, and the block where no item is left in it.
pub fn take<T: Drop, A: Allocator>(blocks: &mut Vec<Vec<T, A>, A>, block: usize, offset: usize) -> T
    requires there { IsIn blocks.old.items block offset }
    requires none_empty { NoneEmpty blocks.old.items }
    ensures item { result ≡ slice_index_or (flat blocks.old.items) (index_of blocks.old.items block offset) result }
    ensures items { flat blocks.new.items ≡ remove (flat blocks.old.items) (index_of blocks.old.items block offset) }
    ensures none_empty { NoneEmpty blocks.new.items }
{
    let item = blocks[block].remove(offset);
    if blocks[block].is_empty() {
        let _ = blocks.remove(block);
    }
    item
}

/// Adds an item at the end; the others stay where they stand. If memory runs out, all do.
pub fn push_to<T: Drop, A: Allocator + Copy>(
    blocks: &mut Vec<Vec<T, A>, A>,
    item: T,
) -> Result<(), AllocError>
    requires { NoneEmpty blocks.old.items }
    ensures ok { OnOk result (flat blocks.new.items ≡ flat blocks.old.items ++ item ∷ []) }
    ensures err { OnErr result (flat blocks.new.items ≡ flat blocks.old.items) }
    ensures none_empty { NoneEmpty blocks.new.items }
    ensures sizes { OnErr result (sizes blocks.new.items ≡ sizes blocks.old.items) }
    ensures stays { (b o : _) → IsIn blocks.old.items b o → IsIn blocks.new.items b o × (index_of blocks.new.items b o ≡ index_of blocks.old.items b o) }
{
    let len = blocks.len();
    if len > 0 && blocks[len - 1].len() < MOST {
        blocks[len - 1].push(item)?;
        return Ok(());
    }
    let mut block = Vec::new(*blocks.allocator());
    block.push(item)?;
    blocks.push(block)?;
    Ok(())
}

/// Puts an item in at an edge, before the one there. If memory runs out, the items stay.
pub fn insert_in<T: Drop, A: Allocator + Copy, P: Fn(&T) -> bool>(
    blocks: &mut Vec<Vec<T, A>, A>,
    before: &P,
    item: T,
) -> Result<(), AllocError>
    requires callable { P.IsAlwaysCallable before.now }
    requires none_empty { NoneEmpty blocks.old.items }
    ensures ok { OnOk result ((i : _) × IsEdge (FnReturnsAt P.Fn before.now) (flat blocks.old.items) i × (flat blocks.new.items ≡ insert (flat blocks.old.items) i item)) }
    ensures err { OnErr result (flat blocks.new.items ≡ flat blocks.old.items) }
    ensures none_empty { NoneEmpty blocks.new.items }
{
    match room_for(blocks, before)? {
        Some((block, offset)) => blocks[block].insert(offset, item)?,
        None => push_to(blocks, item)?,
    }
    Ok(())
}

/// The block and the offset of the item at an edge, or none at the end, after a full block there was split in two. If memory runs
/// out, the items stay.
pub fn room_for<T: Drop, A: Allocator + Copy, P: Fn(&T) -> bool>(
    blocks: &mut Vec<Vec<T, A>, A>,
    before: &P,
) -> Result<Option<(usize, usize)>, AllocError>
    requires callable { P.IsAlwaysCallable before.now }
    requires none_empty { NoneEmpty blocks.old.items }
    ensures place { IfOk result (λ at. IsPlace blocks.new.items at) }
    ensures edge { IfOk result (λ at. IsEdge (FnReturnsAt P.Fn before.now) (flat blocks.old.items) (index_at blocks.new.items at)) }
    ensures items { flat blocks.new.items ≡ flat blocks.old.items }
    ensures none_empty { NoneEmpty blocks.new.items }
{
    let Some((block, offset)) = find(blocks, before) else {
        return Ok(None);
    };
    if blocks[block].len() < MOST {
        return Ok(Some((block, offset)));
    }
    split(blocks, block)?;
    Ok(find(blocks, before))
}

// Splits a block of at least two items in two. If memory runs out, the items stay.
fn split<T: Drop, A: Allocator + Copy>(
    blocks: &mut Vec<Vec<T, A>, A>,
    block: usize,
) -> Result<(), AllocError>
    requires in_range { block < length blocks.old.items }
    requires long { (d : _) → 2 ≤ length (slice_index_or blocks.old.items block d).items }
    requires none_empty { NoneEmpty blocks.old.items }
    ensures items { flat blocks.new.items ≡ flat blocks.old.items }
    ensures none_empty { NoneEmpty blocks.new.items }
{
    blocks.reserve(1)?;
    let half = blocks[block].len() / 2;
    let upper = blocks[block].split_off(half)?;
    blocks.insert(block + 1, upper)?;
    Ok(())
}
