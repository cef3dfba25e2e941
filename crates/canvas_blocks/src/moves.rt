// Items that move within a list of blocks.
ghost use Rattle.std.specs.Prelude.{◌≡◌, ◌+◌, ◌<◌, ◌≤◌, ◌↔◌, IfSome, IfNone, IsTrue, OnOk, OnErr, length, slice_index_or, slice_set};
ghost use Rattle.std.specs.Fn.{FnReturnsAt};
ghost use Rattle.std.specs.List.{remove};
ghost use Rattle.canvas_blocks.specs.Blocks.{flat, index_at, index_of, moved, gap_below, gap_from, sizes, IsBefore, IsEdge, IsIn, IsPlace, NoneEmpty};

use crate::blocks::{push_to, replace_in, room_for, take};
use crate::find::{find, first_of};
use std::alloc::{AllocError, Allocator};

/// The block and the offset of the item at an edge, or none at the end; a full block there is split in two, if there is memory.
pub fn room_at<T: Drop, A: Allocator + Copy, P: Fn(&T) -> bool>(
    blocks: &mut Vec<Vec<T, A>, A>,
    before: &P,
) -> Option<(usize, usize)>
    requires callable { P.IsAlwaysCallable before.now }
    requires none_empty { NoneEmpty blocks.old.items }
    ensures place { IsPlace blocks.new.items result }
    ensures edge { IsEdge (FnReturnsAt P.Fn before.now) (flat blocks.old.items) (index_at blocks.new.items result) }
    ensures items { flat blocks.new.items ≡ flat blocks.old.items }
    ensures none_empty { NoneEmpty blocks.new.items }
{
    match room_for(blocks, before) {
        Ok(at) => at,
        Err(_) => find(blocks, before),
    }
}

/// Takes the item at `from` out, and puts this one in before the one at `to`, or at the end. If memory runs out, the items
/// between move by one, one after another.
pub fn move_in<T: Copy, A: Allocator + Copy>(
    blocks: &mut Vec<Vec<T, A>, A>,
    from: (usize, usize),
    to: Option<(usize, usize)>,
    item: T,
)
    requires from { IsIn blocks.old.items from.0 from.1 }
    requires to { IsPlace blocks.old.items to }
    requires none_empty { NoneEmpty blocks.old.items }
    ensures items { flat blocks.new.items ≡ moved (flat blocks.old.items) (index_of blocks.old.items from.0 from.1) (index_at blocks.old.items to) item }
    ensures none_empty { NoneEmpty blocks.new.items }
{
    let done = match to {
        Some(to) => move_before(blocks, from, to, item),
        None => move_last(blocks, from, item),
    };
    if done.is_err() {
        shift(blocks, from, to, item);
    }
}

// Takes the item at `from` out and puts this one in before the one at `to`. If memory runs out, the items stay.
fn move_before<T: Copy, A: Allocator + Copy>(
    blocks: &mut Vec<Vec<T, A>, A>,
    from: (usize, usize),
    to: (usize, usize),
    item: T,
) -> Result<(), AllocError>
    requires from { IsIn blocks.old.items from.0 from.1 }
    requires to { IsIn blocks.old.items to.0 to.1 }
    requires none_empty { NoneEmpty blocks.old.items }
    ensures ok { OnOk result (flat blocks.new.items ≡ moved (flat blocks.old.items) (index_of blocks.old.items from.0 from.1) (index_of blocks.old.items to.0 to.1) item) }
    ensures err { OnErr result (flat blocks.new.items ≡ flat blocks.old.items) }
    ensures sizes { OnErr result (sizes blocks.new.items ≡ sizes blocks.old.items) }
    ensures none_empty { NoneEmpty blocks.new.items }
{
    blocks[to.0].insert(to.1, item)?;
    let mut offset = from.1;
    if to.0 == from.0 && to.1 <= from.1 {
        offset += 1;
    }
    let _ = take(blocks, from.0, offset);
    Ok(())
}

// Takes the item at `from` out and puts this one in at the end. If memory runs out, the items stay.
fn move_last<T: Copy, A: Allocator + Copy>(
    blocks: &mut Vec<Vec<T, A>, A>,
    from: (usize, usize),
    item: T,
) -> Result<(), AllocError>
    requires from { IsIn blocks.old.items from.0 from.1 }
    requires none_empty { NoneEmpty blocks.old.items }
    ensures ok { OnOk result (flat blocks.new.items ≡ moved (flat blocks.old.items) (index_of blocks.old.items from.0 from.1) (length (flat blocks.old.items)) item) }
    ensures err { OnErr result (flat blocks.new.items ≡ flat blocks.old.items) }
    ensures sizes { OnErr result (sizes blocks.new.items ≡ sizes blocks.old.items) }
    ensures none_empty { NoneEmpty blocks.new.items }
{
    push_to(blocks, item)?;
    let _ = take(blocks, from.0, from.1);
    Ok(())
}

// Moves as `move_in` does, without memory.
fn shift<T: Copy, A: Allocator + Copy>(
    blocks: &mut Vec<Vec<T, A>, A>,
    from: (usize, usize),
    to: Option<(usize, usize)>,
    item: T,
)
    requires from { IsIn blocks.old.items from.0 from.1 }
    requires to { IsPlace blocks.old.items to }
    requires none_empty { NoneEmpty blocks.old.items }
    ensures items { flat blocks.new.items ≡ moved (flat blocks.old.items) (index_of blocks.old.items from.0 from.1) (index_at blocks.old.items to) item }
    ensures none_empty { NoneEmpty blocks.new.items }
{
    let at = gap_up(blocks, from, to);
    let at = gap_down(blocks, at, to);
    let _ = replace_in(blocks, at.0, at.1, item);
}

// Puts each item after `from` and before `to` in the place of the one before it, and tells the last place then.
fn gap_up<T: Copy, A: Allocator>(
    blocks: &mut Vec<Vec<T, A>, A>,
    from: (usize, usize),
    to: Option<(usize, usize)>,
) -> (usize, usize)
    requires from { IsIn blocks.old.items from.0 from.1 }
    requires to { IsPlace blocks.old.items to }
    requires none_empty { NoneEmpty blocks.old.items }
    ensures place { IsIn blocks.old.items result.0 result.1 }
    ensures index { index_of blocks.old.items result.0 result.1 ≡ gap_below (index_of blocks.old.items from.0 from.1) (index_at blocks.old.items to) }
    ensures items { remove (flat blocks.new.items) (index_of blocks.old.items result.0 result.1) ≡ remove (flat blocks.old.items) (index_of blocks.old.items from.0 from.1) }
    ensures sizes { sizes blocks.new.items ≡ sizes blocks.old.items }
    ensures none_empty { NoneEmpty blocks.new.items }
{
    let mut at = from;
    while let Some(next) = next_below(blocks, at, to) {
        copy(blocks, next, at);
        at = next;
    }
    at
}

// Puts each item before `from`, down to the one at `to`, in the place of the one after it, and tells the first place then.
fn gap_down<T: Copy, A: Allocator>(
    blocks: &mut Vec<Vec<T, A>, A>,
    from: (usize, usize),
    to: Option<(usize, usize)>,
) -> (usize, usize)
    requires from { IsIn blocks.old.items from.0 from.1 }
    requires to { IsPlace blocks.old.items to }
    requires none_empty { NoneEmpty blocks.old.items }
    ensures place { IsIn blocks.old.items result.0 result.1 }
    ensures index { index_of blocks.old.items result.0 result.1 ≡ gap_from (index_of blocks.old.items from.0 from.1) (index_at blocks.old.items to) }
    ensures items { remove (flat blocks.new.items) (index_of blocks.old.items result.0 result.1) ≡ remove (flat blocks.old.items) (index_of blocks.old.items from.0 from.1) }
    ensures sizes { sizes blocks.new.items ≡ sizes blocks.old.items }
    ensures none_empty { NoneEmpty blocks.new.items }
{
    let mut at = from;
    while let Some(last) = last_from(blocks, at, to) {
        copy(blocks, last, at);
        at = last;
    }
    at
}

// Puts the item at `from` in place of the one at `to`.
fn copy<T: Copy, A: Allocator>(
    blocks: &mut Vec<Vec<T, A>, A>,
    from: (usize, usize),
    to: (usize, usize),
)
    requires from { IsIn blocks.old.items from.0 from.1 }
    requires to { IsIn blocks.old.items to.0 to.1 }
    requires none_empty { NoneEmpty blocks.old.items }
    ensures items { (d : _) → flat blocks.new.items ≡ slice_set (flat blocks.old.items) (index_of blocks.old.items to.0 to.1) (slice_index_or (flat blocks.old.items) (index_of blocks.old.items from.0 from.1) d) }
    ensures sizes { sizes blocks.new.items ≡ sizes blocks.old.items }
    ensures none_empty { NoneEmpty blocks.new.items }
{
    let item = blocks[from.0][from.1];
    let _ = replace_in(blocks, to.0, to.1, item);
}

// The place after this one, if it is before `to`.
fn next_below<T, A: Allocator>(
    blocks: &[Vec<T, A>],
    at: (usize, usize),
    to: Option<(usize, usize)>,
) -> Option<(usize, usize)>
    requires at { IsIn blocks.now at.0 at.1 }
    requires to { IsPlace blocks.now to }
    requires none_empty { NoneEmpty blocks.now }
    ensures place { IfSome result (λ next. IsIn blocks.now next.0 next.1) }
    ensures next { IfSome result (λ next. index_of blocks.now next.0 next.1 ≡ index_of blocks.now at.0 at.1 + 1) }
    ensures below { IfSome result (λ next. index_of blocks.now next.0 next.1 < index_at blocks.now to) }
    ensures none { IfNone result (index_at blocks.now to ≤ index_of blocks.now at.0 at.1 + 1) }
{
    let next = next_place(blocks, at)?;
    if is_before(next, to) {
        Some(next)
    } else {
        None
    }
}

// The place after this one, or none at the end.
fn next_place<T, A: Allocator>(blocks: &[Vec<T, A>], at: (usize, usize)) -> Option<(usize, usize)>
    requires at { IsIn blocks.now at.0 at.1 }
    requires none_empty { NoneEmpty blocks.now }
    ensures place { IsPlace blocks.now result }
    ensures index { index_at blocks.now result ≡ index_of blocks.now at.0 at.1 + 1 }
{
    let left = blocks[at.0].len() - at.1;
    if left > 1 {
        Some((at.0, at.1 + 1))
    } else {
        first_of(blocks, at.0 + 1)
    }
}

// The place before this one, unless it is before `to`.
fn last_from<T, A: Allocator>(
    blocks: &[Vec<T, A>],
    at: (usize, usize),
    to: Option<(usize, usize)>,
) -> Option<(usize, usize)>
    requires at { IsIn blocks.now at.0 at.1 }
    requires to { IsPlace blocks.now to }
    requires none_empty { NoneEmpty blocks.now }
    ensures place { IfSome result (λ last. IsIn blocks.now last.0 last.1) }
    ensures last { IfSome result (λ last. index_of blocks.now last.0 last.1 + 1 ≡ index_of blocks.now at.0 at.1) }
    ensures from { IfSome result (λ last. index_at blocks.now to ≤ index_of blocks.now last.0 last.1) }
    ensures none { IfNone result (index_of blocks.now at.0 at.1 ≤ index_at blocks.now to) }
{
    if !is_before(to?, Some(at)) {
        return None;
    }
    if at.1 > 0 {
        return Some((at.0, at.1 - 1));
    }
    let block = at.0 - 1;
    Some((block, blocks[block].len() - 1))
}

// Checks whether a place is before another, or before the end.
fn is_before(at: (usize, usize), to: Option<(usize, usize)>) -> bool
    ensures { IsTrue result ↔ IsBefore at to }
{
    match to {
        Some(to) => at.0 < to.0 || (at.0 == to.0 && at.1 < to.1),
        None => true,
    }
}
