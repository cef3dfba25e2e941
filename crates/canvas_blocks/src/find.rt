// Where the items of a list of blocks stand: an item's block, and its offset there.
ghost use Rattle.std.specs.Prelude.{◌≡◌, ◌<◌, ◌≤◌, ◌-◌, true, false, length, slice_index_or, take};
ghost use Rattle.std.specs.Fn.{FnReturnsAt};
ghost use Rattle.canvas_blocks.specs.Blocks.{flat, index_at, IsEdge, IsPlace, NoneEmpty};

use std::alloc::Allocator;

// What the test answers at an item.
fn passes<T, P: Fn(&T) -> bool>(test: &P, item: &T) -> bool
    requires { P.IsAlwaysCallable test.now }
    ensures { FnReturnsAt P.Fn test.now item.now result }
{
    test(item)
}

/// An edge of the items.
pub fn edge<T, P: Fn(&T) -> bool>(items: &[T], before: &P) -> usize
    requires { P.IsAlwaysCallable before.now }
    ensures { IsEdge (FnReturnsAt P.Fn before.now) items.now result }
{
    let mut low = 0;
    let mut high = items.len();
    while low < high {
        let mid = low + (high - low) / 2;
        if passes(before, &items[mid]) {
            low = mid + 1;
        } else {
            high = mid;
        }
    }
    low
}

/// An edge of the blocks' first items.
pub fn block_edge<T, A: Allocator, P: Fn(&T) -> bool>(blocks: &[Vec<T, A>], before: &P) -> usize
    requires callable { P.IsAlwaysCallable before.now }
    requires none_empty { NoneEmpty blocks.now }
    ensures bound { result ≤ length blocks.now }
    ensures before { (b : _) (d : _) → 0 < result → FnReturnsAt P.Fn before.now (slice_index_or (slice_index_or blocks.now (result - 1) b).items 0 d) true }
    ensures after { (b : _) (d : _) → result < length blocks.now → FnReturnsAt P.Fn before.now (slice_index_or (slice_index_or blocks.now result b).items 0 d) false }
{
    let mut low = 0;
    let mut high = blocks.len();
    while low < high {
        let mid = low + (high - low) / 2;
        if passes(before, &blocks[mid][0]) {
            low = mid + 1;
        } else {
            high = mid;
        }
    }
    low
}

/// The block and the offset of a block's first item, or none where the blocks end.
pub fn first_of<T, A: Allocator>(blocks: &[Vec<T, A>], block: usize) -> Option<(usize, usize)>
    requires in_range { block ≤ length blocks.now }
    requires none_empty { NoneEmpty blocks.now }
    ensures place { IsPlace blocks.now result }
    ensures index { index_at blocks.now result ≡ length (flat (take block blocks.now)) }
{
    if block < blocks.len() {
        Some((block, 0))
    } else {
        None
    }
}

/// The block and the offset of the item at an edge, or none at the end.
pub fn find<T, A: Allocator, P: Fn(&T) -> bool>(
    blocks: &[Vec<T, A>],
    before: &P,
) -> Option<(usize, usize)>
    requires callable { P.IsAlwaysCallable before.now }
    requires none_empty { NoneEmpty blocks.now }
    ensures place { IsPlace blocks.now result }
    ensures edge { IsEdge (FnReturnsAt P.Fn before.now) (flat blocks.now) (index_at blocks.now result) }
{
    let end = block_edge(blocks, before);
    if end == 0 {
        return first_of(blocks, 0);
    }
    // The first item of this block passes.
    let block = end - 1;
    let offset = 1 + edge(&blocks[block][1..], before);
    if offset < blocks[block].len() {
        return Some((block, offset));
    }
    first_of(blocks, end)
}
