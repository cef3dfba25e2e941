// Lists of pairs in the order of their keys.
ghost use Rattle.std.specs.Prelude.{◌≡◌, ◌↔◌, IsTrue, IfOk, IfErr, OnOk, OnErr, T};
ghost use Rattle.std.specs.FinMap as map;
ghost use Rattle.std.specs.FinMap.Entries.{where_key};
ghost use Rattle.std.specs.Ordering.{is_lt};
ghost use Rattle.canvas_doc.specs.Sorted.{is_other, IsPairAt, IsGapAt};

use std::alloc::{AllocError, Allocator};
use std::cmp::Ordering;

/// Checks whether the keys rise strictly.
pub fn is_sorted<K: Ord, X>(pairs: &[(K, X)]) -> bool
    ensures { IsTrue result ↔ T (map.is_sorted K.cmp pairs.now) }
{
    pairs.is_sorted_by(
        |pair: &(K, X), next: &(K, X)| -> bool
            ensures { result ≡ is_lt (K.cmp pair.now.0 next.now.0) }
        { pair.0.cmp(&next.0).is_lt() },
    )
}

/// The index of the key's pair, or the one where it would go.
pub fn index_of<K: Ord, X>(pairs: &[(K, X)], key: &K) -> Result<usize, usize>
    requires { T (map.is_sorted K.cmp pairs.now) }
    ensures found { IfOk result (λ i. IsPairAt K.cmp pairs.now key.now i) }
    ensures absent { IfErr result (λ i. IsGapAt K.cmp pairs.now key.now i) }
{
    pairs.binary_search_by(
        |pair: &(K, X)| -> Ordering
            ensures { result ≡ K.cmp pair.now.0 key.entry.now }
        { pair.0.cmp(key) },
    )
}

/// Gives the key this value, in its pair or in a new one. If memory runs out, nothing has changed.
pub fn put<K: Ord + Drop, X: Drop, A: Allocator>(
    pairs: &mut Vec<(K, X), A>,
    key: K,
    value: X,
) -> Result<(), AllocError>
    requires { T (map.is_sorted K.cmp pairs.old.items) }
    ensures ok { OnOk result (pairs.new.items ≡ map.put K.cmp key value pairs.old.items) }
    ensures err { OnErr result (pairs.new.items ≡ pairs.old.items) }
{
    match index_of(pairs, &key) {
        Ok(at) => pairs[at].1 = value,
        Err(at) => {
            make_room(pairs)?;
            pairs.insert(at, (key, value))?
        }
    }
    Ok(())
}

// Makes room for one item more. Most of these lists are short, so the first has room for one, and then for twice as many.
fn make_room<T, A: Allocator>(items: &mut Vec<T, A>) -> Result<(), AllocError>
    ensures { items.new.items ≡ items.old.items }
{
    if items.len() == items.capacity() {
        items.reserve_exact(items.len().max(1))?;
    }
    Ok(())
}

/// Removes the pair of the key, if it has one.
pub fn take_out<K: Ord + Drop, X: Drop, A: Allocator>(pairs: &mut Vec<(K, X), A>, key: &K)
    requires { T (map.is_sorted K.cmp pairs.old.items) }
    ensures { pairs.new.items ≡ where_key K.cmp (is_other K.cmp key.now) pairs.old.items }
{
    if let Ok(at) = index_of(pairs, key) {
        pairs.remove(at);
    }
}
