// What is asked of an etcd's gateway.
ghost use Rattle.std.specs.Prelude.{◌≡◌, ◌++◌, ◌∷◌, [], IfOk, OnOk, codes, map, string_bytes};
ghost use Rattle.std.specs.List.{fold};
ghost use Rattle.serde_json.specs.Data.{array, item, member, no_items, no_members, object, put};
ghost use Rattle.serde_json.specs.View.{members_view, view};
ghost use Rattle.etcd_gateway.specs.Posts.{SpellsPost};
ghost use Rattle.etcd_gateway.specs.Trees.{absent_tree, base64_text, change_items, change_tree, commit_tree, compare_tree, equal_tree, grant_tree, lease_tree, leaf_tree, put_tree, range_tree, read_tree, remove_tree};

use crate::host::Host;
use crate::keys::Keys;
use crate::posts::{GatewayCall, post_tree};
use base64::engine::general_purpose::STANDARD;
use serde_json::{Map, Value as Json, put};
use std::alloc::{AllocError, Global};

/// A change of keys.
#[derive(Clone, Copy, Debug)]
pub enum KeyChange<'a> {
    /// A key gets a value.
    Put {
        /// The key.
        key: &'a [u8],
        /// Its value from now on.
        value: &'a [u8],
        /// The lease with which the key goes, 0 for none.
        lease: u64,
    },
    /// Keys go.
    Remove(&'a Keys),
}

/// What a key must hold, for changes to be made.
#[derive(Clone, Copy, Debug)]
pub enum Expected<'a> {
    /// Nothing: it isn't there.
    Nothing,
    /// This value.
    Value(&'a [u8]),
}

/// A request for the keys that are there, in their order, with their values or without. If `limit` isn't 0, for that many of them at
/// most.
///
/// Errors: out of memory.
pub fn ask_range(
    alloc: Global,
    host: &Host,
    keys: &Keys,
    limit: u64,
    keys_only: bool,
    revision: u64,
) -> Result<Vec<u8>, AllocError>
    ensures { IfOk result (λ bytes. SpellsPost bytes.items (string_bytes host.now.text) GatewayCall.Range (range_tree keys.now.from.items keys.now.to.items limit keys_only revision)) }
{
    let tree = range_tree(alloc, keys, limit, keys_only, revision)?;
    post_tree(alloc, host, GatewayCall::Range, tree)
}

/// A request for changes that are made together, where `key` holds what is expected; where it doesn't, for `key` with its value in their
/// place. No two of the changes may be of one key.
///
/// Errors: out of memory.
pub fn ask_commit(
    alloc: Global,
    host: &Host,
    key: &[u8],
    expected: Expected<'_>,
    changes: &[KeyChange<'_>],
) -> Result<Vec<u8>, AllocError>
    ensures { IfOk result (λ bytes. SpellsPost bytes.items (string_bytes host.now.text) GatewayCall.Commit (commit_tree key.now expected.entry changes.now)) }
{
    let tree = commit_tree(alloc, key, expected, changes)?;
    post_tree(alloc, host, GatewayCall::Commit, tree)
}

/// A request for a lease that ends after so many seconds, unless it is kept alive.
///
/// Errors: out of memory.
pub fn ask_grant(alloc: Global, host: &Host, seconds: u64) -> Result<Vec<u8>, AllocError>
    ensures { IfOk result (λ bytes. SpellsPost bytes.items (string_bytes host.now.text) GatewayCall.Grant (grant_tree seconds)) }
{
    let tree = grant_tree(alloc, seconds)?;
    post_tree(alloc, host, GatewayCall::Grant, tree)
}

/// A request that a lease ends as many seconds from now on as it was granted for.
///
/// Errors: out of memory.
pub fn ask_keep_alive(alloc: Global, host: &Host, lease: u64) -> Result<Vec<u8>, AllocError>
    ensures { IfOk result (λ bytes. SpellsPost bytes.items (string_bytes host.now.text) GatewayCall.KeepAlive (lease_tree lease)) }
{
    let tree = lease_tree(alloc, lease)?;
    post_tree(alloc, host, GatewayCall::KeepAlive, tree)
}

/// A request that a lease ends now, and its keys with it.
///
/// Errors: out of memory.
pub fn ask_revoke(alloc: Global, host: &Host, lease: u64) -> Result<Vec<u8>, AllocError>
    ensures { IfOk result (λ bytes. SpellsPost bytes.items (string_bytes host.now.text) GatewayCall.Revoke (lease_tree lease)) }
{
    let tree = lease_tree(alloc, lease)?;
    post_tree(alloc, host, GatewayCall::Revoke, tree)
}

// What stands under a name in a tree.
#[derive(Clone, Copy)]
enum Leaf<'a> {
    // Bytes, in base64.
    Bytes(&'a [u8]),
    // A text.
    Text(&'a str),
    // A whole number.
    Whole(u64),
    // Whether something is so.
    Flag(bool),
}

// The tree of a request for keys.
fn range_tree(
    alloc: Global,
    keys: &Keys,
    limit: u64,
    keys_only: bool,
    revision: u64,
) -> Result<Json, AllocError>
    ensures { IfOk result (λ j. view j ≡ range_tree keys.now.from.items keys.now.to.items limit keys_only revision) }
{
    let members = [
        ("key", Leaf::Bytes(&keys.from)),
        ("keys_only", Leaf::Flag(keys_only)),
        ("limit", Leaf::Whole(limit)),
        ("range_end", Leaf::Bytes(&keys.to)),
        ("revision", Leaf::Whole(revision)),
    ];
    object_of(alloc, &members)
}

// The tree of a request for a lease.
fn grant_tree(alloc: Global, seconds: u64) -> Result<Json, AllocError>
    ensures { IfOk result (λ j. view j ≡ grant_tree seconds) }
{
    object_of(alloc, &[("TTL", Leaf::Whole(seconds))])
}

// The tree that names a lease.
fn lease_tree(alloc: Global, lease: u64) -> Result<Json, AllocError>
    ensures { IfOk result (λ j. view j ≡ lease_tree lease) }
{
    object_of(alloc, &[("ID", Leaf::Whole(lease))])
}

// The tree of a request for changes.
fn commit_tree(
    alloc: Global,
    key: &[u8],
    expected: Expected<'_>,
    changes: &[KeyChange<'_>],
) -> Result<Json, AllocError>
    ensures { IfOk result (λ j. view j ≡ commit_tree key.now expected.entry changes.now) }
{
    let mut members = Map::new(alloc);
    put_compare(alloc, &mut members, key, expected)?;
    put_failure(alloc, &mut members, key)?;
    put_changes(alloc, &mut members, changes)?;
    Ok(Json::Object(members))
}

// Puts an array of one comparison among the members.
fn put_compare(
    alloc: Global,
    members: &mut Map<String, Json>,
    key: &[u8],
    expected: Expected<'_>,
) -> Result<(), AllocError>
    ensures { OnOk result (members_view members.new.entries ≡ put (codes "compare") (array (item (compare_tree key.now expected.entry) no_items)) (members_view members.old.entries)) }
{
    let compare = compare_tree(alloc, key, expected)?;
    let compares = Json::from(vec![in alloc; compare]?);
    put(members, alloc, "compare", compares)
}

// Puts an array of what is asked in place of the changes among the members.
fn put_failure(alloc: Global, members: &mut Map<String, Json>, key: &[u8]) -> Result<(), AllocError>
    ensures { OnOk result (members_view members.new.entries ≡ put (codes "failure") (array (item (read_tree key.now) no_items)) (members_view members.old.entries)) }
{
    let read = read_tree(alloc, key)?;
    let reads = Json::from(vec![in alloc; read]?);
    put(members, alloc, "failure", reads)
}

// Puts the changes among the members.
fn put_changes(
    alloc: Global,
    members: &mut Map<String, Json>,
    changes: &[KeyChange<'_>],
) -> Result<(), AllocError>
    ensures { OnOk result (members_view members.new.entries ≡ put (codes "success") (array (change_items changes.now)) (members_view members.old.entries)) }
{
    let changes = changes_tree(alloc, changes)?;
    put(members, alloc, "success", changes)
}

// The tree of a comparison.
fn compare_tree(alloc: Global, key: &[u8], expected: Expected<'_>) -> Result<Json, AllocError>
    ensures { IfOk result (λ j. view j ≡ compare_tree key.now expected.entry) }
{
    match expected {
        Expected::Nothing => absent_tree(alloc, key),
        Expected::Value(value) => equal_tree(alloc, key, value),
    }
}

// The tree of the comparison that a key isn't there.
fn absent_tree(alloc: Global, key: &[u8]) -> Result<Json, AllocError>
    ensures { IfOk result (λ j. view j ≡ absent_tree key.now) }
{
    let members = [
        ("key", Leaf::Bytes(key)),
        ("mod_revision", Leaf::Whole(0)),
        ("result", Leaf::Text("EQUAL")),
        ("target", Leaf::Text("MOD")),
    ];
    object_of(alloc, &members)
}

// The tree of the comparison that a key has this value.
fn equal_tree<'a>(alloc: Global, key: &'a [u8], value: &'a [u8]) -> Result<Json, AllocError>
    ensures { IfOk result (λ j. view j ≡ equal_tree key.now value.now) }
{
    let members = [
        ("key", Leaf::Bytes(key)),
        ("result", Leaf::Text("EQUAL")),
        ("target", Leaf::Text("VALUE")),
        ("value", Leaf::Bytes(value)),
    ];
    object_of(alloc, &members)
}

// The tree of a key that is read.
fn read_tree(alloc: Global, key: &[u8]) -> Result<Json, AllocError>
    ensures { IfOk result (λ j. view j ≡ read_tree key.now) }
{
    object_under(alloc, "request_range", &[("key", Leaf::Bytes(key))])
}

// The tree of changes.
fn changes_tree(alloc: Global, changes: &[KeyChange<'_>]) -> Result<Json, AllocError>
    ensures { IfOk result (λ j. view j ≡ array (change_items changes.now)) }
{
    let mut items = Vec::with_capacity(alloc, changes.len())?;
    for change in changes {
        push_change(alloc, &mut items, change)?;
    }
    Ok(Json::from(items))
}

// Puts the tree of a change behind others.
fn push_change(
    alloc: Global,
    items: &mut Vec<Json>,
    change: &KeyChange<'_>,
) -> Result<(), AllocError>
    ensures { OnOk result (map view items.new.items ≡ map view items.old.items ++ change_tree change.now ∷ []) }
{
    let tree = change_tree(alloc, change)?;
    Ok(items.push(tree)?)
}

// The tree of a change.
fn change_tree(alloc: Global, change: &KeyChange<'_>) -> Result<Json, AllocError>
    ensures { IfOk result (λ j. view j ≡ change_tree change.now) }
{
    match *change {
        KeyChange::Put { key, value, lease } => put_tree(alloc, key, value, lease),
        KeyChange::Remove(keys) => remove_tree(alloc, keys),
    }
}

// The tree of a key that gets a value.
fn put_tree<'a>(
    alloc: Global,
    key: &'a [u8],
    value: &'a [u8],
    lease: u64,
) -> Result<Json, AllocError>
    ensures { IfOk result (λ j. view j ≡ put_tree key.now value.now lease) }
{
    let members = [
        ("key", Leaf::Bytes(key)),
        ("lease", Leaf::Whole(lease)),
        ("value", Leaf::Bytes(value)),
    ];
    object_under(alloc, "request_put", &members)
}

// The tree of keys that go.
fn remove_tree(alloc: Global, keys: &Keys) -> Result<Json, AllocError>
    ensures { IfOk result (λ j. view j ≡ remove_tree keys.now.from.items keys.now.to.items) }
{
    let members = [
        ("key", Leaf::Bytes(&keys.from)),
        ("range_end", Leaf::Bytes(&keys.to)),
    ];
    object_under(alloc, "request_delete_range", &members)
}

// An object with an object of these members, alone under this name.
fn object_under(alloc: Global, name: &str, members: &[(&str, Leaf<'_>)]) -> Result<Json, AllocError>
    ensures { IfOk result (λ j. view j ≡ object (member name.now (object (fold (λ ms m. put m.0.now (leaf_tree m.1) ms) no_members members.now)) no_members)) }
{
    let mut above = Map::new(alloc);
    put_object(alloc, &mut above, name, members)?;
    Ok(Json::Object(above))
}

// Puts an object of these members under this name.
fn put_object(
    alloc: Global,
    above: &mut Map<String, Json>,
    name: &str,
    members: &[(&str, Leaf<'_>)],
) -> Result<(), AllocError>
    ensures { OnOk result (members_view above.new.entries ≡ put name.now (object (fold (λ ms m. put m.0.now (leaf_tree m.1) ms) no_members members.now)) (members_view above.old.entries)) }
{
    let object = object_of(alloc, members)?;
    put(above, alloc, name, object)
}

// An object of these members.
fn object_of(alloc: Global, members: &[(&str, Leaf<'_>)]) -> Result<Json, AllocError>
    ensures { IfOk result (λ j. view j ≡ object (fold (λ ms m. put m.0.now (leaf_tree m.1) ms) no_members members.now)) }
{
    let mut map = Map::new(alloc);
    for (name, leaf) in members {
        put_leaf(alloc, &mut map, name, leaf)?;
    }
    Ok(Json::Object(map))
}

// Puts a leaf under this name.
fn put_leaf(
    alloc: Global,
    members: &mut Map<String, Json>,
    name: &str,
    leaf: &Leaf<'_>,
) -> Result<(), AllocError>
    ensures { OnOk result (members_view members.new.entries ≡ put name.now (leaf_tree leaf.now) (members_view members.old.entries)) }
{
    let tree = leaf_tree(alloc, leaf)?;
    put(members, alloc, name, tree)
}

// The tree of a leaf.
fn leaf_tree(alloc: Global, leaf: &Leaf<'_>) -> Result<Json, AllocError>
    ensures { IfOk result (λ j. view j ≡ leaf_tree leaf.now) }
{
    match *leaf {
        Leaf::Bytes(bytes) => base64_tree(alloc, bytes),
        Leaf::Text(text) => Json::try_from_str(alloc, text),
        Leaf::Whole(number) => Ok(Json::from(number)),
        Leaf::Flag(flag) => Ok(Json::from(flag)),
    }
}

// The tree of bytes, in base64.
fn base64_tree(alloc: Global, bytes: &[u8]) -> Result<Json, AllocError>
    ensures { IfOk result (λ j. view j ≡ base64_text bytes.now) }
{
    let text = STANDARD.encode(alloc, bytes)?;
    Ok(Json::from(text))
}
