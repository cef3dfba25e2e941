// What an etcd's gateway answers.
ghost use Rattle.std.specs.Prelude.{◌≡◌, IfErr, IfOk, Some, [], bytes_eq, codes, map, option_map};
ghost use Rattle.std.specs.Result.{result_ok};
ghost use Rattle.base64.specs.Engines.{standard};
ghost use Rattle.base64.specs.GeneralPurpose.{decode_of};
ghost use Rattle.serde_json.specs.View.{items_view, view};
ghost use Rattle.etcd_gateway.specs.Answers.{bytes_under, base64_bytes_in, committed_in, read_each_item, first_at, flag_at, granted_in, instead_in, is_of_rights, is_of_space, items_at, kept_in, lease_in, no_space, no_user, pair_in, range_in, refusal_in, refusal_by_code, revision_in, seen_committed, seen_pair, seen_range, text_at, whole_at, whole_number_in};
ghost use Rattle.etcd_gateway.specs.Faults.{IsAnswerError, IsJsonTextOf, IsNotJsonText, IsNothingRead, SpellsInJson};

use crate::error::GatewayError;
use base64::DecodeAllocError;
use base64::engine::general_purpose::STANDARD;
use canvas_decimals::whole_of;
use serde_json::Value as Json;
use std::alloc::Global;

/// Whether changes were made.
#[derive(Debug, Drop)]
pub struct Committed {
    /// Whether they were.
    pub done: bool,
    /// The keys that were read in their place, where they weren't.
    pub found: Vec<KeyValue>,
}

/// Why a call was refused.
#[derive(Clone, Copy, Debug, PartialEq, Eq)]
pub enum GatewayRefusal {
    /// A user and a password are wanted, or the permission is denied.
    Rights,
    /// The quota of space is used up.
    Space,
    /// Something else.
    Other,
}

/// A lease.
#[derive(Clone, Copy, Debug, PartialEq, Eq)]
pub struct Lease {
    /// Its number.
    pub number: u64,
    /// The seconds after which it ends, unless it is kept alive. 0 where it has ended.
    pub seconds: u64,
}

/// A key that was found.
#[derive(Debug, Drop)]
pub struct KeyValue {
    /// The key.
    pub key: Vec<u8>,
    /// Its value. Empty where only keys were asked for.
    pub value: Vec<u8>,
    /// The revision at which it was written last.
    pub revision: u64,
}

/// Keys that were found.
#[derive(Debug, Drop)]
pub struct Found {
    /// The keys, in their order.
    pub pairs: Vec<KeyValue>,
    /// Whether there are more than were asked for.
    pub more: bool,
    /// The revision of the store.
    pub revision: u64,
}

/// What this body of an answer says was found.
///
/// `NotJson` where it isn't JSON, `NotAnAnswer` where its tree is no answer to a request for keys. `Memory` can be answered in place of each
/// of these.
pub fn read_found(alloc: Global, body: &[u8]) -> Result<Found, GatewayError>
    ensures ok { IfOk result (λ found. SpellsInJson range_in body.now (seen_range found)) }
    ensures fault { IfErr result (IsAnswerError range_in body.now) }
{
    let json = parse(alloc, body)?;
    found_in(alloc, &json)
}

/// Checks whether the changes were made, as this body of an answer says, and which keys were read in their place where they weren't.
///
/// `NotJson` where it isn't JSON, `NotAnAnswer` where its tree is no answer to a request for changes. `Memory` can be answered in place of
/// each of these.
pub fn read_committed(alloc: Global, body: &[u8]) -> Result<Committed, GatewayError>
    ensures ok { IfOk result (λ committed. SpellsInJson committed_in body.now (seen_committed committed)) }
    ensures fault { IfErr result (IsAnswerError committed_in body.now) }
{
    let json = parse(alloc, body)?;
    committed_in(alloc, &json)
}

/// The lease that was granted, as this body of an answer says.
///
/// `NotJson` where it isn't JSON, `NotAnAnswer` where its tree is no answer to a request for a lease, or names no lease. `Memory` can be
/// answered in place of each of these.
pub fn read_granted(alloc: Global, body: &[u8]) -> Result<Lease, GatewayError>
    ensures ok { IfOk result (SpellsInJson granted_in body.now) }
    ensures fault { IfErr result (IsAnswerError granted_in body.now) }
{
    let json = parse(alloc, body)?;
    granted_in(&json).ok_or(GatewayError::NotAnAnswer)
}

/// The lease that was kept alive, as this body of an answer says. It has ended where its seconds are 0.
///
/// `NotJson` where it isn't JSON, `NotAnAnswer` where its tree is no answer to a request that a lease goes on. `Memory` can be answered in
/// place of each of these.
pub fn read_kept(alloc: Global, body: &[u8]) -> Result<Lease, GatewayError>
    ensures ok { IfOk result (SpellsInJson kept_in body.now) }
    ensures fault { IfErr result (IsAnswerError kept_in body.now) }
{
    let json = parse(alloc, body)?;
    kept_in(&json).ok_or(GatewayError::NotAnAnswer)
}

/// Why a call was refused, as this body of an answer says whose status isn't 200.
///
/// `NotJson` where it isn't JSON, `NotAnAnswer` where it has no number of gRPC's for the reason, or a message that is no text. `Memory` can be
/// answered in place of each of these.
pub fn read_refused(alloc: Global, body: &[u8]) -> Result<GatewayRefusal, GatewayError>
    ensures ok { IfOk result (SpellsInJson refusal_in body.now) }
    ensures fault { IfErr result (IsAnswerError refusal_in body.now) }
{
    let json = parse(alloc, body)?;
    refusal_in(&json).ok_or(GatewayError::NotAnAnswer)
}

// The tree of which the bytes are JSON.
fn parse(alloc: Global, bytes: &[u8]) -> Result<Json, GatewayError>
    ensures ok { IfOk result (λ j. IsJsonTextOf bytes.now (view j)) }
    ensures fault { IfErr result (IsNotJsonText bytes.now) }
{
    match Json::from_slice(alloc, bytes) {
        Ok(json) => Ok(json),
        Err(e) => if e.is_memory() {
            Err(GatewayError::Memory)
        } else {
            Err(GatewayError::NotJson)
        },
    }
}

// Whether changes were made, by a tree.
fn committed_in(alloc: Global, json: &Json) -> Result<Committed, GatewayError>
    ensures ok { IfOk result (λ committed. committed_in (view json.now) ≡ Some (seen_committed committed)) }
    ensures fault { IfErr result (IsNothingRead (committed_in (view json.now))) }
{
    match flag_at(json, "succeeded") {
        None => Err(GatewayError::NotAnAnswer),
        Some(true) => Ok(Committed {
            done: true,
            found: Vec::new(alloc),
        }),
        Some(false) => Ok(Committed {
            done: false,
            found: instead_in(alloc, json)?,
        }),
    }
}

// The keys that were read in place of changes, by a tree.
fn instead_in(alloc: Global, json: &Json) -> Result<Vec<KeyValue>, GatewayError>
    ensures ok { IfOk result (λ pairs. instead_in (view json.now) ≡ Some (map seen_pair pairs.items)) }
    ensures fault { IfErr result (IsNothingRead (instead_in (view json.now))) }
{
    let Some(answer) = first_at(json, "responses") else {
        return Err(GatewayError::NotAnAnswer);
    };
    let Some(range) = answer.get("response_range") else {
        return Err(GatewayError::NotAnAnswer);
    };
    let Some(items) = items_at(range, "kvs") else {
        return Err(GatewayError::NotAnAnswer);
    };
    pairs_in(alloc, items)
}

// The first member of the array under this name.
fn first_at<'a>(json: &'a Json, name: &str) -> Option<&'a Json>
    ensures { option_map (λ first. view first.now) result ≡ first_at name.now (view json.now) }
{
    items_at(json, name)?.first()
}

// A lease that was granted, by a tree.
fn granted_in(json: &Json) -> Option<Lease>
    ensures { result ≡ granted_in (view json.now) }
{
    let lease = lease_in(json)?;
    if lease.number == 0 {
        return None;
    }
    Some(lease)
}

// A lease, by a tree.
fn lease_in(json: &Json) -> Option<Lease>
    ensures { result ≡ lease_in (view json.now) }
{
    let number = whole_at(json, "ID")?;
    let seconds = whole_at(json, "TTL")?;
    Some(Lease { number, seconds })
}

// A lease that was kept alive, by a tree.
fn kept_in(json: &Json) -> Option<Lease>
    ensures { result ≡ kept_in (view json.now) }
{
    json.get("result").and_then(lease_in)
}

// Why a call was refused, by a tree.
fn refusal_in(json: &Json) -> Option<GatewayRefusal>
    ensures { result ≡ refusal_in (view json.now) }
{
    let code = json.get("code").and_then(whole_in)?;
    let message = text_at(json, "message")?;
    Some(refusal_of(code, message))
}

// The reason that has this number and this message.
fn refusal_of(code: u64, message: &str) -> GatewayRefusal
    ensures { result ≡ refusal_by_code code message.now }
{
    if is_of_rights(code, message) {
        GatewayRefusal::Rights
    } else if is_of_space(code, message) {
        GatewayRefusal::Space
    } else {
        GatewayRefusal::Other
    }
}

// Checks whether this number and this message want a user, or deny the permission.
fn is_of_rights(code: u64, message: &str) -> bool
    ensures { result ≡ is_of_rights code message.now }
{
    code == 7 || code == 16 || code == 3 && tells_no_user(message)
}

// Checks whether this number and this message tell that there is no space.
fn is_of_space(code: u64, message: &str) -> bool
    ensures { result ≡ is_of_space code message.now }
{
    code == 8 && tells_no_space(message)
}

// Checks whether a message tells that a user is wanted.
#[tactic(auto, unfolding(crate::specs::Answers::no_user))]
fn tells_no_user(message: &str) -> bool
    ensures { result ≡ bytes_eq message.now no_user }
{
    message == "etcdserver: user name is empty"
}

// Checks whether a message tells that there is no space.
#[tactic(auto, unfolding(crate::specs::Answers::no_space))]
fn tells_no_space(message: &str) -> bool
    ensures { result ≡ bytes_eq message.now no_space }
{
    message == "etcdserver: mvcc: database space exceeded"
}

// The text under this name.
fn text_at<'a>(json: &'a Json, name: &str) -> Option<&'a str>
    ensures { option_map (λ text. text.now) result ≡ text_at name.now (view json.now) }
{
    match json.get(name) {
        None => Some(""),
        Some(member) => member.as_str(),
    }
}

// The revision of the store, by a tree.
fn revision_in(json: &Json) -> Option<u64>
    ensures { result ≡ revision_in (view json.now) }
{
    let header = json.get("header")?;
    whole_at(header, "revision")
}

// What was found, by a tree.
fn found_in(alloc: Global, json: &Json) -> Result<Found, GatewayError>
    ensures ok { IfOk result (λ found. range_in (view json.now) ≡ Some (seen_range found)) }
    ensures fault { IfErr result (IsNothingRead (range_in (view json.now))) }
{
    let Some(items) = items_at(json, "kvs") else {
        return Err(GatewayError::NotAnAnswer);
    };
    let pairs = pairs_in(alloc, items)?;
    let Some(more) = flag_at(json, "more") else {
        return Err(GatewayError::NotAnAnswer);
    };
    let Some(revision) = revision_in(json) else {
        return Err(GatewayError::NotAnAnswer);
    };
    Ok(Found {
        pairs,
        more,
        revision,
    })
}

// Keys with their values, by the members of an array.
fn pairs_in(alloc: Global, items: &[Json]) -> Result<Vec<KeyValue>, GatewayError>
    ensures ok { IfOk result (λ pairs. read_each_item pair_in (items_view items.now) ≡ Some (map seen_pair pairs.items)) }
    ensures fault { IfErr result (IsNothingRead (read_each_item pair_in (items_view items.now))) }
{
    let mut pairs = Vec::with_capacity(alloc, items.len())?;
    for item in items {
        let pair = match pair_in(alloc, item) {
            Ok(pair) => pair,
            Err(e) => return Err(e),
        };
        pairs.push(pair)?;
    }
    Ok(pairs)
}

// A key with its value, by a tree.
fn pair_in(alloc: Global, json: &Json) -> Result<KeyValue, GatewayError>
    ensures ok { IfOk result (λ pair. pair_in (view json.now) ≡ Some (seen_pair pair)) }
    ensures fault { IfErr result (IsNothingRead (pair_in (view json.now))) }
{
    let key = match bytes_at(alloc, json, "key") {
        Ok(key) => key,
        Err(e) => return Err(e),
    };
    let value = match bytes_at(alloc, json, "value") {
        Ok(value) => value,
        Err(e) => return Err(e),
    };
    let Some(revision) = whole_at(json, "mod_revision") else {
        return Err(GatewayError::NotAnAnswer);
    };
    Ok(KeyValue {
        key,
        value,
        revision,
    })
}

// The members of the array under this name.
fn items_at<'a>(json: &'a Json, name: &str) -> Option<&'a [Json]>
    ensures { option_map (λ items. items_view items.now) result ≡ items_at name.now (view json.now) }
{
    match json.get(name) {
        None => Some(&[]),
        Some(Json::Array(items)) => Some(items.as_slice()),
        Some(_) => None,
    }
}

// Bytes under this name.
fn bytes_at(alloc: Global, json: &Json, name: &str) -> Result<Vec<u8>, GatewayError>
    ensures ok { IfOk result (λ bytes. bytes_under name.now (view json.now) ≡ Some bytes.items) }
    ensures fault { IfErr result (IsNothingRead (bytes_under name.now (view json.now))) }
{
    match json.get(name) {
        None => Ok(Vec::new(alloc)),
        Some(member) => bytes_in(alloc, member),
    }
}

// Bytes, by a tree.
fn bytes_in(alloc: Global, json: &Json) -> Result<Vec<u8>, GatewayError>
    ensures ok { IfOk result (λ bytes. base64_bytes_in (view json.now) ≡ Some bytes.items) }
    ensures fault { IfErr result (IsNothingRead (base64_bytes_in (view json.now))) }
{
    let Some(text) = json.as_str() else {
        return Err(GatewayError::NotAnAnswer);
    };
    match STANDARD.decode(alloc, text.as_bytes()) {
        Ok(bytes) => Ok(bytes),
        Err(DecodeAllocError::OutOfMemory) => Err(GatewayError::Memory),
        Err(DecodeAllocError::DecodeError(_)) => Err(GatewayError::NotAnAnswer),
    }
}

// Checks whether something is true under this name.
fn flag_at(json: &Json, name: &str) -> Option<bool>
    ensures { result ≡ flag_at name.now (view json.now) }
{
    match json.get(name) {
        None => Some(false),
        Some(member) => member.as_bool(),
    }
}

// A whole number under this name.
fn whole_at(json: &Json, name: &str) -> Option<u64>
    ensures { result ≡ whole_at name.now (view json.now) }
{
    match json.get(name) {
        None => Some(0),
        Some(member) => whole_in(member),
    }
}

// A whole number, by a tree.
fn whole_in(json: &Json) -> Option<u64>
    ensures { result ≡ whole_number_in (view json.now) }
{
    match json {
        Json::Number(number) => number.as_u64(),
        Json::String(text) => whole_of(text.as_bytes()),
        _ => None,
    }
}
