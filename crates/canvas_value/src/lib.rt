//! Values of properties, and names of properties.
//!
//! Contracts see a value as the plain one of `canvas_model`, which knows no allocator, and a name
//! as its bytes. So they can say that two values under different allocators are the same.
#![tactic(auto)]

ghost use Rattle.std.specs.Prelude.{◌≡◌, ◌≤◌, ◌↔◌, min, true, IsTrue, IsOk, IfOk, string_bytes};
ghost use Rattle.canvas_model.specs.Value.{colour, depth, list, max_depth, members_depth, number, text, truth, values_of};
ghost use Rattle.canvas_value.specs.Range.{fits, all_fit};
ghost use Rattle.canvas_value.specs.Seen.{seen};

mod names;
mod props;

pub use crate::names::{MAX_NAME_LEN, Name, NameError};
pub use crate::props::{copy_props, copy_value, every_prop, same_props, same_value};
use std::alloc::{AllocError, Allocator, Global};
use std::marker::Model;
use thiserror::Error;

/// The deepest nesting of lists that [`Value::check`] lets pass.
pub const MAX_DEPTH: u32 = 16;

/// The value of a property, nested to a finite depth. Its texts and lists stand under one allocator.
///
/// A contract sees it as the plain value, without the allocator. Its numbers are in range, at any
/// depth: they are what their variants hold.
#[cycle(value)]
#[derive(Debug, Drop)]
pub struct Value<A: Allocator = Global> {
    variant: ValueVariant<A>,
}

/// What stands at the top of a value.
#[cycle(value)]
#[derive(Debug, Drop)]
pub enum ValueVariant<A: Allocator = Global> {
    /// A whole number of 64 bits, signed.
    Number(i64),
    /// A truth value.
    Truth(bool),
    /// A colour, as one number from 0 to 4294967295.
    Colour(u32),
    /// A text.
    Text(String<A>),
    /// A list of values, which may be empty.
    List(Vec<Value<A>, A>),
}

impl<A: Allocator> Model for Value<A> {
    ghost use Rattle.canvas_model.specs.Value.{Value as PlainValue};
    ghost use Rattle.canvas_model.specs.Codes.{value_code};
    ghost use Rattle.canvas_value.specs.Sizes.{value_size};

    ghost Value = { PlainValue };

    ghost coded = { value_code };

    ghost use Rattle.canvas_value.specs.Seen.{seen};

    ghost view = { λ v. seen v.variant };

    ghost use Rattle.std.specs.Prelude.{◌≡◌, true};
    ghost use Rattle.canvas_value.specs.Range.{fits};

    ghost invariant = { λ v. fits (seen v.variant) ≡ true };

    ghost size = { value_size };

    ghost use Rattle.canvas_value.specs.Falls.{depth_le_size};

    ghost size_decreases = { λ a h. depth_le_size A.Allocator a.variant };
}

/// Why [`Value::check`] refuses a value: its lists nest more than 16 deep.
#[derive(Clone, Copy, Debug, PartialEq, Eq, Error)]
#[error("a value has lists more than 16 deep")]
pub struct TooDeep;

impl<A: Allocator> Value<A> {
    /// A whole number.
    pub fn number(n: i64) -> Value<A>
        ensures { result ≡ number n }
    {
        Value {
            variant: ValueVariant::Number(n),
        }
    }

    /// A truth value.
    pub fn truth(b: bool) -> Value<A>
        ensures { result ≡ truth b }
    {
        Value {
            variant: ValueVariant::Truth(b),
        }
    }

    /// A colour.
    pub fn colour(c: u32) -> Value<A>
        ensures { result ≡ colour c }
    {
        Value {
            variant: ValueVariant::Colour(c),
        }
    }

    /// A text.
    pub fn text(s: String<A>) -> Value<A>
        ensures { result ≡ text (string_bytes s) }
    {
        Value {
            variant: ValueVariant::Text(s),
        }
    }

    /// A list of values, also an empty one.
    pub fn list(items: Vec<Value<A>, A>) -> Value<A>
        ensures { result ≡ list (values_of items.items) }
    {
        every_number(&items);
        Value {
            variant: ValueVariant::List(items),
        }
    }

    /// What stands at the top, to be matched on.
    pub fn variant(&self) -> &ValueVariant<A>
        ensures value { seen result.now ≡ self.now }

        // Each number, at any depth, has 64 bits and a sign, and each colour 32 bits.
        ensures range { fits self.now ≡ true }
    {
        &self.variant
    }

    /// What stands at the top, by value.
    pub fn into_variant(self) -> ValueVariant<A>
        ensures value { seen result ≡ self }
        ensures range { fits self ≡ true }
    {
        let Value { variant } = self;
        variant
    }

    /// The same value under another allocator. The error is that memory ran out, and then
    /// nothing is left behind.
    pub fn copy_in<B: Allocator + Copy>(&self, alloc: B) -> Result<Value<B>, AllocError>
        ensures { IfOk result (λ v. v ≡ self.now) }
    {
        copy(alloc, self)
    }

    /// Checks whether two values are the same, whichever allocators hold them. It takes no memory.
    pub fn same<B: Allocator>(&self, other: &Value<B>) -> bool
        ensures { IsTrue result ↔ (self.now ≡ other.now) }
    {
        alike(self, other)
    }

    /// How deep lists nest: 0 for what is no list, and for a list one more than for its deepest
    /// member, so 1 for an empty list. It takes no memory.
    ///
    /// Nothing bounds how deep a value nests, so past `u32::MAX` the answer stays `u32::MAX`.
    #[cycle(depth)]
    pub fn depth(&self) -> u32
        ensures { result ≡ min (depth self.now) 4294967295 }
    {
        match &self.variant {
            ValueVariant::List(items) => deepest(items).saturating_add(1),
            _ => 0,
        }
    }

    /// Refuses a value whose lists nest more than 16 deep, and no other. It takes no memory.
    pub fn check(&self) -> Result<(), TooDeep>
        ensures { IsOk result ↔ (depth self.now ≤ max_depth) }
    {
        if self.depth() <= MAX_DEPTH {
            Ok(())
        } else {
            Err(TooDeep)
        }
    }
}

// The numbers of each value are in range. It does nothing when it runs: the proof of a list needs
// it.
fn every_number<A: Allocator>(items: &[Value<A>])
    ensures { all_fit (values_of items.now) ≡ true }
{
    for item in items {
        let _variant = item.variant();
    }
}

// The same value under another allocator.
#[cycle(copy)]
fn copy<A: Allocator, B: Allocator + Copy>(
    alloc: B,
    value: &Value<A>,
) -> Result<Value<B>, AllocError>
    ensures { IfOk result (λ copy. copy ≡ value.now) }
{
    match &value.variant {
        ValueVariant::Number(n) => Ok(Value::number(*n)),
        ValueVariant::Truth(b) => Ok(Value::truth(*b)),
        ValueVariant::Colour(c) => Ok(Value::colour(*c)),
        ValueVariant::Text(text) => Ok(Value::text(String::from_str(alloc, text.as_str())?)),
        ValueVariant::List(items) => Ok(Value::list(copy_items(alloc, items)?)),
    }
}

// The same values under another allocator.
#[cycle(copy)]
fn copy_items<A: Allocator, B: Allocator + Copy>(
    alloc: B,
    items: &[Value<A>],
) -> Result<Vec<Value<B>, B>, AllocError>
    ensures { IfOk result (λ copies. copies.items ≡ items.now) }
{
    let mut copies = Vec::with_capacity(alloc, items.len())?;
    for item in items {
        copies.push(copy(alloc, item)?)?;
    }
    Ok(copies)
}

// Checks whether the two values are the same.
#[cycle(alike)]
fn alike<A: Allocator, B: Allocator>(value: &Value<A>, other: &Value<B>) -> bool
    ensures { IsTrue result ↔ (value.now ≡ other.now) }
{
    match (&value.variant, &other.variant) {
        (ValueVariant::Number(m), ValueVariant::Number(n)) => *m == *n,
        (ValueVariant::Truth(b), ValueVariant::Truth(c)) => *b == *c,
        (ValueVariant::Colour(c), ValueVariant::Colour(d)) => *c == *d,
        (ValueVariant::Text(s), ValueVariant::Text(t)) => s.as_str() == t.as_str(),
        (ValueVariant::List(items), ValueVariant::List(others)) => alike_items(items, others),
        _ => false,
    }
}

// Checks whether the values are the same, in the same order.
#[cycle(alike)]
fn alike_items<A: Allocator, B: Allocator>(items: &[Value<A>], others: &[Value<B>]) -> bool
    ensures { IsTrue result ↔ (items.now ≡ others.now) }
{
    if items.len() != others.len() {
        return false;
    }
    for (at, item) in items.iter().enumerate() {
        if !alike(item, &others[at]) {
            return false;
        }
    }
    true
}

// The depth of the deepest item, 0 where there is none.
#[cycle(depth)]
fn deepest<A: Allocator>(items: &[Value<A>]) -> u32
    ensures { result ≡ min (members_depth (values_of items.now)) 4294967295 }
{
    let mut most = 0u32;
    for item in items {
        most = most.max(item.depth());
    }
    most
}
