//! Properties: names with their values, in the order of a list.
ghost use Rattle.std.specs.Prelude.{◌≡◌, ◌↔◌, All, IsTrue, IfOk};
ghost use Rattle.canvas_value.specs.Props.{IsProp};

use crate::{Name, Value};
use std::alloc::{AllocError, Allocator};

/// The same properties under another allocator. The error is that memory ran out.
pub fn copy_props<A: Allocator, B: Allocator + Copy>(
    alloc: B,
    props: &[(Name<A>, Value<A>)],
) -> Result<Vec<(Name<B>, Value<B>), B>, AllocError>
    ensures { IfOk result (λ copies. copies.items ≡ props.now) }
{
    let mut copies = Vec::with_capacity(alloc, props.len())?;
    for prop in props {
        copies.push(copy_prop(alloc, prop)?)?;
    }
    Ok(copies)
}

// The same property under another allocator.
fn copy_prop<A: Allocator, B: Allocator + Copy>(
    alloc: B,
    prop: &(Name<A>, Value<A>),
) -> Result<(Name<B>, Value<B>), AllocError>
    ensures { IfOk result (λ copy. copy ≡ prop.now) }
{
    let name = prop.0.copy_in(alloc)?;
    let value = prop.1.copy_in(alloc)?;
    Ok((name, value))
}

/// Checks whether the properties are the same, in the same order. It takes no memory.
pub fn same_props<A: Allocator, B: Allocator>(
    props: &[(Name<A>, Value<A>)],
    others: &[(Name<B>, Value<B>)],
) -> bool
    ensures { IsTrue result ↔ (props.now ≡ others.now) }
{
    if props.len() != others.len() {
        return false;
    }
    for (at, prop) in props.iter().enumerate() {
        if !same_prop(prop, &others[at]) {
            return false;
        }
    }
    true
}

// Checks whether two properties are the same.
fn same_prop<A: Allocator, B: Allocator>(
    prop: &(Name<A>, Value<A>),
    other: &(Name<B>, Value<B>),
) -> bool
    ensures { IsTrue result ↔ (prop.now ≡ other.now) }
{
    prop.0.same(&other.0) && prop.1.same(&other.1)
}

/// The same value under another allocator, or none again. The error is that memory ran out.
pub fn copy_value<A: Allocator, B: Allocator + Copy>(
    alloc: B,
    value: &Option<Value<A>>,
) -> Result<Option<Value<B>>, AllocError>
    ensures { IfOk result (λ copy. copy ≡ value.now) }
{
    value.as_ref().map(|value| value.copy_in(alloc)).transpose()
}

/// Checks whether the two are the same value, or both none. It takes no memory.
pub fn same_value<A: Allocator, B: Allocator>(
    value: &Option<Value<A>>,
    other: &Option<Value<B>>,
) -> bool
    ensures { IsTrue result ↔ (value.now ≡ other.now) }
{
    match (value, other) {
        (Some(value), Some(other)) => value.same(other),
        (None, None) => true,
        _ => false,
    }
}

/// The names of the properties are names, and the numbers of their values are in range. It does
/// nothing when it runs: call it where a proof needs that of a whole list.
pub fn every_prop<A: Allocator>(props: &[(Name<A>, Value<A>)])
    ensures { All IsProp props.now }
{
    for prop in props {
        let _name = prop.0.bytes();
        let _variant = prop.1.variant();
    }
}
