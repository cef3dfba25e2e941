//! Bytes that are the JSON of values, and others.
use canvas_embed::{ValueError, read_value};
use std::alloc::{AllocError, Global};

/// A text of JSON.
#[derive(Clone, Copy)]
pub enum Json {
    /// This one.
    Text(&'static str),
    /// Lists, one in another, so deep.
    Lists(usize),
}

// Adds the text so many times.
fn repeat(all: &mut String, text: &str, times: usize) -> Result<(), AllocError> {
    for _ in 0..times {
        all.push_str(text)?;
    }
    Ok(())
}

// Adds lists, one in another, this deep.
fn add_lists(all: &mut String, deep: usize) -> Result<(), AllocError> {
    repeat(all, "[\"list\",", deep)?;
    all.push_str("1")?;
    repeat(all, "]", deep)
}

// Adds the text.
fn add(all: &mut String, json: Json) -> Result<(), AllocError> {
    match json {
        Json::Text(text) => all.push_str(text),
        Json::Lists(deep) => add_lists(all, deep),
    }
}

// Checks whether the text is no value for this reason, or is one where there is none.
fn is_read(alloc: Global, json: Json, wanted: Option<ValueError>) -> bool {
    let mut text = String::new(alloc);
    match add(&mut text, json) {
        Ok(()) => read_value(alloc, text.as_bytes()).err() == wanted,
        Err(_) => false,
    }
}

/// A text, and why it is no value, if it is none.
pub type Row = (Json, Option<ValueError>);

/// Texts that are values, and others.
pub const VALUES: &[Row] = &[
    (Json::Text("-7"), None),
    (Json::Text(" true"), None),
    (Json::Text("\"n\\u00e9e\""), None),
    (Json::Text("[\"rgba\",4294967295]"), None),
    (Json::Text("[\"list\",1,[\"list\"]]"), None),
    (Json::Text(""), Some(ValueError::NotJson)),
    (Json::Text("1 2"), Some(ValueError::NotJson)),
    (Json::Text("null"), Some(ValueError::NotAValue)),
    (Json::Text("1.5"), Some(ValueError::NotAValue)),
    (Json::Text("[1]"), Some(ValueError::NotAValue)),
    (
        Json::Text("9223372036854775808"),
        Some(ValueError::OutOfRange),
    ),
    (
        Json::Text("[\"rgba\",4294967296]"),
        Some(ValueError::OutOfRange),
    ),
    (Json::Lists(16), None),
    (Json::Lists(17), Some(ValueError::TooDeep)),
    (Json::Lists(127), Some(ValueError::TooDeep)),
    (Json::Lists(128), Some(ValueError::NotJson)),
];

/// The first of these rows, counted from 0, that is read otherwise.
pub fn first_wrong_value(alloc: Global, rows: &[Row]) -> Option<usize> {
    for (i, (json, wanted)) in rows.iter().enumerate() {
        if !is_read(alloc, *json, *wanted) {
            return Some(i);
        }
    }
    None
}
