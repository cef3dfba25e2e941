//! Values as JSON: trees and texts, both ways; and the parts that forms of JSON are put together from.
#![tactic(auto)]

pub mod json;
mod json_fault;
pub mod parts;

pub use json::{from_json, json_text, to_json};
pub use json_fault::JsonFault;
