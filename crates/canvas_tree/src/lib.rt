//! Page trees: what a document shows, as a tree under any allocator.
#![tactic(auto)]

mod growing;
mod laws;
mod texts;
mod tree;

pub use growing::grow;
pub use laws::{one_document, one_tree, reads_tree, stands_in_tree};
pub use texts::write_props;
pub use tree::Tree;
