//! A document in an etcd while no server runs: it is shown, checked, imported, and moved into a folder and out of one.
#![tactic(auto)]

mod carrying;
mod homes;
mod moving;
mod opening;
mod sides;

pub use carrying::carry;
pub use homes::{DocumentHome, import_document};
pub use moving::{move_in, move_out};
pub use opening::Remote;
pub use sides::MoveFault;
