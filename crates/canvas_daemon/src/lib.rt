//! What the program `canvasd` does, over any streams, shelves and nets: the words that it is called with, the faults that end it,
//! and its commands.
#![tactic(auto)]

mod args;
mod closing;
mod editing;
mod fault;
mod node;
mod running;
mod serving;
mod showing;
mod trying;

pub use args::{DaemonCommand, read_command, read_connections};
pub use editing::edit;
pub use fault::{DaemonFault, end};
pub use running::run;
pub use serving::{FolderRoom, Opened, open_room, opened, serve};
pub use showing::{report, show, show_shelf};
pub use trying::trial;
