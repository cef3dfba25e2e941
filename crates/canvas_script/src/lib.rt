//! Scripts of a world: how they are read, and what playing them writes.
#![tactic(auto)]

mod answers;
mod names;
mod play;
mod report;
mod run;
mod said;
mod script;
mod words;

pub use answers::answer_line;
pub use names::{MAX_NAME_LEN, Names, is_node_name};
pub use play::play_items;
pub use report::{write_node, write_report, write_server};
pub use run::{ScriptError, world_run};
pub use script::{Item, Script, is_world, one_bad_script_line, read_script};
