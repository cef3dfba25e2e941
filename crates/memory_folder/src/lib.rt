//! A folder of files in memory, for tests: an honest one, of which calls fail as it is told, with what a crash may leave.
#![tactic(auto)]

mod failing;
mod files;
mod folder;
mod held;

pub use folder::MemFolder;
