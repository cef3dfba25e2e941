//! A folder of files as POSIX promises one, by a trait of system calls, and the shelf that it is: which calls in which order make it an
//! honest one.
#![tactic(auto)]

mod above;
mod error;
mod fault;
mod folder;
mod last_written;
mod laws;
mod names;
mod opening;
mod os_folder;
mod path;
mod place;
mod removed;
mod segments;
mod shelf;
mod space;
mod state;
mod system_calls;

pub use error::FolderError;
pub use folder::Folder;
pub use laws::{
    every_call_keeps_a_folder_sound, every_crash_of_a_folder, every_fresh_folder_lists_the_top,
};
pub use opening::make_ready;
pub use os_folder::OsFolder;
pub use removed::Removed;
pub use shelf::DirShelf;
pub use space::{Space, SpaceRefusal};
