//! The care of a document while no server runs: the document as a tree or as rows of JSON, its entries as messages, what stands in its segments,
//! and new folders for the document of rows or of a backup.
#![tactic(auto)]

mod checking;
mod checkpoints;
mod drafting;
mod finding_loss;
mod folders;
mod homes;
mod laws;
mod logging;
mod making;
mod planting;
mod reading_rows;
mod restoring;
mod row_ids;
mod showing;
mod taking;
mod torn;
mod traces;
mod writing_rows;

pub use checking::{check, check_shelf};
pub use finding_loss::{FolderSums, SumSource, find_loss};
pub use folders::{Ground, NewFolder, begin_folder, begin_on, begun_line};
pub use homes::{FolderHome, Home};
pub use laws::{every_rows_text, every_torn_segment};
pub use logging::{log, log_shelf};
pub use making::document_of;
pub use planting::plant;
pub use reading_rows::{Rows, read_rows};
pub use restoring::{import, import_on, read_backup};
pub use showing::{show_rows, show_rows_of, show_tree, show_tree_of};
pub use torn::removable_segments;
pub use traces::trace_in;
pub use writing_rows::{Layout, rows_text};
