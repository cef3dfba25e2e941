//! What is noted beside a document's segments, and whether they still hold it. A shelf can be watched: it does what the shelf under it does,
//! says which call on which segment failed first, counts, and shows a witness what became certain. One witness writes the sums of each segment
//! into a file beside it: how long the segment was at each sync, and the SHA-256 of its bytes up to there. Before a document is opened its
//! segments are held against these sums, and against what a crash may leave: recovery takes a damaged length for the end of a segment, so a
//! document may be lost that a person could mend.
#![tactic(auto)]

mod call;
mod check;
mod fault;
mod first_loss;
mod lines;
mod listed;
mod loss;
mod notes;
mod parts;
mod sum;
mod sum_files;
mod summing;
mod trace;
mod watched;
mod watcher;
mod witness;

pub use call::ShelfCall;
pub use check::check_sums;
pub use fault::SumFault;
pub use first_loss::{is_taken, loss_of};
pub use listed::Listed;
pub use loss::Loss;
pub use notes::{CallCounts, Notes};
pub use sum::RunningSum;
pub use sum_files::{SumFiles, read_sums};
pub use trace::Trace;
pub use watched::Watched;
pub use witness::Witness;
