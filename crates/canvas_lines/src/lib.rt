//! The lines that programs read and write: words, lines, the changes and requests that lines spell,
//! blocks of a report, the text that shows a document, streams, and faults with their text and status.
#![tactic(auto)]

mod blocks;
mod changes;
mod error;
mod fault;
mod laws;
pub mod lines;
mod report;
mod requests;
mod streams;
pub mod words;

pub use blocks::block;
pub use changes::read_change;
pub use error::LineError;
pub use fault::{Fault, tell};
pub use laws::one_bad_line;
pub use report::report_text;
pub use requests::{LogRequest, Reading, read_request, read_requests};
pub use streams::{read_input, write_out};
