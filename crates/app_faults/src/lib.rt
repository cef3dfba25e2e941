//! Why the program `lugcurrant` or one of its commands ends: what failed, and of what, with a sentence for a person and a status for what
//! started it.
#![tactic(auto)]

mod causes;
mod errors;
mod etcd;
mod fault;
mod kick_fault;
mod row_fault;
mod sentences;
mod subject;

pub use causes::{Advice, Why};
pub use etcd::{fault_of_cause, fault_of_etcd, of_document};
pub use fault::Fault;
pub use kick_fault::KickFault;
pub use row_fault::RowFault;
pub use sentences::{Told, end, finish, tell};
pub use subject::Subject;
