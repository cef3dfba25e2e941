//! Where the document of a server stands: in a folder, which is looked at before it is opened, or in an etcd, under a lease that is kept
//! alive. Both are watched. And which faults may end a server of one.
#![tactic(auto)]

mod checkpoint_refusals;
mod copies;
mod guarding;
mod leasing;
mod owning;
mod setting_aside;
mod shelf;
mod tasks;

pub use checkpoint_refusals::{Refused, with_refusal};
pub use copies::Copies;
pub use guarding::{guard, keep_all};
pub use leasing::{KeptLease, LEASE_SECONDS, Term};
pub use owning::{Held, store_of, take_over};
pub use setting_aside::{remove_torn, set_torn_aside};
pub use shelf::{DocumentShelf, FolderShelf, NoWitness};
pub use tasks::{Task, begin_task};
