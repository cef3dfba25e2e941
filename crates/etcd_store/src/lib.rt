//! An etcd as a document's store: the leaf over sockets that claims nothing.
#![tactic(auto)]

mod asked;
mod causes;
mod chunks;
mod deadline;
mod document;
mod ends;
mod error;
mod exchange;
mod lease;
mod owner;
mod store;
mod turns;
mod wire;

pub use causes::Causes;
pub use error::StoreError;
pub use lease::Lease;
pub use store::EtcdStore;
