// What a server has once a document is its own.
use app_metrics::Meter;
use app_storage::KeptLease;
use canvas_folder::{Removed, Space};
use canvas_room::BlankRoom;
use disk_integrity::Notes;
use etcd_store::Causes;
use std::alloc::Global;
use std::net::TcpListener;
use std::sync::Arc;

/// What a server holds beside the room of a document in an etcd.
pub(crate) struct Tenure {
    /// The lease.
    pub(crate) lease: KeptLease,
    /// Why calls of the store failed.
    pub(crate) causes: Causes,
}

impl Drop for Tenure {
    fn drop(self) {
        let Tenure {
            lease: _,
            causes: _,
        } = self;
    }
}

/// What a server has of a document that is its own, beside the document's room.
pub(crate) struct OwnDocument {
    /// Where the port is.
    pub(crate) listener: TcpListener,
    /// What the document's journal counts.
    pub(crate) meter: Arc<Meter, Global>,
    /// What is noted of its shelf's calls.
    pub(crate) notes: Notes,
    /// The document's identity.
    pub(crate) identity: String,
    /// The refused checkpoints of a folder.
    pub(crate) space: Option<Space>,
    /// The files that a folder removes.
    pub(crate) removed: Option<Removed>,
    /// What is held of a document in an etcd.
    pub(crate) tenure: Option<Tenure>,
}

/// The room of a document that is this server's, and what it has beside it.
pub(crate) type OwnRoom<K> = (BlankRoom<K>, OwnDocument);
