// What the threads of a server share.

use crate::counters::Figures;
use crate::log::Log;
use crate::page::Page;
use canvas_folder::Removed;
use net_http::Site;
use std::alloc::Global;
use std::net::TcpListener;
use std::sync::Arc;
use std::sync::atomic::AtomicBool;

/// What all threads of a server share.
#[derive(Drop)]
pub struct Shared {
    /// Where its port is.
    pub listener: TcpListener,
    /// What is told of it to all who ask.
    pub site: Site,
    /// The files of its page.
    pub page: Page,
    /// What it counts.
    pub figures: Figures,
    /// The files that the folder removes, where the document is in one.
    pub removed: Option<Removed>,
    /// Whether the lease of a document in an etcd has ended.
    pub has_ended: AtomicBool,
    /// What a connection may do.
    pub limits: Limits,
    /// If set, the address that a proxy names is logged.
    pub trusts_proxy: bool,
    /// Whether faults alone are told.
    pub quiet: bool,
    /// Where it logs.
    pub log: Arc<Log, Global>,
}

/// What a connection may do.
#[derive(Clone, Copy, Debug)]
pub struct Limits {
    /// After how many seconds of silence it ends.
    pub idle_seconds: u64,
    /// The most bytes that the text of an edit may have. A message of more than twice as many ends the connection.
    pub message_bytes: usize,
    /// How many clients are served at once.
    pub clients: usize,
}
