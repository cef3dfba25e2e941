// What the program is asked to do.
ghost use Rattle.std.specs.Prelude.{◌≡◌};

use app_admin::Layout;
use app_identity::Address;

/// Where a document is.
#[derive(Debug)]
pub enum DocumentPlace {
    /// In this folder.
    Folder(String),
    /// In an etcd.
    Document(Address),
}

impl Drop for DocumentPlace {
    fn drop(self) {
        match self {
            DocumentPlace::Folder(_) => {}
            DocumentPlace::Document(_) => {}
        }
    }
}

/// What the program is asked to do.
#[derive(Debug, Drop)]
pub enum Invocation {
    /// To serve a document.
    Serve(Options),
    /// To show a document.
    Show {
        /// Where it is.
        place: DocumentPlace,
        /// How its rows are laid out, or none for the tree.
        layout: Option<Layout>,
    },
    /// To make a document of the rows on the input.
    Import {
        /// Where it is to be made.
        place: DocumentPlace,
    },
    /// To make a folder of a backup.
    Restore {
        /// The folder of the backup.
        backup: String,
        /// The folder to be made.
        dir: String,
        /// Whether what is left of a backup is restored that has lost something.
        accept_loss: bool,
    },
    /// To move a document between a folder and an etcd.
    Move {
        /// The folder.
        dir: String,
        /// Where it is in the etcd.
        address: Address,
        /// Whether it goes out of the etcd into the folder.
        is_back: bool,
    },
    /// To tell what stands in a document's segments.
    Check {
        /// Where it is.
        place: DocumentPlace,
    },
    /// To write the entries past the checkpoint.
    Log {
        /// Where the document is.
        place: DocumentPlace,
    },
    /// To end connections of a server.
    Kick {
        /// The file that brings the server their numbers.
        file: String,
        /// Their numbers.
        numbers: Vec<u64>,
    },
    /// To play the edit lines on the input, as a client.
    Edit {
        /// The port of the server on this machine.
        port: u16,
    },
}

/// What a server is asked for.
#[derive(Debug)]
pub struct Options {
    /// Where the document is.
    pub place: DocumentPlace,
    /// How it is to be served.
    pub serving: Serving,
}

impl Drop for Options {
    fn drop(self) {
        let Options {
            place: _,
            serving: _,
        } = self;
    }
}

impl Options {
    /// Where the document is, and how it is to be served.
    pub fn apart(self) -> (DocumentPlace, Serving)
        ensures place { result.0 ≡ self.place }
        ensures serving { result.1 ≡ self.serving }
    {
        let Options { place, serving } = self;
        (place, serving)
    }
}

/// How a document is to be served.
#[derive(Debug)]
pub struct Serving {
    /// Whether a document in an etcd is waited for while another server has it.
    pub is_standby: bool,
    /// The port of the own machine, or 0 for any free one.
    pub port: u16,
    /// How many clients are served at once.
    pub clients: u32,
    /// How many workers serve them.
    pub workers: u32,
    /// After how many seconds of silence a connection ends.
    pub idle_seconds: u64,
    /// The most bytes that the text of an edit may have. A message of more than twice as many ends its connection.
    pub message_bytes: usize,
    /// The hosts that it may be asked by, beside the names of the machine itself.
    pub hosts: Vec<String>,
    /// The origins whose pages may connect, beside the server's own.
    pub origins: Vec<String>,
    /// The folder of the page's files, where there is a page.
    pub page: Option<String>,
    /// Whether a folder is opened although that loses something, which is copied to its folder `lost` first.
    pub accept_loss: bool,
    /// The file at which the server ends once it is there, if one is named.
    pub stop_file: Option<String>,
    /// The file with the numbers of connections that an operator ends, if one is named.
    pub kick_file: Option<String>,
    /// If set, the address that a proxy names is logged.
    pub trust_forwarded: bool,
    /// Whether faults alone are told.
    pub quiet: bool,
}

impl Drop for Serving {
    fn drop(self) {
        let Serving {
            is_standby: _,
            port: _,
            clients: _,
            workers: _,
            idle_seconds: _,
            message_bytes: _,
            hosts: _,
            origins: _,
            page: _,
            accept_loss: _,
            stop_file: _,
            kick_file: _,
            trust_forwarded: _,
            quiet: _,
        } = self;
    }
}

impl Serving {
    /// The hosts that it may be asked by, the origins whose pages may connect, and the folder of the page's files.
    pub fn into_pages(self) -> (Vec<String>, Vec<String>, Option<String>)
        ensures hosts { result.0 ≡ self.hosts }
        ensures origins { result.1 ≡ self.origins }
        ensures page { result.2 ≡ self.page }
    {
        let Serving {
            is_standby: _,
            port: _,
            clients: _,
            workers: _,
            idle_seconds: _,
            message_bytes: _,
            hosts,
            origins,
            page,
            accept_loss: _,
            stop_file: _,
            kick_file: _,
            trust_forwarded: _,
            quiet: _,
        } = self;
        (hosts, origins, page)
    }
}
