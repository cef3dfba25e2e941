//! What the port of a site answers to the head of an HTTP request. Bytes in, and a decision and bytes out: this crate knows no sockets.
#![tactic(auto)]

mod answers;
mod asked;
mod fields;
mod head;
mod host;
mod offer;
mod origin;
mod routes;
mod site;
mod texts;

pub use answers::{write_answer, write_head, write_sentence};
pub use asked::{Endpoint, HttpRefusal, PageFile};
pub use head::{HeadError, HttpRequest, MAX_FIELDS, read_head};
pub use host::is_host;
pub use origin::is_origin;
pub use site::{Site, is_identity};
pub use texts::{ContentType, Status};
