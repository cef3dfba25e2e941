//! Clients and servers that speak to each other: what a client does over a link to a server, whatever that answers; and what a server
//! answers the bytes of a message.
#![tactic(auto)]

mod answering;
mod asking;
mod laws;
mod link;
mod rounds;

pub use answering::{Answerer, answered, no_text, texts_of};
pub use asking::asked;
pub use laws::every_hearing;
pub use link::{Link, LinkError};
pub use rounds::{exchange, join};
