//! A server of one document that one leaves running, over the document of a folder or of an etcd.
#![tactic(auto)]

mod budget;
mod connections;
mod copies;
mod documents;
mod fetched;
mod folders;
mod forwarded;
mod glancing;
mod hosting;
mod kick_texts;
mod kicking;
mod kicks;
mod live_seat;
mod opening;
mod own_document;
mod parsing;
mod polling;
mod presence;
mod progress;
mod seat_terms;
mod standby;
mod stopping;
mod streams;
mod tasks;
mod timing;
mod watching;
mod worker;

pub use hosting::serve;
pub use kick_texts::kick_text;
