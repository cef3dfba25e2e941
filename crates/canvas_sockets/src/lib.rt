//! Messages over WebSockets after their handshake: a client's link, and how a server answers the messages of one connection, to its end or
//! turn by turn.
#![tactic(auto)]

mod line;
mod replier;
mod serving;
mod socket_link;
mod turning;

pub use line::Line;
pub use replier::Replier;
pub use serving::serve_one;
pub use socket_link::SocketLink;
pub use turning::{TurnEnd, take_turn, write_some};
