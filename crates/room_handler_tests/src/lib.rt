//! Tests of `canvas_nodes`: the rounds of an exchange over a list of answers, frames of each kind over sockets in memory, turns over a stream
//! that would wait, and links over sockets. Of `net_inbox`: which messages have come together. And of `room_handler`: that a connection is sent what a seat answers, in a long talk, and
//! exchanges over a link to a seat.
#![tactic(auto)]

#[cfg(test)]
mod connections;
#[cfg(test)]
mod exchanges;
#[cfg(test)]
mod frames;
#[cfg(test)]
mod inboxes;
#[cfg(test)]
mod links;
#[cfg(test)]
mod rooms;
#[cfg(test)]
mod rounds;
#[cfg(test)]
mod socket_links;
#[cfg(test)]
mod sockets;
#[cfg(test)]
mod turns;
