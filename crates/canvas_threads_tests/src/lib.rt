//! Tests of `canvas_threads`: nodes that edit at once at seats of one room, clients on threads of their own, and clients that hear what is
//! pushed.
#![tactic(auto)]

#[cfg(test)]
mod client_nodes;
#[cfg(test)]
mod gates;
#[cfg(test)]
mod hearing;
#[cfg(test)]
mod running;
#[cfg(test)]
mod runs;
