//! Tests of a room: a server that is full; batches and crashes of a desk, over a journal on a shelf in memory; seats on one thread and on
//! several, a keeper that fails, and the same room in a folder.
#![tactic(auto)]

#[cfg(test)]
mod ahead;
#[cfg(test)]
mod answers;
#[cfg(test)]
mod asks;
#[cfg(test)]
mod batches;
#[cfg(test)]
mod crashes;
#[cfg(test)]
mod desks;
#[cfg(test)]
mod folders;
#[cfg(test)]
mod records;
#[cfg(test)]
mod seats;
#[cfg(test)]
mod servers;
#[cfg(test)]
mod taking;
#[cfg(test)]
mod threads;
#[cfg(test)]
mod trials;
