//! Tests of shelves: real folders, and a folder in memory over a crash; the files of sums, and what is noted of calls that fail; a store of
//! keys in memory that another takes over; the allocator that refuses a growth. And of `canvas_journal` over them in real folders: what
//! files hold after each call, damaged and foreign files, folders that are gone; and out of memory, reported as such by both shelves.
#![tactic(auto)]

#[cfg(test)]
mod bytes;
#[cfg(test)]
mod calls;
#[cfg(test)]
mod documents;
#[cfg(test)]
mod folders;
#[cfg(test)]
mod growths;
#[cfg(test)]
mod journals;
#[cfg(test)]
mod memory;
#[cfg(test)]
mod noting;
#[cfg(test)]
mod refusals;
#[cfg(test)]
mod segments;
#[cfg(test)]
mod sums;
#[cfg(test)]
mod takeovers;
