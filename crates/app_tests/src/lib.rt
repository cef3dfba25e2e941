//! Tests of what programs stand on, for which no server runs: of `net_http`, heads as clients send them, and the answers' bytes; of
//! `app_admin`, a segment in which each bit is flipped in turn, one that is cut at each byte, and a home in memory; of `canvas_scene`, what
//! whole inputs can't show.
#![tactic(auto)]

#[cfg(test)]
mod answers;
#[cfg(test)]
mod flips;
#[cfg(test)]
mod heads;
#[cfg(test)]
mod homes;
#[cfg(test)]
mod scenes;
#[cfg(test)]
mod segment;
#[cfg(test)]
mod sites;
