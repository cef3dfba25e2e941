//! Tests of `canvas_embed`: bytes that are values or none, messages that are heard, edits of each kind with the text that they leave, a
//! tree that is as deep as it may be, clients that are saved and loaded, edits that are made again, and what a message changed.
#![tactic(auto)]

#[cfg(test)]
mod edits;
#[cfg(test)]
mod ids;
#[cfg(test)]
mod lists;
#[cfg(test)]
mod messages;
#[cfg(test)]
mod places;
#[cfg(test)]
mod resumes;
#[cfg(test)]
mod saves;
#[cfg(test)]
mod shows;
#[cfg(test)]
mod steps;
#[cfg(test)]
mod values;
