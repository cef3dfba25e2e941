//! What a server counts, and how it tells it: a keeper that counts what it keeps, how it was judged, syncs and checkpoints; and all numbers in a
//! line for a person, and as text for Prometheus.
#![tactic(auto)]

mod judged;
mod meter;
mod metered;
mod numbers;
mod text;

pub use judged::{Judgement, how_judged};
pub use meter::Meter;
pub use metered::Metered;
pub use numbers::{Noes, Numbers, Refusals};
