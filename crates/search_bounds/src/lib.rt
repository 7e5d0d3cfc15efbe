//! What follows of open comparisons, and what to decide of numbers: probes, equations at limits, cuts, and bounds of choices.
#![tactic(auto)]

mod branching;
mod choices;
mod cuts;
mod probes;
mod tight;

pub use branching::{Decision, branch};
pub use choices::bounds;
pub use probes::{probe, probe_all};
pub use tight::tighten;
