//! The state of a search, with its levels: what it knows, what it is to look at, and the steps from clauses in the making.
#![tactic(auto)]

mod finishing;
mod levels;
mod looking;
mod notes;
mod prover;

pub use notes::{Conditional, Factor, Instance, ProductNotes, Said};
pub use prover::Prover;
