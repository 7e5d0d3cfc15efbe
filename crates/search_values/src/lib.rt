//! Values of literals: unit propagation, in which each clause watches two of its literals, and clauses that are learned from conflicts.
#![tactic(auto)]

mod clauses;
mod learning;
mod units;
mod values;

pub use learning::Learned;
pub use values::Values;
