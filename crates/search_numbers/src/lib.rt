//! What is assigned of numbers, as it comes and goes back with the search, and the rows that bear on each other.
#![tactic(auto)]

mod nearby;
mod numbers;

pub use nearby::Around;
pub use numbers::NumberTheory;
