//! Arithmetic that is not linear: steps about products, quotients and remainders of what is not known.
#![tactic(auto)]

mod about;
mod factoring;
mod looking;
mod pairs;
mod swaps;

pub use about::{About, made, ring, times};
pub use factoring::factored_out;
pub use looking::{further, product, say};
pub use pairs::together;
pub use swaps::swapped;
