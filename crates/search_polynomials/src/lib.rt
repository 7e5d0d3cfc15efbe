//! Polynomials: products of sums as sums of products of terms in one order.
#![tactic(auto)]

mod multiplying;
mod ordering;
mod polynomials;

pub use multiplying::multiplied_out;
