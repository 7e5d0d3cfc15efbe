//! Fractions, and sums of things with fractions as factors.
#![tactic(auto)]

mod divisors;
mod rational;
mod sums;

pub use divisors::{common_divisor, common_multiple};
pub use rational::Rational;
pub use sums::added;
