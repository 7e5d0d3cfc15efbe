//! Sums of a certificate: of literals that are false and of what terms are, sums with weights that cannot stand to 0 as they do.
#![tactic(auto)]

mod constants;
mod literals;
mod meanings;
mod names;
mod rows;
mod sums;
mod totals;

pub use sums::sum;
