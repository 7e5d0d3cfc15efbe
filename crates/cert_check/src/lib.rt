//! The checker of certificates: a certificate that it accepts shows that none of a procedure's assertions fails, at no values of the
//! variables of its conditions.
//!
//! A certificate is read twice: its terms first, and then its definitions and steps. So these may name terms that stand below them,
//! which is harmless, and all that is accepted where each may name only what stands above it is accepted here too.
#![tactic(auto)]

mod checking;
mod ends;
mod kinds;
mod laws;
mod lines;
mod names;
mod progress;
mod steps;
mod tables;
mod unshown;
mod words;

pub use checking::check;
pub use unshown::Unshown;
