//! The search for a certificate of a procedure: its conditions are read, its assertions refuted, and the steps written.
#![tactic(auto)]

mod searching;

pub use searching::{DEFAULT_STEPS, Searched, begin, search};
