//! Worked examples of the code of statements and units: laws alone.
#![tactic(auto)]

pub mod worked;
