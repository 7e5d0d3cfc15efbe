//! The code of expressions has a text: it can be printed.
#![tactic(auto)]

pub mod laws;
pub mod worked;
