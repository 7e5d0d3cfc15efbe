//! The search for values of a procedure's variables at which its assertions fail.
#![tactic(auto)]

mod attempts;
mod guessing;
mod labels;
mod standings;
mod valuing;

pub use valuing::search_values;
