//! The literals that say that a run comes to a place, and what each implies of the places before it, in few steps.
#![tactic(auto)]

mod branches;
mod climbing;
mod paths;

pub use paths::{Back, Paths};
