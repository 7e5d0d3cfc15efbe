//! Inferences from literals and terms that matter: by their parts, choices, reads of maps, and instances of each `forall` at what is read.
#![tactic(auto)]

mod choices;
mod foralls;
mod looking;
mod parts;
mod places;
mod terms;
mod truths;

pub use looking::look;
