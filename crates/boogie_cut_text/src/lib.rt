//! What is written for Boogie with loops, calls and contracts is well-typed, and can be printed.
#![tactic(auto)]

pub mod laws;
mod printable;

pub use printable::cut_with_text;
