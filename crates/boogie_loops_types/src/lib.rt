//! Checks the types of Boogie programs with loops, calls and contracts.
#![tactic(auto)]

mod blocks;
mod calls;
mod heads;
mod marks;
mod programs;

pub use programs::{check_wide, first_ill_typed_wide};
