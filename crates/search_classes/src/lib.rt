//! Classes of terms that are equal by what is assigned, with the reasons for that. They go back with the search.
#![tactic(auto)]

mod applied;
mod classes;
mod entering;
mod grounds;
mod undoing;
mod unions;

pub use applied::arguments;
pub use classes::Classes;
pub use grounds::{Clash, Link, News, Touched, Why};
