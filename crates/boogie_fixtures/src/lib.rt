//! Programs of Boogie, as the rows of the crates of tests write them, and what is told of code that was written.
#![tactic(auto)]

pub mod procedures;
