//! Programs, values and states of Viper, as the rows of the crates of tests write them.
#![tactic(auto)]

pub mod files;
pub mod scenes;
pub mod words;
