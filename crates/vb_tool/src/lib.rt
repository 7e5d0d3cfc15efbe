//! The tool: what a command does, from its words to what it writes and how it ends.
//!
//! What a call does is the contract of `tool`. A program connects it to its files and streams.
#![tactic(auto)]

mod budget;
mod command;
mod conditions;
mod cuts;
mod executions;
pub mod laws;
mod making;
mod moved;
mod outcome;
mod procedures;
mod replay_outcome;
mod stages;
mod status;
mod trouble;
mod units;
mod words;
mod works;

pub use command::tool;
pub use status::{Refusal, Status};
