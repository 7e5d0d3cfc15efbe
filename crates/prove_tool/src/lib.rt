//! The proof that nothing of a file of Viper or of Boogie fails, as a program makes it: from the words of a call to what it writes and how it ends.
//!
//! What a call promises is the contract of `tool`. A program connects it to its files and streams.
#![tactic(auto)]

mod checking;
mod command;
mod language;
pub mod laws;
mod lines;
mod reading;
mod refusal;
mod searching;
mod status;
mod streams;
mod subject;
mod words;

pub use command::tool;
pub use refusal::ProveRefusal;
pub use status::ProveStatus;
