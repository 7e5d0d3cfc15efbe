//! What the tools have in common: how a call ends and what it then writes, and how a program connects one to its process.
#![tactic(auto)]

mod process;
mod status;
mod writing;

pub use process::Process;
pub use status::{CallStatus, ToolStatus};
pub use writing::{deliver, report};
