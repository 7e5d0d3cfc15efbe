//! `prove COMMAND ..` proves that nothing of a file of Viper or of Boogie fails.
//!
//! What a call does is the contract of `prove_tool::tool`; this file only connects it to the process.
#![tactic(auto)]

use prove_tool::{ProveStatus, tool};
use std::process::ExitCode;
use tool_common::Process;

fn main(rt: HostRuntime) -> ExitCode {
    let alloc = rt.alloc();
    let status = match Process::of(rt) {
        Ok(mut it) => tool(alloc, &it.words, &mut it.disk, &mut it.out, &mut it.err),
        Err(_) => ProveStatus::NoMemory,
    };
    ExitCode::from(status.number())
}
