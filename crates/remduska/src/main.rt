//! `remduska` does what its words ask for: it translates a Viper file (`translate`), runs a unit of it (`run`) or executes a
//! method (`exec`), replays a run of a Boogie procedure (`replay`), cuts the loops and calls of a Boogie file (`cut`), states the
//! condition of a procedure and a label (`vc`), or makes a program to measure with (`make`).
//!
//! What a call does is the contract of `vb_tool::tool`; this file only connects it to the process.
#![tactic(auto)]

use std::process::ExitCode;
use tool_common::Process;
use vb_tool::{Status, tool};

fn main(rt: HostRuntime) -> ExitCode {
    let alloc = rt.alloc();
    let status = match Process::of(rt) {
        Ok(mut it) => tool(alloc, &it.words, &mut it.disk, &mut it.out, &mut it.err),
        Err(_) => Status::NoMemory,
    };
    ExitCode::from(status.number())
}
