//! Boogie with loops, calls and contracts: its trees, the runs of its procedures and its types.
//!
//! The definitions stand in `specs/`; what runs here is the table of procedures by their names.
#![tactic(auto)]

mod procs;
mod wide;

pub use procs::Procs;
pub use wide::{Clause, WProc, WProgram, WStmt};
