//! Cuts the loops and calls of Boogie: what is left is a program without them, and where a run of the loops fails, some run of it
//! fails as well.
#![tactic(auto)]

mod calls;
mod changed;
mod copies;
mod fresh;
pub mod laws;
mod loops;
mod pieces;
mod programs;
mod statements;
pub mod worked;

pub use boogie_loops::{Clause, WProc, WProgram, WStmt};
pub use boogie_loops_text::read_wide;
pub use boogie_loops_types::check_wide;
pub use programs::cut;
