//! A program of Boogie that is read part by part: of the one procedure that is asked for, how a run of it ends, or it alone as a
//! program. No other procedure is ever in memory.
#![tactic(auto)]

mod alone;
mod begun;
mod bodies;

pub use alone::{procedure_alone, replayed_alone};
