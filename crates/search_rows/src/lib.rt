//! Sums of numbers that are compared with 0: equations solved for one of their terms, and contradictions among comparisons.
#![tactic(auto)]

mod contradictions;
mod near;
mod pruning;
mod rows;
mod simplex;
mod solved;

pub use contradictions::{contradiction, solution};
pub use pruning::needed;
pub use rows::{LinearRow, Point, RowSign, RowSource};
pub use solved::{Solved, Taken};
