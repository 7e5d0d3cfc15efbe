//! Methods and predicates as procedures of Boogie, laid out as rows of steps, and the theorem that they are a translation.
#![tactic(auto)]

pub mod laws;
pub mod opening_laws;
pub mod program_laws;
pub mod row_laws;
mod rows;
mod stepping;
mod steps;
mod units;
mod writers;

pub use rows::unit_steps;
pub use stepping::step_code;
pub use steps::{Bracket, BranchStep, CodeStep, RowStep};
pub use units::{start, unit_home};
pub use writers::{Writer, unit_writer};
