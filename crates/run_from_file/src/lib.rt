//! Runs of units, and executions of methods, on the runs of run files. Each heap and contents among the choices has a map for each
//! field and each predicate of the program, so the choices behind the last that is taken are counted, and not built.
#![tactic(auto)]

mod executions;
mod fronts;
mod runs;

pub use executions::{EndedExecution, ExecutionTask, exec_on_file};
pub use runs::{EndedRun, run_on_file};
