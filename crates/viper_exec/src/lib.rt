//! Whole executions of methods: called bodies and the turns of loops run on one state, as `viper_exec_meaning` defines them; and by
//! `viper_exec_subset` the first word of a text for which one may fail where no unit does.
#![tactic(auto)]

mod answers;
mod blocks;
mod bodies;
mod calls;
mod executions;
mod frames;
mod machine;

pub use executions::{ExecEnd, Executed, exec_method};
pub use viper_exec_subset::first_unframed;
