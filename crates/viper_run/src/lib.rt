//! Runs of the methods and predicates of a Viper program, as `viper_meaning` defines them.
#![tactic(auto)]

mod activations;
mod calling;
mod choices;
mod clauses;
mod loops;
mod objects;
mod statements;
mod steps;
mod units;

pub use activations::{Activation, Configuration, Store};
pub use calling::{Called, Invocation, call};
pub use choices::take_values;
pub use clauses::consume_all;
pub use statements::run_stmt;
pub use units::{Run, begin_method, first_store, run_unit};
