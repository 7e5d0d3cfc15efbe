//! Types of Boogie programs, and the runs of their procedures, as `boogie_meaning` defines them.
#![tactic(auto)]

mod replay_choices;
mod replay_ends;
pub mod replay_laws;
mod replay_runs;
mod replay_steps;
mod replay_values;
mod replaying;
mod stepping;

pub use boogie_types::{
    base_of_expr, check_types, have_keys, is_assign, is_bool, is_put, is_typed_stmt, same_type,
};
pub use replaying::{BOutcome, replay};
pub use stepping::Running;
