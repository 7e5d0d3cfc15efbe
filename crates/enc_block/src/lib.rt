//! Statements and blocks as code of Boogie, whose runs go alongside those of Viper.
#![tactic(auto)]

mod calls;
mod clauses;
mod creations;
mod homes;
mod instances;
pub mod laws;
mod loops;
mod methods;
mod states;
mod writes;

pub use calls::{Calling, call};
pub use clauses::{assert, assert_all, consume_all, exhale, exhale_all, produce_all};
pub use creations::create;
pub use homes::{Home, Setting};
pub use instances::{fold_instance, unfold_instance};
pub use loops::{after_loop, loop_head, turn_end, turn_head};
pub use methods::{method_check, method_end, method_start};
pub use states::{any_state, havoc, keep_old, stop};
pub use writes::{WrittenField, assign, write};
