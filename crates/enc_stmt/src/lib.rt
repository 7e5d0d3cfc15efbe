//! The translation of a program, as a tree and as text, and all that it is made of.
#![tactic(auto)]

mod building;
mod trees;

pub use enc_block::{
    Home, Setting, after_loop, any_state, assert, assert_all, assign, call, consume_all, create,
    exhale, exhale_all, fold_instance, havoc, keep_old, loop_head, method_check, method_end,
    method_start, produce_all, stop, turn_end, turn_head, unfold_instance, write,
};
pub use enc_locals::{front_procedure, front_types, other_types, start_env};
pub use enc_stream::{Written, encode_to, unit_locals};
pub use enc_units::{Bracket, BranchStep, CodeStep, RowStep, start, step_code, unit_home};
pub use trees::{encode, procedure_at};
