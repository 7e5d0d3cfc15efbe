//! The values of expressions of Boogie programs within the bound, as `boogie_meaning` defines them.
#![tactic(auto)]

mod eval_columns;
mod eval_ends;
mod eval_expr;
mod eval_keys;
mod eval_marked;
mod eval_operators;
mod eval_sets;
mod eval_unary;
mod eval_values;

pub use eval_ends::{Answer, Miss};
pub use eval_expr::{eval, holds, key_of};
pub use eval_values::{ForallRow, ForallScope, the_map};
