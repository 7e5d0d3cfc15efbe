//! Types of Boogie programs, as `boogie_meaning` defines them.
#![tactic(auto)]

mod operators;
mod typing;

pub use operators::{answer, given, is_index, negated, pair, same_type};
pub use typing::{base_of_expr, check_types, have_keys, is_assign, is_bool, is_put, is_typed_stmt};
