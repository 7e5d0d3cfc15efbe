//! Boogie programs as trees, the text with which each begins, values, and what a run takes from outside.
#![tactic(auto)]

mod bases;
mod exprs;
mod prelude;
mod programs;
mod stmts;
mod values;

pub use bases::{
    are_keys, base_of_part, base_of_scalar, default_of, fits_key, is_key, same_base, same_bases,
};
pub use exprs::{BBase, BExpr, BOp};
pub use prelude::PRELUDE;
pub use programs::{BProgram, BType, Local, Proc};
pub use stmts::BStmt;
pub use values::{BChoice, BRun, BScalar, BSetting, BValue, Entry};
