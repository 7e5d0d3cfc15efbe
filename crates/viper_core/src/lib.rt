//! Viper programs as typed trees: names are resolved, variables are numbered, and each expression has one type.
//!
//! `specs/` has the plain data that contracts see, which programs are formed, and what a program weighs.
#![tactic(auto)]

pub mod context_laws;
mod copies;
mod exprs;
pub mod laws;
mod programs;
mod sizes;
mod stmts;
mod types;
mod weights;

pub use exprs::{Amt, Assertion, Expr, Op, Opened};
pub use programs::{Body, Method, Predicate, Program, Unit};
pub use sizes::{spend, spend_assertion};
pub use stmts::{FoldStmt, Loop, Stmt};
pub use weights::weight;
