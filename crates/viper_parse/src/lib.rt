//! The parser of Viper: the program that a list of tokens spells, or the exact place where it stops being one.
#![tactic(auto)]

mod decls;
mod program;
mod stmts;
mod terms;

pub use program::{one_place, one_tree, parse, some_answer};
