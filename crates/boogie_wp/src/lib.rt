//! Verification conditions: for a procedure definitions that say of each of its assertions where it fails, and for a label beside
//! these a formula, valid exactly where no run of the procedure fails there.
#![tactic(auto)]

mod build;
mod builder;
mod chain;
mod formulas;
mod lift;
mod names;
mod variables;
pub mod worked;

pub use boogie_formula::{Conditions, FExpr, Fail, Formula};
pub use boogie_formula_text::{print_conditions, print_formula};
pub use formulas::{conditions, conditions_of_procedure, formula};
