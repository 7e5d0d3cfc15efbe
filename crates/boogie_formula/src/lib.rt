//! Formulas over single-assignment variables: typed variables, definitions, each over the variables and the definitions before
//! it, and a goal; and conditions, which have in place of the goal, for each assertion, a definition that says that it fails.
#![tactic(auto)]

mod formulas;

pub use formulas::{Conditions, FExpr, Fail, Formula};
