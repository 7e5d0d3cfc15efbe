// Statements.
use crate::exprs::BExpr;
use vb_base::Label;

/// A statement.
#[derive(Drop)]
pub enum BStmt {
    /// The variable of this number gets the value.
    Assign(usize, BExpr),
    /// The map of this number gets the value at these indices.
    Put(usize, Vec<BExpr>, BExpr),
    /// The variable of this number gets a value from outside.
    Havoc(usize),
    /// A run continues only where the expression is true.
    Assume(BExpr),
    /// A run fails at the label where the expression is false.
    Assert(Label, BExpr),
    If(BExpr, Vec<BStmt>, Vec<BStmt>),
    /// `if (*)`: a pick decides which block runs.
    Either(Vec<BStmt>, Vec<BStmt>),
}
