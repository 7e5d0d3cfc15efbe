// Programs with loops, calls and contracts.
use boogie_tree::{BExpr, Local};
use vb_base::{Ident, Label};

/// A condition with the label at which a run fails where it is asserted and false.
#[derive(Drop)]
pub struct Clause {
    pub label: Label,
    pub e: BExpr,
}

/// A statement.
#[derive(Drop)]
pub enum WStmt {
    /// The variable of this number gets the value.
    Assign(usize, BExpr),
    /// The map of this number gets the value at these indices.
    Put(usize, Vec<BExpr>, BExpr),
    /// The variable of this number gets a value from outside.
    Havoc(usize),
    /// A run continues only where the expression is true.
    Assume(BExpr),
    /// A run fails at the label where the expression is false.
    Assert(Label, BExpr),
    If(BExpr, Vec<WStmt>, Vec<WStmt>),
    /// `if (*)`: a pick decides which block runs.
    Either(Vec<WStmt>, Vec<WStmt>),
    /// `while`, with its guard, its invariants and its body. Without a guard, `while (*)`, a pick decides whether the body runs.
    While(Option<BExpr>, Vec<Clause>, Vec<WStmt>),
    /// `call`: the variables that get the returns, the name of the procedure, and its arguments.
    Call(Vec<usize>, Ident, Vec<BExpr>),
}

/// A procedure. Its locals begin with the parameters and the returns, of which there are so many. One that has no body is
/// only called.
#[derive(Drop)]
pub struct WProc {
    pub name: Ident,
    pub params: usize,
    pub returns: usize,
    pub locals: Vec<Local>,
    pub preconditions: Vec<Clause>,
    pub postconditions: Vec<Clause>,
    pub body: Option<Vec<WStmt>>,
}

/// A program: what follows the prelude.
#[derive(Drop)]
pub struct WProgram {
    pub procs: Vec<WProc>,
}
