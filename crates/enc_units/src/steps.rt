// The steps of a unit's code, which name the parts of the program that they write.
use boogie_tree::BExpr;
use vb_base::Pos;
use viper_core::{Assertion, Expr, Loop, Method, Stmt};

/// A step of the row in which the code of a unit is written.
#[derive(Clone, Copy)]
pub enum RowStep<'a> {
    /// Whole statements.
    Code(CodeStep<'a>),
    /// Where a block of an `if` begins or ends.
    Branch(BranchStep<'a>),
}

/// A part of a unit whose code is whole statements.
#[derive(Clone, Copy)]
pub enum CodeStep<'a> {
    /// How the code of a unit begins.
    Start,
    /// A statement without blocks.
    Plain(&'a Stmt),
    /// Before a loop.
    Head(&'a Loop),
    /// An arbitrary turn, before the body.
    Turn(&'a Loop),
    /// Behind the body.
    Finish(&'a Loop),
    /// How a run continues behind a loop.
    After(&'a Loop),
    /// A method, before its body.
    Enter(&'a Method),
    /// Behind the body of a method, which begins at this place.
    Leave(&'a Method, Pos),
    /// The postcondition of a method by itself.
    Check(&'a Method),
    /// The body of a predicate.
    Produce(Pos, &'a Assertion),
}

/// Where a block of an `if` begins or ends.
#[derive(Clone, Copy)]
pub enum BranchStep<'a> {
    /// An `if`, up to its first block.
    Begin(Pos, &'a Expr),
    /// A choice, up to its first block.
    Pick,
    /// Between two blocks.
    Otherwise,
    /// Behind the second block.
    End,
}

/// The bracket that stands behind the code of a step.
#[derive(Drop)]
pub enum Bracket {
    Nothing,
    /// An `if`, up to the first block.
    If(Box<BExpr>),
    /// A choice, up to the first block.
    Either,
    /// Between two blocks.
    Else,
    /// Behind the second block.
    End,
}
