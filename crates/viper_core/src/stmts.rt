// The trees of statements. The first place of a statement is that of its first token; for an `elseif` it is that word.
use crate::{Assertion, Expr};
use vb_base::Pos;

/// The instance of a `fold` or `unfold`.
#[derive(Drop)]
pub struct FoldStmt {
    pub at: Pos,
    pub predicate: u32,
    pub args: Vec<Expr>,
    /// One that was left out is `write`.
    pub amount: Expr,
    /// The place of the predicate's name.
    pub place: Pos,
}

/// A statement.
///
/// A `var` whose right side is a call or a `new` is that `Call` or `New`, which then declares its target.
#[cycle(blocks)]
#[derive(Drop)]
pub enum Stmt {
    /// `var x: T` or `var x: T := a`, with the number of the variable
    Var(Pos, u32, Option<Expr>),
    /// `x := a`
    Assign(Pos, u32, Expr),
    /// `a.f := b`: the receiver, the number of the field, the place of its name, the right side
    Write(Pos, Expr, u32, Pos, Expr),
    /// `x := new(f, g)`: the target, the numbers of the fields, the numbers of the Ref variables in scope
    New(Pos, u32, Vec<u32>, Vec<u32>),
    /// `x, y := m(a, b)`: the targets, the number of the method, its arguments
    Call(Pos, Vec<u32>, u32, Vec<Expr>),
    /// `inhale A`, and `assume a`
    Inhale(Pos, Assertion),
    Exhale(Pos, Assertion),
    Assert(Pos, Assertion),
    Fold(FoldStmt),
    Unfold(FoldStmt),
    /// `if (a) { .. } else { .. }`. An `elseif` is an `If` alone in the second block.
    If(Pos, Expr, Vec<Stmt>, Vec<Stmt>),
    While(Loop),
}

/// A loop.
#[cycle(blocks)]
#[derive(Drop)]
pub struct Loop {
    pub at: Pos,
    pub guard: Expr,
    pub invariants: Vec<Assertion>,
    pub body: Vec<Stmt>,
    /// The place of the `{` of its body.
    pub turn: Pos,
    /// The variables declared outside the loop that its body assigns, in ascending order.
    pub targets: Vec<u32>,
}
