// The trees of expressions and assertions. A variable, field, predicate or method stands by its number.
use vb_base::Pos;
use vb_value::Frac;

/// A binary operator.
#[derive(Clone, Copy, Debug, PartialEq, Eq)]
pub enum Op {
    /// `<==>`
    Iff,
    /// `==>`
    Implies,
    /// `||`
    Or,
    /// `&&`
    And,
    /// `==`
    Eq,
    /// `!=`
    Ne,
    /// `<`
    Lt,
    /// `<=`
    Le,
    /// `>`
    Gt,
    /// `>=`
    Ge,
    /// `+`
    Add,
    /// `-`
    Sub,
    /// `*`
    Mul,
    /// `/`, whose value is a Perm
    Divide,
    /// `\`, the Euclidean quotient
    IntDiv,
    /// `%`, the Euclidean remainder
    IntMod,
}

/// An expression.
#[cycle(trees)]
#[derive(Drop)]
pub enum Expr {
    /// The variable of this number.
    Var(u32),
    /// A literal, from 0 to 2^127 - 1.
    Int(i128),
    Bool(bool),
    /// The reference `null`.
    Null,
    /// A literal permission: `none` is 0/1, and `write` is 1/1.
    Part(Frac),
    /// `-a`
    Neg(Box<Expr>),
    /// `!a`
    Not(Box<Expr>),
    /// An operator at its place.
    Bin(Op, Box<Expr>, Box<Expr>, Pos),
    /// `a ? b : c`
    Choose(Box<Expr>, Box<Expr>, Box<Expr>),
    /// The field of this number, whose name is at the place.
    Field(Box<Expr>, u32, Pos),
    /// `old(a)`
    Old(Box<Expr>),
    /// `unfolding acc(P(a, b), amount) in c`
    Unfolding(Box<Opened>),
}

/// An instance that is unfolded for one expression.
#[cycle(trees)]
#[derive(Drop)]
pub struct Opened {
    pub predicate: u32,
    pub args: Vec<Expr>,
    pub amount: Expr,
    /// A copy of the predicate's body.
    pub body: Assertion,
    /// The expression after `in`.
    pub inner: Expr,
    /// The place of the predicate's name.
    pub place: Pos,
}

/// The amount of an accessibility predicate. One that was left out is `write`.
#[cycle(trees)]
#[derive(Drop)]
pub enum Amt {
    Is(Expr),
    Wildcard,
}

/// An assertion.
#[cycle(trees)]
#[derive(Drop)]
pub enum Assertion {
    /// The expression is true. The place is that of its leftmost token, parentheses not counted.
    Fact(Expr, Pos),
    /// `acc(a.f, amount)`: the receiver, the number of the field, the amount, the place of the field's name.
    Acc(Expr, u32, Amt, Pos),
    /// `acc(P(a, b), amount)`: the number of the predicate, its arguments, the amount, the place of its name.
    Inst(u32, Vec<Expr>, Amt, Pos),
    And(Box<Assertion>, Box<Assertion>),
    /// `a ==> A`
    Implies(Expr, Box<Assertion>),
    /// `a ? A : B`
    Choose(Expr, Box<Assertion>, Box<Assertion>),
}
