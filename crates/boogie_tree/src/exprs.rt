// Types, operators and expressions. A variable stands by its number: its place in the list of its procedure's locals, from
// 0 on.

/// A type that is no map.
#[derive(Clone, Copy, Debug, PartialEq, Eq)]
pub enum BBase {
    Int,
    Bool,
    Ref,
    Real,
    Snap,
}

/// A binary operator.
#[derive(Clone, Copy, Debug, PartialEq, Eq)]
pub enum BOp {
    /// `<==>`
    Iff,
    /// `==>`
    Implies,
    /// `||`
    Or,
    /// `&&`
    And,
    /// `==`
    Eq,
    /// `!=`
    Ne,
    /// `<`
    Lt,
    /// `<=`
    Le,
    /// `>`
    Gt,
    /// `>=`
    Ge,
    /// `+`
    Add,
    /// `-`
    Sub,
    /// `*`
    Mul,
    /// `/`, of reals
    Divide,
    /// `div`, the Euclidean quotient
    IntDiv,
    /// `mod`, the Euclidean remainder
    IntMod,
}

/// An expression.
#[derive(Drop)]
pub enum BExpr {
    /// The variable of this number.
    Var(usize),
    /// A literal, from 0 to 2^127 - 1.
    Int(i128),
    /// A real literal: the digits before its `.0`.
    Real(i128),
    Bool(bool),
    /// The reference `null`.
    Null,
    /// The content `sUnit`.
    Unit,
    /// `(- a)`
    Neg(Box<BExpr>),
    /// `(! a)`
    Not(Box<BExpr>),
    Bin(BOp, Box<BExpr>, Box<BExpr>),
    /// `(if a then b else c)`
    If(Box<BExpr>, Box<BExpr>, Box<BExpr>),
    /// `(forall .. :: a)`, with the types of the bound names: Int, Bool or Ref.
    Forall(Vec<BBase>, Box<BExpr>),
    /// `real(a)`
    ToReal(Box<BExpr>),
    /// `sInt(a)`
    SInt(Box<BExpr>),
    /// `sBool(a)`
    SBool(Box<BExpr>),
    /// `sRef(a)`
    SRef(Box<BExpr>),
    /// `sPerm(a)`
    SPerm(Box<BExpr>),
    /// `sPair(a, b)`
    Pair(Box<BExpr>, Box<BExpr>),
    /// The map of this number at these indices.
    At(usize, Vec<BExpr>),
    /// The map of this number at the names that the `forall` around it binds.
    AtBound(usize),
}
