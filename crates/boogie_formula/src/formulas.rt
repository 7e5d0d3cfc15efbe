// Formulas and conditions, and their expressions.
use boogie_tree::{BBase, BOp, BType};
use vb_base::Label;

/// An expression of a formula. A variable or a definition stands by its number: variables come first, from 0 on, and then
/// definitions.
#[derive(Drop)]
pub enum FExpr {
    /// The variable or the definition of this number.
    Var(usize),
    /// A literal, from 0 to 2^127 - 1.
    Int(i128),
    /// A real literal: the digits before its `.0`.
    Real(i128),
    Bool(bool),
    /// The reference `null`.
    Null,
    /// The content `sUnit`.
    Unit,
    /// `(- a)`
    Neg(Box<FExpr>),
    /// `(! a)`
    Not(Box<FExpr>),
    Bin(BOp, Box<FExpr>, Box<FExpr>),
    /// `(if a then b else c)`, where b and c may be maps.
    If(Box<FExpr>, Box<FExpr>, Box<FExpr>),
    /// `(forall .. :: a)`, with the types of the bound names: Int, Bool or Ref.
    Forall(Vec<BBase>, Box<FExpr>),
    /// `real(a)`
    ToReal(Box<FExpr>),
    /// `sInt(a)`
    SInt(Box<FExpr>),
    /// `sBool(a)`
    SBool(Box<FExpr>),
    /// `sRef(a)`
    SRef(Box<FExpr>),
    /// `sPerm(a)`
    SPerm(Box<FExpr>),
    /// `sPair(a, b)`
    Pair(Box<FExpr>, Box<FExpr>),
    /// The map of this number at these keys.
    At(usize, Vec<FExpr>),
    /// The map of this number at the names that the `forall` around it binds.
    AtBound(usize),
    /// `m[k, .. := e]`: the map m but for the value e at these keys.
    With(Box<FExpr>, Vec<FExpr>, Box<FExpr>),
}

/// A formula: typed variables, definitions, each over the variables and the definitions before it, and a goal over all of
/// them.
#[derive(Drop)]
pub struct Formula {
    pub vars: Vec<BType>,
    pub lets: Vec<FExpr>,
    pub goal: FExpr,
}

/// An assertion: its label, and the number of the definition that says that it fails.
#[derive(Clone, Copy)]
pub struct Fail {
    pub label: Label,
    pub name: usize,
}

/// The conditions of a procedure: typed variables, definitions, each over the variables and the definitions before it, and its
/// assertions, in the order of the text.
#[derive(Drop)]
pub struct Conditions {
    pub vars: Vec<BType>,
    pub lets: Vec<FExpr>,
    pub fails: Vec<Fail>,
}
