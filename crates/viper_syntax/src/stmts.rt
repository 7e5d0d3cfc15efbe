// The trees of statements. A place of which nothing is said is that of the first word.
use crate::{Term, Word};
use vb_base::{Ident, Pos};

/// A name and its place.
#[derive(Drop)]
pub struct Named {
    pub name: Ident,
    pub pos: Pos,
}

/// `x: Int`. The type is one of the words `Int`, `Bool`, `Ref` and `Perm`.
#[derive(Drop)]
pub struct Formal {
    pub name: Named,
    pub ty: Word,
}

/// `m(a, b)`
#[derive(Drop)]
pub struct SCall {
    pub name: Named,
    pub args: Vec<Term>,
}

/// `new(f, g)`, or `new(*)`, where `every` is true.
#[derive(Drop)]
pub struct SNew {
    pub at: Pos,
    pub every: bool,
    pub fields: Vec<Named>,
}

/// What is assigned. A right side that is wholly a call is read as a method call and only so.
#[derive(Drop)]
pub enum SRhs {
    Call(SCall),
    New(SNew),
    Term(Term),
}

/// The instance of a `fold` or `unfold`, with its amount, if any.
#[derive(Drop)]
pub struct SFold {
    pub at: Pos,
    pub call: SCall,
    pub amount: Option<Term>,
}

/// A block. Its place is the `{`.
#[cycle(stmts)]
#[derive(Drop)]
pub struct SBlock {
    pub at: Pos,
    pub stmts: Vec<SStmt>,
}

/// One condition of an `if` with its block. Its place is the word `if` or `elseif`.
#[cycle(stmts)]
#[derive(Drop)]
pub struct SArm {
    pub at: Pos,
    pub condition: Term,
    pub block: SBlock,
}

/// A statement.
#[cycle(stmts)]
#[derive(Drop)]
pub enum SStmt {
    /// `var x: Int` or `var x: Int := a`
    Var(Pos, Formal, Option<SRhs>),
    /// `x := a`, `x.f.g := a`: a name with its fields, at least one name
    Assign(Vec<Named>, SRhs),
    /// `x, y := m(a)`, at least two targets
    CallTo(Vec<Named>, SCall),
    /// `m(a)`
    Call(SCall),
    /// `inhale`, `exhale`, `assert` or `assume`, and its term
    Check(Word, Pos, Term),
    Fold(SFold),
    Unfold(SFold),
    /// `if (a) { .. } elseif (b) { .. } else { .. }`, at least one arm
    If(Vec<SArm>, Option<SBlock>),
    /// `while (a) invariant b { .. }`
    While(Pos, Term, Vec<Term>, SBlock),
}
