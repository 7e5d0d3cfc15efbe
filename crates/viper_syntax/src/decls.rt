// The trees of declarations. A place of which nothing is said is that of the first word.
use crate::{Formal, Named, SBlock, Term, Word};
use vb_base::Pos;

/// `requires a` or `ensures a`
#[derive(Drop)]
pub struct SClause {
    pub word: Word,
    pub term: Term,
}

/// A method.
#[derive(Drop)]
pub struct SMethod {
    pub at: Pos,
    pub name: Named,
    pub params: Vec<Formal>,
    pub returns: Vec<Formal>,
    pub clauses: Vec<SClause>,
    pub body: Option<SBlock>,
}

/// A declaration.
#[derive(Drop)]
pub enum Decl {
    /// `field f: Int`
    Field(Formal),
    /// `predicate P(x: Ref) { a }`, or one without a body
    Predicate(Pos, Named, Vec<Formal>, Option<Term>),
    Method(SMethod),
}

/// A file: its declarations in order.
#[derive(Drop)]
pub struct SourceProgram {
    pub decls: Vec<Decl>,
}
