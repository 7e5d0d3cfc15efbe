// The trees of terms.
use crate::{Named, Sign, Word};
use vb_base::{Ident, Literal, Pos};

/// A term: an expression or an assertion, which only types tell apart. Parentheses leave no node.
///
/// The place of a node is its operator for a binary term, the `?` for a choice, the field's name for a field
/// read, and else its first token.
#[cycle(terms)]
#[derive(Drop)]
pub enum Term {
    /// `x`
    Name(Ident, Pos),
    /// `7`, from 0 to 2^127 - 1
    Number(Literal, Pos),
    /// `true`, `false`, `null`, `write`, `none` or `wildcard`
    Constant(Word, Pos),
    /// `!a` or `-a`
    Unary(Sign, Box<Term>, Pos),
    /// `a + b`, and so with each other binary sign
    Binary(Sign, Box<Term>, Box<Term>, Pos),
    /// `a ? b : c`
    Choose(Box<Term>, Box<Term>, Box<Term>, Pos),
    /// `a.f`
    Field(Box<Term>, Ident, Pos),
    /// `old(a)`
    Old(Box<Term>, Pos),
    /// `acc(a)` or `acc(a, amount)`
    Acc(Box<Term>, Option<Box<Term>>, Pos),
    /// `P(a, b)`, an instance of a predicate
    Inst(Ident, Vec<Term>, Pos),
    /// `unfolding acc(P(a, b), amount) in c`
    Unfolding(Box<SUnfolding>),
}

/// `unfolding acc(P(a, b), amount) in c`, where the amount, or `acc` and the amount, may be missing. Its place is that
/// of `unfolding`. It is in a box of its own, since it is large and rare.
#[cycle(terms)]
#[derive(Drop)]
pub struct SUnfolding {
    pub at: Pos,
    pub name: Named,
    pub args: Vec<Term>,
    pub amount: Option<Box<Term>>,
    pub inner: Box<Term>,
}
