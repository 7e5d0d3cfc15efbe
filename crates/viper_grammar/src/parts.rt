// A term as it is written.
use viper_syntax::{SCall, Term};

/// What a term is by its tokens.
#[derive(Clone, Copy)]
pub enum Shape {
    /// Wholly a call.
    Call,
    /// It ends with an `unfolding`, so no operator follows it.
    Open,
    /// Neither.
    Plain,
}

/// A term as it is written.
#[derive(Drop)]
pub struct WrittenTerm {
    pub shape: Shape,
    pub term: Box<Term>,
}

/// A call with its amount, if any, as `fold`, `unfold` and `unfolding` take it.
#[derive(Drop)]
pub struct WrittenInstance {
    pub call: SCall,
    pub amount: Option<Box<Term>>,
}

/// Words that stand for one another in the grammar.
#[derive(Clone, Copy)]
pub enum WordClass {
    /// `Int`, `Bool`, `Ref` and `Perm`
    Type,
    /// `true`, `false`, `null`, `write`, `none` and `wildcard`
    Constant,
    /// `inhale`, `exhale`, `assert` and `assume`
    Check,
    /// `requires` and `ensures`
    Clause,
}
