// Terms, each once, by number.
use crate::kinds::TermKind;
use crate::ops::TermOp;
use search_base::{Intern, SearchStop, SignedTerm, TermId, get};
use search_rational::Rational;
use std::alloc::Global;

/// A sum of terms that are no sums: they rise, each stands once, and no factor is 0. `TermId::NONE` stands for the number 1.
pub type Form = Vec<(TermId, Rational)>;

/// Terms, each once: what is made of an operator and words has one number. Parts stand before their whole. The lists are by term.
#[derive(Drop)]
pub struct Terms {
    pub(crate) nodes: Intern,
    pub(crate) kinds: Vec<TermKind>,
    pub(crate) values: Vec<Option<Rational>>,
    /// Whether a term speaks of a name that a `forall` binds.
    pub(crate) marked: Vec<bool>,
    /// The forms that were made, and of which terms they were.
    pub(crate) forms: Vec<Form>,
    pub(crate) formed: Vec<bool>,
    /// The words of the term that is made.
    pub(crate) words: Vec<i64>,
    pub(crate) truth: TermId,
    pub(crate) alloc: Global,
}

impl Terms {
    /// The term `true` alone. `Memory` where there is no memory.
    pub fn new(alloc: Global) -> Result<Terms, SearchStop> {
        let mut found = Terms {
            nodes: Intern::new(alloc)?,
            kinds: Vec::new(alloc),
            values: Vec::new(alloc),
            marked: Vec::new(alloc),
            forms: Vec::new(alloc),
            formed: Vec::new(alloc),
            words: Vec::new(alloc),
            truth: TermId::NONE,
            alloc,
        };
        found.make(TermOp::Nothing, &[])?;
        found.truth = found.make(TermOp::True, &[])?;
        Ok(found)
    }

    /// One more than the greatest number of a term.
    pub fn end(&self) -> usize {
        self.nodes.count()
    }

    /// The term `true`.
    pub fn truth(&self) -> TermId {
        self.truth
    }

    /// The operator of a term.
    pub fn op(&self, n: TermId) -> TermOp {
        TermOp::of_code(get(self.nodes.get(n.number()), 0))
    }

    /// Part k of a term, from 0 on; none where it has no such part.
    pub fn part(&self, n: TermId, k: usize) -> SignedTerm {
        SignedTerm::of_word(get(self.nodes.get(n.number()), k.saturating_add(1)))
    }

    /// The parts of a term.
    pub fn parts(&self, n: TermId) -> Result<Vec<SignedTerm>, SearchStop> {
        let mut found = Vec::with_capacity(self.alloc, self.arity(n))?;
        for word in self.nodes.get(n.number()).iter().skip(1) {
            found.push(SignedTerm::of_word(*word))?;
        }
        Ok(found)
    }

    /// How many parts, or other words, a term has.
    pub fn arity(&self, n: TermId) -> usize {
        self.nodes.get(n.number()).len().saturating_sub(1)
    }

    /// The number of a variable, or of a definition that is a `forall`.
    pub fn index(&self, n: TermId) -> i64 {
        get(self.nodes.get(n.number()), 1)
    }

    /// The value of `int N` or `real N`.
    pub fn written(&self, n: TermId) -> i128 {
        let words = self.nodes.get(n.number());
        let high = u128::from(get(words, 1).cast_unsigned());
        let low = u128::from(get(words, 2).cast_unsigned());
        ((high << 64) | low).cast_signed()
    }

    /// What a term is a value of.
    pub fn kind(&self, it: SignedTerm) -> TermKind {
        get(&self.kinds, it.term().place())
    }

    /// Whether a term is a number.
    pub fn is_number(&self, n: TermId) -> bool {
        get(&self.kinds, n.place()).is_number()
    }

    /// The value of a constant.
    pub fn value(&self, n: TermId) -> Option<Rational> {
        get(&self.values, n.place())
    }

    /// Whether a term speaks of a name that a `forall` binds.
    pub fn is_marked(&self, n: TermId) -> bool {
        get(&self.marked, n.place())
    }

    /// Whether it is an equation or an order of terms that are no truth values.
    pub fn is_comparison(&self, n: TermId) -> bool {
        match self.op(n) {
            TermOp::Le => true,
            TermOp::Eq => self.kind(self.part(n, 0)) != TermKind::Bool,
            _ => false,
        }
    }

    /// Whether it is an equation or an order of numbers.
    pub fn is_number_comparison(&self, n: TermId) -> bool {
        self.is_comparison(n) && self.is_number(self.part(n, 0).term())
    }
}
