// Making terms. Each is made once, and `Overflow` where there are 2^30.
use crate::kinds::TermKind;
use crate::ops::TermOp;
use crate::terms::Terms;
use search_base::{SearchStop, SignedTerm, TermId, get};
use search_rational::Rational;

impl Terms {
    /// The term of an operator and parts.
    pub fn make(&mut self, op: TermOp, parts: &[SignedTerm]) -> Result<TermId, SearchStop> {
        self.words.clear();
        self.words.push(op.code())?;
        for part in parts {
            self.words.push(part.word())?;
        }
        let (n, is_new) = self.nodes.add(&self.words)?;
        if is_new {
            let kind = self.kind_of(op, parts);
            let value = self.constant_of(op, parts);
            let marked = parts.iter().any(|it| self.is_marked(it.term()));
            self.know(kind, value, marked)?;
        }
        Ok(TermId::of(n))
    }

    /// Notes what is known of a new term.
    fn know(
        &mut self,
        kind: TermKind,
        value: Option<Rational>,
        marked: bool,
    ) -> Result<(), SearchStop> {
        self.kinds.push(kind)?;
        self.values.push(value)?;
        self.marked.push(marked)?;
        Ok(())
    }

    /// A number that is written as it stands: `int N` or `real N`, N from 0 on.
    pub fn numeral(&mut self, op: TermOp, value: i128) -> Result<TermId, SearchStop> {
        let bits = value.cast_unsigned();
        let high = (bits >> 64) as u64;
        let low = (bits & u128::from(u64::MAX)) as u64;
        let key = [op.code(), high.cast_signed(), low.cast_signed()];
        let (n, is_new) = self.nodes.add(&key)?;
        if is_new {
            let kind = if op == TermOp::Int {
                TermKind::Int
            } else {
                TermKind::Real
            };
            self.know(kind, Some(Rational::whole(value)), false)?;
        }
        Ok(TermId::of(n))
    }

    /// A variable, a `forall` or a name that one binds, by numbers.
    pub fn named(
        &mut self,
        op: TermOp,
        numbers: &[i64],
        kind: TermKind,
    ) -> Result<TermId, SearchStop> {
        self.words.clear();
        self.words.push(op.code())?;
        self.words.extend_from_slice(numbers)?;
        let (n, is_new) = self.nodes.add(&self.words)?;
        if is_new {
            self.know(kind, None, op == TermOp::Mark)?;
        }
        Ok(TermId::of(n))
    }

    /// A constant, of an int or a real.
    pub fn number(&mut self, value: Rational, kind: TermKind) -> Result<TermId, SearchStop> {
        let op = if kind == TermKind::Int {
            TermOp::Int
        } else {
            TermOp::Real
        };
        let size = value.numerator().checked_abs().ok_or(SearchStop::Overflow)?;
        let mut found = self.numeral(op, size)?;
        if !value.is_whole() {
            let by = self.numeral(op, value.denominator())?;
            found = self.make(TermOp::Div, &[found.literal(), by.literal()])?;
        }
        if value.is_negative() {
            self.make(TermOp::Neg, &[found.literal()])
        } else {
            Ok(found)
        }
    }

    /// The equation of two terms, whichever way round it stands already.
    pub fn equal(&mut self, a: SignedTerm, b: SignedTerm) -> Result<TermId, SearchStop> {
        match self.find(TermOp::Eq, b, a) {
            Some(found) => Ok(found),
            None => self.equation(a, b),
        }
    }

    /// The equation that has two terms in this order.
    pub fn equation(&mut self, a: SignedTerm, b: SignedTerm) -> Result<TermId, SearchStop> {
        self.make(TermOp::Eq, &[a, b])
    }

    /// The comparison that says that the first term is not above the second one.
    pub fn at_most(&mut self, a: TermId, b: TermId) -> Result<TermId, SearchStop> {
        self.make(TermOp::Le, &[a.literal(), b.literal()])
    }

    /// A sum of ints, each so many times; none where there is none.
    pub fn sum_of_times(&mut self, sum: &[(TermId, i128)]) -> Result<SignedTerm, SearchStop> {
        let mut total = SignedTerm::NONE;
        for (it, by) in sum {
            let factor = self.number(Rational::whole(*by), TermKind::Int)?;
            let part = if *by == 1 {
                *it
            } else {
                self.make(TermOp::Mul, &[factor.literal(), it.literal()])?
            };
            total = if total.is_none() {
                part.literal()
            } else {
                self.make(TermOp::Add, &[total, part.literal()])?.literal()
            };
        }
        Ok(total)
    }

    /// The term of an operator and two parts, where it was made.
    pub fn find(&self, op: TermOp, a: SignedTerm, b: SignedTerm) -> Option<TermId> {
        let found = self.nodes.find(&[op.code(), a.word(), b.word()])?;
        Some(TermId::of(found))
    }

    fn kind_of(&self, op: TermOp, parts: &[SignedTerm]) -> TermKind {
        match op {
            TermOp::True | TermOp::Eq | TermOp::Le | TermOp::And | TermOp::Def => TermKind::Bool,
            TermOp::Null => TermKind::Ref,
            TermOp::ToReal => TermKind::Real,
            TermOp::Unit
            | TermOp::SInt
            | TermOp::SBool
            | TermOp::SRef
            | TermOp::SPerm
            | TermOp::SPair => TermKind::Snap,
            TermOp::At => self.kind(get(parts, 0)).of_map(),
            TermOp::If => self.kind(get(parts, 1)),
            TermOp::Nothing | TermOp::Var | TermOp::Mark | TermOp::Int | TermOp::Real =>
                TermKind::Nothing,
            _ => self.kind(get(parts, 0)),
        }
    }

    /// The value of what is made of constants by signs, as a real or by a quotient.
    fn constant_of(&self, op: TermOp, parts: &[SignedTerm]) -> Option<Rational> {
        match op {
            TermOp::Neg => self.constant_at(parts, 0)?.negated().ok(),
            TermOp::ToReal => self.constant_at(parts, 0),
            TermOp::Div => {
                let above = self.constant_at(parts, 0)?;
                let below = self.constant_at(parts, 1)?;
                if below.is_zero() {
                    Some(Rational::ZERO)
                } else {
                    above.over(below).ok()
                }
            }
            _ => None,
        }
    }

    fn constant_at(&self, parts: &[SignedTerm], k: usize) -> Option<Rational> {
        self.value(get(parts, k).term())
    }
}
