// Sums of numbers that are compared with 0.
use search_base::{SearchStop, SignedTerm, TermId, copied};
use search_rational::{Rational, added};
use std::alloc::Global;
use std::collections::BTreeMap;

/// How a row compares with 0.
#[derive(Clone, Copy, PartialEq, Eq)]
pub enum RowSign {
    Zero,
    NotZero,
    NotAbove,
    Below,
}

/// What a row is made of: a literal that holds, and none; or two terms that are equal, whose first less the second is 0.
#[derive(Clone, Copy, PartialEq, Eq, PartialOrd, Ord)]
pub struct RowSource {
    first: SignedTerm,
    second: SignedTerm,
}

impl RowSource {
    /// A literal that holds.
    pub fn holds(literal: SignedTerm) -> RowSource {
        RowSource {
            first: literal,
            second: SignedTerm::NONE,
        }
    }

    /// Two terms that are equal.
    pub fn equal(first: SignedTerm, second: SignedTerm) -> RowSource {
        RowSource { first, second }
    }

    /// The literal, where it is one that holds.
    pub fn literal(self) -> Option<SignedTerm> {
        if self.second.is_none() {
            Some(self.first)
        } else {
            None
        }
    }

    /// The two terms, where they are what it is.
    pub fn pair(self) -> Option<(SignedTerm, SignedTerm)> {
        if self.second.is_none() {
            None
        } else {
            Some((self.first, self.second))
        }
    }
}

/// Values of terms; of those without one it is 0.
pub type Point = BTreeMap<TermId, Rational>;

/// A sum of terms and a number that compares with 0, with the weights of what it is made of. Terms and sources rise, each once, and
/// no factor or weight is 0.
#[derive(Drop)]
pub struct LinearRow {
    pub terms: Vec<(TermId, Rational)>,
    pub number: Rational,
    pub sign: RowSign,
    pub sources: Vec<(RowSource, Rational)>,
    alloc: Global,
}

impl LinearRow {
    /// A row without terms, whose number is 0.
    pub fn new(alloc: Global, sign: RowSign) -> LinearRow {
        LinearRow {
            terms: Vec::new(alloc),
            number: Rational::ZERO,
            sign,
            sources: Vec::new(alloc),
            alloc,
        }
    }

    /// The row of one term.
    pub fn of_term(alloc: Global, term: TermId) -> Result<LinearRow, SearchStop> {
        let mut found = LinearRow::new(alloc, RowSign::Zero);
        found.terms.push((term, Rational::ONE))?;
        Ok(found)
    }

    /// The same row again.
    pub fn again(&self) -> Result<LinearRow, SearchStop> {
        let terms = copied(self.alloc, &self.terms)?;
        let sources = copied(self.alloc, &self.sources)?;
        Ok(LinearRow {
            terms,
            number: self.number,
            sign: self.sign,
            sources,
            alloc: self.alloc,
        })
    }

    /// Adds so many times another row. The sign stays.
    pub fn add(&mut self, other: &LinearRow, by: Rational) -> Result<(), SearchStop> {
        self.terms = added(self.alloc, &self.terms, &other.terms, by)?;
        self.number = self.number.plus(other.number.times(by)?)?;
        self.sources = added(self.alloc, &self.sources, &other.sources, by)?;
        Ok(())
    }

    /// Adds terms with factors, which rise.
    pub fn add_terms(
        &mut self,
        terms: &[(TermId, Rational)],
        by: Rational,
    ) -> Result<(), SearchStop> {
        self.terms = added(self.alloc, &self.terms, terms, by)?;
        Ok(())
    }

    /// Adds a weight to a source.
    pub fn add_source(&mut self, source: RowSource, weight: Rational) -> Result<(), SearchStop> {
        self.sources = added(
            self.alloc,
            &self.sources,
            &[(source, Rational::ONE)],
            weight,
        )?;
        Ok(())
    }

    /// The factor of a term, 0 where it has none.
    pub fn factor(&self, term: TermId) -> Rational {
        match self.terms.binary_search_by(|it| it.0.cmp(&term)) {
            Ok(at) => self.terms.get(at).map_or(Rational::ZERO, |it| it.1),
            Err(_) => Rational::ZERO,
        }
    }

    /// The weight of a source, 0 where it has none.
    pub fn weight(&self, source: RowSource) -> Rational {
        match self.sources.iter().find(|it| it.0 == source) {
            Some(it) => it.1,
            None => Rational::ZERO,
        }
    }

    /// The first source that is a literal.
    pub fn assumption(&self) -> Option<SignedTerm> {
        for (source, _) in &self.sources {
            if let Some(literal) = source.literal() {
                return Some(literal);
            }
        }
        None
    }

    /// The term that an equation is solved for: the last one with the factor 1 or -1, or the last one, since what came last stands in
    /// the fewest rows.
    pub fn pivot(&self) -> Option<TermId> {
        for (term, by) in self.terms.iter().rev() {
            if by.is_unit() {
                return Some(*term);
            }
        }
        self.terms.last().map(|it| it.0)
    }

    /// The row without the term that an equation is solved for.
    pub fn without(self, equation: &LinearRow) -> Result<LinearRow, SearchStop> {
        let mut found = self;
        if let Some(term) = equation.pivot() {
            found.remove(term, equation)?;
        }
        Ok(found)
    }

    /// Takes a term out by an equation that has it.
    pub(crate) fn remove(&mut self, term: TermId, equation: &LinearRow) -> Result<(), SearchStop> {
        let by = self.factor(term);
        if by.is_zero() {
            return Ok(());
        }
        let times = by.negated()?.over(equation.factor(term))?;
        self.add(equation, times)
    }

    /// Whether it cannot be so, at any values.
    pub fn is_wrong(&self) -> bool {
        if !self.terms.is_empty() {
            return false;
        }
        match self.sign {
            RowSign::Zero => !self.number.is_zero(),
            RowSign::NotZero => self.number.is_zero(),
            RowSign::NotAbove => self.number.is_positive(),
            RowSign::Below => !self.number.is_negative(),
        }
    }

    /// Its value where its terms have these values.
    pub fn value(&self, point: &Point) -> Result<Rational, SearchStop> {
        let mut found = self.number;
        for (term, by) in &self.terms {
            if let Some(it) = point.get(term) {
                found = found.plus(it.times(*by)?)?;
            }
        }
        Ok(found)
    }
}
