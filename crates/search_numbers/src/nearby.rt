// Comparisons that bear on each other, and equations that do not hold beside them.
//
// An equation that does not hold leaves no more than one value out, so others bear on each other through it only where they leave no
// other value: rows are gathered by comparisons alone, and equations that do not hold are looked at beside them.
ghost use Rattle.std.specs.Prelude.{◌≤◌};

use crate::numbers::NumberTheory;
use search_base::{Fuel, SearchStop, TermId, list_at};
use search_rational::Rational;
use search_rows::{LinearRow, RowSign};
use std::collections::BTreeSet;

/// The places of rows around one: the comparisons near it; the equations beside them that do not hold, or just itself where it is
/// one; and the comparisons near all of these.
#[derive(Drop)]
pub struct Around {
    pub near: Vec<usize>,
    pub unequals: Vec<usize>,
    pub all: Vec<usize>,
}

impl NumberTheory {
    /// The comparisons that share a term with a row, or with one that does, and so on.
    pub fn near(&self, start: &LinearRow, fuel: &mut Fuel) -> Result<Vec<usize>, SearchStop>
        ensures { fuel.new.left ≤ fuel.old.left }
    {
        let mut terms = Vec::with_capacity(self.alloc, start.terms.len())?;
        for (term, _) in &start.terms {
            terms.push(*term)?;
        }
        self.near_all(terms, fuel)
    }

    /// The comparisons that have one of these terms, or share one with one that does, and so on.
    fn near_all(&self, terms: Vec<TermId>, fuel: &mut Fuel) -> Result<Vec<usize>, SearchStop>
        ensures { fuel.new.left ≤ fuel.old.left }
    {
        let mut todo = terms;
        let mut seen = BTreeSet::new(self.alloc);
        for start in &todo {
            seen.insert(*start)?;
        }
        let mut found = BTreeSet::new(self.alloc);
        while let Some(term) = todo.pop() {
            fuel.take(list_at(&self.standing, term.place()).len())?;
            self.put_near(term, &mut found, &mut seen, &mut todo)?;
        }
        Ok(found.into_iter().collect(self.alloc)?)
    }

    /// Puts the comparisons that have a term, and their terms to do that were not seen.
    fn put_near(
        &self,
        term: TermId,
        found: &mut BTreeSet<usize>,
        seen: &mut BTreeSet<TermId>,
        todo: &mut Vec<TermId>,
    ) -> Result<(), SearchStop> {
        for at in list_at(&self.standing, term.place()) {
            if let Some(row) = self.comparison_with(*at, term) {
                if found.insert(*at)? {
                    put_new(row, seen, todo)?;
                }
            }
        }
        Ok(())
    }

    /// The row at a place, where it is a comparison that has a term.
    fn comparison_with(&self, at: usize, term: TermId) -> Option<&LinearRow> {
        let row = self.rows.get(at)?;
        if row.sign != RowSign::NotZero && !row.factor(term).is_zero() {
            Some(row)
        } else {
            None
        }
    }

    /// The rows at places.
    pub fn rows_at(&self, places: &[usize]) -> Result<Vec<LinearRow>, SearchStop> {
        let mut found = Vec::with_capacity(self.alloc, places.len())?;
        for at in places {
            if let Some(row) = self.rows.get(*at) {
                found.push(row.again()?)?;
            }
        }
        Ok(found)
    }

    /// Whether a term stands in a comparison.
    fn is_compared(&self, term: TermId) -> bool {
        for at in list_at(&self.standing, term.place()) {
            if self.comparison_with(*at, term).is_some() {
                return true;
            }
        }
        false
    }

    /// The equations that do not hold which have a term of these comparisons, and no term that is not compared.
    fn unequals(&self, places: &[usize]) -> Result<Vec<usize>, SearchStop> {
        let mut terms = BTreeSet::new(self.alloc);
        for at in places {
            if let Some(row) = self.rows.get(*at) {
                for (term, _) in &row.terms {
                    terms.insert(*term)?;
                }
            }
        }
        let mut found = BTreeSet::new(self.alloc);
        for term in &terms {
            for at in list_at(&self.standing, term.place()) {
                if self.is_compared_unequal(*at) {
                    found.insert(*at)?;
                }
            }
        }
        Ok(found.into_iter().collect(self.alloc)?)
    }

    /// Whether the row at a place is an equation that does not hold, all of whose terms are compared.
    fn is_compared_unequal(&self, at: usize) -> bool {
        match self.rows.get(at) {
            Some(row) => row.sign == RowSign::NotZero
                && row.terms.iter().all(|it| self.is_compared(it.0)),
            None => false,
        }
    }

    /// An equation that does not hold and says the same as a row.
    pub fn unequal_like(
        &self,
        start: &LinearRow,
        fuel: &mut Fuel,
    ) -> Result<Option<LinearRow>, SearchStop>
        ensures { fuel.new.left ≤ fuel.old.left }
    {
        let Some((first, by)) = start.terms.first().copied() else {
            return Ok(None);
        };
        let standing = list_at(&self.standing, first.place());
        fuel.take(standing.len())?;
        for at in standing {
            if let Some(other) = self.rows.get(*at) {
                let factor = other.factor(first);
                if !factor.is_zero() && is_like(other, factor, start, by)? {
                    return Ok(Some(other.again()?));
                }
            }
        }
        Ok(None)
    }

    /// What is around the row at a place.
    pub fn around(&self, at: usize, fuel: &mut Fuel) -> Result<Around, SearchStop>
        ensures { fuel.new.left ≤ fuel.old.left }
    {
        let Some(start) = self.rows.get(at) else {
            return Ok(Around {
                near: Vec::new(self.alloc),
                unequals: Vec::new(self.alloc),
                all: Vec::new(self.alloc),
            });
        };
        let near = self.near(start, fuel)?;
        if start.sign == RowSign::NotZero {
            return Ok(Around {
                near: Vec::new(self.alloc),
                unequals: vec![in self.alloc; at]?,
                all: near,
            });
        }
        let unequals = self.unequals(&near)?;
        let all = self.near_all(self.terms_of(&unequals, start)?, fuel)?;
        Ok(Around {
            near,
            unequals,
            all,
        })
    }

    /// The terms of the rows at places, and then those of another one.
    fn terms_of(&self, places: &[usize], last: &LinearRow) -> Result<Vec<TermId>, SearchStop> {
        let mut found = Vec::new(self.alloc);
        for at in places {
            if let Some(row) = self.rows.get(*at) {
                for (term, _) in &row.terms {
                    found.push(*term)?;
                }
            }
        }
        for (term, _) in &last.terms {
            found.push(*term)?;
        }
        Ok(found)
    }
}

/// Puts the terms of a row to do that were not seen.
fn put_new(
    row: &LinearRow,
    seen: &mut BTreeSet<TermId>,
    todo: &mut Vec<TermId>,
) -> Result<(), SearchStop> {
    for (term, _) in &row.terms {
        if seen.insert(*term)? {
            todo.push(*term)?;
        }
    }
    Ok(())
}

/// Whether an equation that does not hold says the same as a row. The two have these factors of a term.
fn is_like(
    other: &LinearRow,
    factor: Rational,
    row: &LinearRow,
    by: Rational,
) -> Result<bool, SearchStop> {
    if other.sign != RowSign::NotZero || other.terms.len() != row.terms.len() {
        return Ok(false);
    }
    if other.number.times(by)? != row.number.times(factor)? {
        return Ok(false);
    }
    for (term, own) in &row.terms {
        if other.factor(*term).times(by)? != own.times(factor)? {
            return Ok(false);
        }
    }
    Ok(true)
}
