// Values of terms at which rows, none an equation, are not above 0; or rows that contradict each other.
ghost use Rattle.std.specs.Prelude.{◌≤◌};

use crate::near::Near;
use crate::rows::{LinearRow, Point, RowSign};
use search_base::{Fuel, SearchStop, TermId};
use search_rational::{Rational, added};
use std::alloc::Global;
use std::cmp::Ordering;
use std::collections::BTreeMap;

/// A sum of variables, rising, with factors.
type Sum = Vec<(usize, Rational)>;

/// Variables are numbers: each row has one for itself, its slack, which is its sum of terms, and each term has one. A basic variable
/// has a sum of those that are not basic.
#[derive(Drop)]
pub(crate) struct Simplex<'a> {
    rows: &'a [LinearRow],
    terms: Vec<TermId>,
    /// By variable, its row, where it is a slack.
    slack: Vec<Option<usize>>,
    limits: Vec<Near>,
    values: Vec<Near>,
    basic: Vec<Option<Sum>>,
    alloc: Global,
}

impl<'a> Simplex<'a> {
    /// All slacks are basic, and all values 0.
    pub(crate) fn new(alloc: Global, rows: &'a [LinearRow]) -> Result<Simplex<'a>, SearchStop> {
        let mut found = Simplex {
            rows,
            terms: Vec::new(alloc),
            slack: Vec::new(alloc),
            limits: Vec::new(alloc),
            values: Vec::new(alloc),
            basic: Vec::new(alloc),
            alloc,
        };
        let mut variables: BTreeMap<TermId, usize> = BTreeMap::new(alloc);
        for (n, row) in rows.iter().enumerate() {
            found.enter(n, row, &mut variables)?;
        }
        Ok(found)
    }

    /// Takes a row, with variables for its slack and for the terms that are new.
    fn enter(
        &mut self,
        n: usize,
        row: &LinearRow,
        variables: &mut BTreeMap<TermId, usize>,
    ) -> Result<(), SearchStop> {
        let strict = if row.sign == RowSign::Below {
            Rational::MINUS_ONE
        } else {
            Rational::ZERO
        };
        let limit = Near {
            number: row.number.negated()?,
            small: strict,
        };
        let own = self.variable(TermId::NONE, Some(n), limit)?;
        let mut sum = Vec::with_capacity(self.alloc, row.terms.len())?;
        for (term, by) in &row.terms {
            let at = match variables.get(term) {
                Some(at) => *at,
                None => {
                    let at = self.variable(*term, None, Near::default())?;
                    variables.insert(*term, at)?;
                    at
                }
            };
            sum.push((at, *by))?;
        }
        sum.sort_unstable_by_key(|it| it.0);
        if let Some(it) = self.basic.get_mut(own) {
            *it = Some(sum);
        }
        Ok(())
    }

    fn variable(
        &mut self,
        term: TermId,
        slack: Option<usize>,
        limit: Near,
    ) -> Result<usize, SearchStop> {
        let at = self.terms.len();
        self.terms.push(term)?;
        self.slack.push(slack)?;
        self.limits.push(limit)?;
        self.values.push(Near::default())?;
        self.basic.push(None)?;
        Ok(at)
    }

    fn value(&self, at: usize) -> Near {
        self.values.get(at).copied().unwrap_or_default()
    }

    fn limit(&self, at: usize) -> Near {
        self.limits.get(at).copied().unwrap_or_default()
    }

    fn row_of(&self, at: usize) -> Option<usize> {
        self.slack.get(at).copied().flatten()
    }

    /// The values that were found, by term.
    pub(crate) fn point(&self) -> Result<Point, SearchStop> {
        let mut found = BTreeMap::new(self.alloc);
        for (at, term) in self.terms.iter().enumerate() {
            if self.row_of(at).is_none() {
                found.insert(*term, self.value(at).number)?;
            }
        }
        Ok(found)
    }

    /// None, or the rows with weights that contradict each other, as one row. Of all that may leave or enter the first one does, so it
    /// ends (Bland); the number of turns is bounded all the same.
    pub(crate) fn solve(
        &mut self,
        most: u32,
        fuel: &mut Fuel,
    ) -> Result<Option<LinearRow>, SearchStop>
        ensures { fuel.new.left ≤ fuel.old.left }
    {
        for _ in 0..most {
            let Some(leaving) = self.leaving()? else {
                return Ok(None);
            };
            let sum = self.take_sum(leaving);
            let Some((entering, by)) = self.entering(&sum)? else {
                return self.wrong(leaving, &sum);
            };
            self.pivot(leaving, entering, by, &sum, fuel)?;
        }
        Err(SearchStop::Budget)
    }

    /// The first slack that is basic and above its limit.
    fn leaving(&self) -> Result<Option<usize>, SearchStop> {
        for (at, sum) in self.basic.iter().enumerate() {
            let is_slack = sum.is_some() && self.row_of(at).is_some();
            if is_slack && self.value(at).compare(self.limit(at))? == Ordering::Greater {
                return Ok(Some(at));
            }
        }
        Ok(None)
    }

    /// Takes the sum of a variable that leaves.
    fn take_sum(&mut self, at: usize) -> Sum {
        match self.basic.get_mut(at) {
            Some(it) => it.take().unwrap_or(Vec::new(self.alloc)),
            None => Vec::new(self.alloc),
        }
    }

    /// The first variable that may change so that a sum falls, with its factor.
    fn entering(&self, sum: &[(usize, Rational)]) -> Result<Option<(usize, Rational)>, SearchStop> {
        for (at, by) in sum {
            let is_free = by.is_positive() || self.row_of(*at).is_none();
            if is_free || self.value(*at).compare(self.limit(*at))? == Ordering::Less {
                return Ok(Some((*at, *by)));
            }
        }
        Ok(None)
    }

    /// The row of a slack.
    fn slack_row(&self, at: usize) -> Option<&LinearRow> {
        self.rows.get(self.row_of(at)?)
    }

    fn wrong(
        &self,
        leaving: usize,
        sum: &[(usize, Rational)],
    ) -> Result<Option<LinearRow>, SearchStop> {
        let Some(row) = self.slack_row(leaving) else {
            return Ok(None);
        };
        let mut found = row.again()?;
        for (at, by) in sum {
            if let Some(it) = self.slack_row(*at) {
                found.add(it, by.negated()?)?;
            }
        }
        Ok(Some(found))
    }

    /// Lets a variable go to its limit, and another one change for it.
    fn pivot(
        &mut self,
        leaving: usize,
        entering: usize,
        by: Rational,
        sum: &[(usize, Rational)],
        fuel: &mut Fuel,
    ) -> Result<(), SearchStop>
        ensures { fuel.new.left ≤ fuel.old.left }
    {
        fuel.take(self.basic.len() / 16)?;
        let limit = self.limit(leaving);
        let change = self.value(leaving).change(limit, by)?;
        if let Some(it) = self.values.get_mut(leaving) {
            *it = limit;
        }
        self.change(entering, change, Rational::ONE)?;
        let made = self.turned(leaving, entering, by, sum)?;
        self.replace_all(entering, change, &made, fuel)?;
        if let Some(it) = self.basic.get_mut(entering) {
            *it = Some(made);
        }
        Ok(())
    }

    /// The sum of a variable that enters, from that of the one that leaves, in which it has this factor.
    fn turned(
        &self,
        leaving: usize,
        entering: usize,
        by: Rational,
        sum: &[(usize, Rational)],
    ) -> Result<Sum, SearchStop> {
        let mut made = Vec::with_capacity(self.alloc, sum.len())?;
        for (at, factor) in sum {
            if *at != entering {
                made.push((*at, factor.negated()?.over(by)?))?;
            }
        }
        let place = made.partition_point(|it| it.0 < leaving);
        made.insert(place, (leaving, Rational::ONE.over(by)?))?;
        Ok(made)
    }

    /// Writes what a variable that is basic now is in the sums of the others.
    fn replace_all(
        &mut self,
        entering: usize,
        change: Near,
        made: &[(usize, Rational)],
        fuel: &mut Fuel,
    ) -> Result<(), SearchStop>
        ensures { fuel.new.left ≤ fuel.old.left }
    {
        for other in 0..self.basic.len() {
            let factor = self.replace(other, entering, made, fuel)?;
            if !factor.is_zero() {
                self.change(other, change, factor)?;
            }
        }
        Ok(())
    }

    /// Writes it in the sum of one, and gives the factor that it had there.
    fn replace(
        &mut self,
        other: usize,
        entering: usize,
        made: &[(usize, Rational)],
        fuel: &mut Fuel,
    ) -> Result<Rational, SearchStop>
        ensures { fuel.new.left ≤ fuel.old.left }
    {
        let mut factor = Rational::ZERO;
        if let Some(Some(sum)) = self.basic.get_mut(other) {
            if let Ok(place) = sum.binary_search_by(|it| it.0.cmp(&entering)) {
                factor = sum.remove(place).1;
                *sum = added(self.alloc, sum, made, factor)?;
                fuel.take(sum.len())?;
            }
        }
        Ok(factor)
    }

    fn change(&mut self, at: usize, change: Near, by: Rational) -> Result<(), SearchStop> {
        let now = self.value(at).changed(change, by)?;
        if let Some(it) = self.values.get_mut(at) {
            *it = now;
        }
        Ok(())
    }
}
