// Equations, each solved for one of its terms.
ghost use Rattle.std.specs.Prelude.{◌≤◌};

use crate::rows::LinearRow;
use search_base::{Fuel, SearchStop, TermId, get, number, set};
use std::alloc::Global;

/// Equations, each solved for one of its terms, its pivot. A pivot stands in no row that was taken later.
#[derive(Drop)]
pub struct Solved {
    rows: Vec<LinearRow>,
    pivots: Vec<TermId>,
    /// By term, one more than the place of the row of which it is the pivot; 0 where it is none.
    places: Vec<u32>,
}

/// What an equation came to.
#[derive(Drop)]
pub enum Taken {
    /// It says nothing that the others do not.
    Nothing,
    /// It is solved for this term.
    For(TermId),
    /// It does not go with the others: this row cannot be.
    Wrong(LinearRow),
}

impl Solved {
    /// No equations.
    pub fn new(alloc: Global) -> Solved {
        Solved {
            rows: Vec::new(alloc),
            pivots: Vec::new(alloc),
            places: Vec::new(alloc),
        }
    }

    /// The equations, in the order in which they were taken.
    pub fn rows(&self) -> &[LinearRow] {
        &self.rows
    }

    /// How many there are.
    pub fn count(&self) -> usize {
        self.rows.len()
    }

    /// Leaves out the equations that were taken last, but for so many.
    pub fn truncate(&mut self, count: usize) -> Result<(), SearchStop> {
        for _ in count..self.rows.len() {
            let _ = self.rows.pop();
            if let Some(term) = self.pivots.pop() {
                set(&mut self.places, term.place(), 0)?;
            }
        }
        Ok(())
    }

    /// A row without pivots.
    pub fn reduce(&self, row: LinearRow, fuel: &mut Fuel) -> Result<LinearRow, SearchStop>
        ensures { fuel.new.left ≤ fuel.old.left }
    {
        self.reduce_without(row, usize::MAX, fuel)
    }

    /// The same, but for the pivot of the equation at a place. The pivot that was taken first goes first: no equation that was taken
    /// later has it, so each round leaves fewer of the earlier ones.
    pub fn reduce_without(
        &self,
        row: LinearRow,
        without: usize,
        fuel: &mut Fuel,
    ) -> Result<LinearRow, SearchStop>
        ensures { fuel.new.left ≤ fuel.old.left }
    {
        let mut found = row;
        for _ in 0..self.rows.len().saturating_add(1) {
            let Some((at, term)) = self.first_pivot(&found, without) else {
                break;
            };
            fuel.take(found.terms.len().saturating_add(1))?;
            if let Some(equation) = self.rows.get(at) {
                found.remove(term, equation)?;
            }
        }
        Ok(found)
    }

    /// The pivot in a row that was taken first, with the place of its equation.
    fn first_pivot(&self, row: &LinearRow, without: usize) -> Option<(usize, TermId)> {
        let mut first = self.rows.len();
        let mut found = None;
        for (term, _) in &row.terms {
            let at = (get(&self.places, term.place()) as usize).wrapping_sub(1);
            if at < first && at != without {
                first = at;
                found = Some((at, *term));
            }
        }
        found
    }

    /// Takes an equation.
    pub fn take(&mut self, row: LinearRow, fuel: &mut Fuel) -> Result<Taken, SearchStop>
        ensures { fuel.new.left ≤ fuel.old.left }
    {
        let row = self.reduce(row, fuel)?;
        let Some(term) = row.pivot() else {
            return Ok(if row.number.is_zero() {
                Taken::Nothing
            } else {
                Taken::Wrong(row)
            });
        };
        let place = number(self.rows.len())? + 1;
        set(&mut self.places, term.place(), place)?;
        self.pivots.push(term)?;
        self.rows.push(row)?;
        Ok(Taken::For(term))
    }
}
