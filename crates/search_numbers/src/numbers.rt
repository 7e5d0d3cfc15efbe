// What is assigned of numbers, as it comes and goes back.
ghost use Rattle.std.specs.Prelude.{◌≤◌};

use search_base::{Fuel, SearchStop, SignedTerm, TermId, copied, get, list_at, pop_from, push_to};
use search_rows::{LinearRow, RowSign, Solved};
use std::alloc::Global;
use std::collections::BTreeSet;

/// What was changed, so that it can be taken back.
#[derive(Drop)]
enum Change {
    /// A row was put at the end.
    Pushed,
    /// The row at a place was another one before.
    Replaced(usize, LinearRow),
    /// A row was noted at a term.
    Stands(TermId),
}

/// How much there was when a level of the search began.
#[derive(Clone, Copy, Default)]
struct Mark {
    changes: usize,
    solved: usize,
    merges: usize,
    literals: usize,
    compared: usize,
}

/// What is assigned of numbers: equations, each solved for a term, and comparisons without the terms that those are solved for. It goes
/// back with the search, and what came since it was last looked at is taken when it is next.
#[derive(Drop)]
pub struct NumberTheory {
    pub solved: Solved,
    /// The comparisons that hold, and the equations that do not.
    pub rows: Vec<LinearRow>,
    /// By term, the rows in which it stands, or did.
    pub(crate) standing: Vec<Vec<usize>>,
    /// The literals of comparisons of numbers, of which so many were taken, as of the unions of classes.
    compared: Vec<SignedTerm>,
    literals: usize,
    merges: usize,
    /// The rows that were not looked at together with others.
    fresh: BTreeSet<usize>,
    changes: Vec<Change>,
    marks: Vec<Mark>,
    pub(crate) alloc: Global,
}

impl NumberTheory {
    /// Nothing is assigned.
    pub fn new(alloc: Global) -> NumberTheory {
        NumberTheory {
            solved: Solved::new(alloc),
            rows: Vec::new(alloc),
            standing: Vec::new(alloc),
            compared: Vec::new(alloc),
            literals: 0,
            merges: 0,
            fresh: BTreeSet::new(alloc),
            changes: Vec::new(alloc),
            marks: Vec::new(alloc),
            alloc,
        }
    }

    /// Begins a level.
    pub fn mark(&mut self) -> Result<(), SearchStop> {
        let mark = Mark {
            changes: self.changes.len(),
            solved: self.solved.count(),
            merges: self.merges,
            literals: self.literals,
            compared: self.compared.len(),
        };
        self.marks.push(mark)?;
        Ok(())
    }

    /// Goes back to a level.
    pub fn back(&mut self, level: usize) -> Result<(), SearchStop> {
        let mark = get(&self.marks, level);
        self.marks.truncate(level);
        for _ in mark.changes..self.changes.len() {
            self.take_back();
        }
        self.solved.truncate(mark.solved)?;
        self.merges = mark.merges;
        self.literals = mark.literals;
        self.compared.truncate(mark.compared);
        let end = self.rows.len();
        self.fresh.retain(|it| *it < end);
        Ok(())
    }

    /// Takes the last change back.
    fn take_back(&mut self) {
        match self.changes.pop() {
            Some(Change::Pushed) => {
                let _ = self.rows.pop();
            }
            Some(Change::Replaced(at, before)) => {
                if let Some(it) = self.rows.get_mut(at) {
                    *it = before;
                }
            }
            Some(Change::Stands(term)) => pop_from(&mut self.standing, term.place()),
            None => {}
        }
    }

    /// Takes a literal of a comparison of numbers that is true now.
    pub fn assigned(&mut self, literal: SignedTerm) -> Result<(), SearchStop> {
        self.compared.push(literal)?;
        Ok(())
    }

    /// The next of these unions of classes that was not taken yet. It is taken with that.
    pub fn next_merge(
        &mut self,
        merges: &[(SignedTerm, SignedTerm)],
    ) -> Option<(SignedTerm, SignedTerm)> {
        let found = merges.get(self.merges).copied()?;
        self.merges = self.merges.saturating_add(1);
        Some(found)
    }

    /// The next literal of a comparison that was not taken yet. It is taken with that.
    pub fn next_compared(&mut self) -> Option<SignedTerm> {
        let found = self.compared.get(self.literals).copied()?;
        self.literals = self.literals.saturating_add(1);
        Some(found)
    }

    /// Puts a row behind the others.
    pub fn push(&mut self, row: LinearRow) -> Result<(), SearchStop> {
        let at = self.rows.len();
        self.note(at, &row)?;
        self.rows.push(row)?;
        self.changes.push(Change::Pushed)?;
        Ok(())
    }

    /// Whether a term stands in the row at a place.
    fn stands(&self, term: TermId, at: usize) -> bool {
        match self.rows.get(at) {
            Some(it) => !it.factor(term).is_zero(),
            None => false,
        }
    }

    /// Notes of a row that comes to a place which of its terms did not stand there before, and that it is to be looked at.
    fn note(&mut self, at: usize, row: &LinearRow) -> Result<(), SearchStop> {
        for (term, _) in &row.terms {
            if !self.stands(*term, at) {
                push_to(self.alloc, &mut self.standing, term.place(), at)?;
                self.changes.push(Change::Stands(*term))?;
            }
        }
        self.fresh.insert(at)?;
        Ok(())
    }

    /// Takes a term out of all rows in which it stands, since an equation is solved for it. Gives back a row that cannot be.
    pub fn solve_for(
        &mut self,
        term: TermId,
        fuel: &mut Fuel,
    ) -> Result<Option<LinearRow>, SearchStop>
        ensures { fuel.new.left ≤ fuel.old.left }
    {
        for at in &copied(self.alloc, list_at(&self.standing, term.place()))? {
            if self.stands(term, *at) && self.reduce(*at, fuel)? {
                return self.row_at(*at);
            }
        }
        Ok(None)
    }

    /// Takes pivots out of the row at a place. Whether it cannot be then.
    fn reduce(&mut self, at: usize, fuel: &mut Fuel) -> Result<bool, SearchStop>
        ensures { fuel.new.left ≤ fuel.old.left }
    {
        let Some(row) = self.row_at(at)? else {
            return Ok(false);
        };
        let after = self.solved.reduce(row, fuel)?;
        let is_wrong = after.is_wrong();
        self.note(at, &after)?;
        if let Some(it) = self.rows.get_mut(at) {
            let before = std::mem::replace(it, after);
            self.changes.push(Change::Replaced(at, before))?;
        }
        Ok(is_wrong)
    }

    /// The row at a place.
    fn row_at(&self, at: usize) -> Result<Option<LinearRow>, SearchStop> {
        match self.rows.get(at) {
            Some(it) => Ok(Some(it.again()?)),
            None => Ok(None),
        }
    }

    /// The first row that was not looked at together with others.
    pub fn first_fresh(&self) -> Option<usize> {
        self.fresh.first().copied()
    }

    /// Notes that a row was looked at together with others.
    pub fn settle(&mut self, at: usize) {
        self.fresh.remove(&at);
    }

    /// The comparisons that hold.
    pub fn comparisons(&self) -> Result<Vec<LinearRow>, SearchStop> {
        let mut found = Vec::new(self.alloc);
        for row in &self.rows {
            if row.sign != RowSign::NotZero {
                found.push(row.again()?)?;
            }
        }
        Ok(found)
    }
}
