// Levels of a search: each begins with a literal that is decided.
use crate::prover::Prover;
use search_base::{SearchStop, SignedTerm};

impl Prover {
    /// Decides a literal.
    pub fn decide(&mut self, literal: SignedTerm) -> Result<(), SearchStop> {
        self.calm = self.calm.saturating_add(1);
        self.classes.mark()?;
        self.agenda.mark()?;
        self.numbers.mark()?;
        self.values.decide(literal)
    }

    /// Goes back to a level, where the search is above it.
    pub fn back(&mut self, level: usize) -> Result<(), SearchStop> {
        if self.values.levels() <= level {
            return Ok(());
        }
        self.classes.back(level, &self.terms)?;
        self.agenda.back(level)?;
        self.numbers.back(level)?;
        self.values.back(level, &self.steps)
    }
}
