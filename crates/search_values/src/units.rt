// Steps that say alone what a term is whatever is decided.
ghost use Rattle.std.specs.Prelude.{◌≤◌};

use crate::values::Values;
use search_base::{Fuel, SearchStop, StepId, TermId, distinct, get, set};
use search_steps::Steps;

impl Values {
    /// The step that says alone what a term is that has its value whatever is decided.
    pub fn unit(
        &mut self,
        variable: TermId,
        steps: &mut Steps,
        fuel: &mut Fuel,
    ) -> Result<StepId, SearchStop>
        ensures { fuel.new.left ≤ fuel.old.left }
    {
        let mut todo = vec![in self.alloc; variable]?;
        while let Some(it) = todo.last().copied() {
            fuel.take(1)?;
            if self.has_unit(it) {
                let _ = todo.pop();
                continue;
            }
            let before = todo.len();
            for other in steps.literals(self.reason_of(it)) {
                if other.term() != it && !self.has_unit(other.term()) {
                    todo.push(other.term())?;
                }
            }
            if todo.len() == before {
                self.make_unit(it, steps)?;
            }
        }
        Ok(get(&self.unit_steps, variable.place()))
    }

    fn has_unit(&self, n: TermId) -> bool {
        !get(&self.unit_steps, n.place()).is_none()
    }

    /// Makes the step for a term whose reason stands on others that have theirs.
    fn make_unit(&mut self, n: TermId, steps: &mut Steps) -> Result<(), SearchStop> {
        let reason = self.reason_of(n);
        let mut hints = Vec::new(self.alloc);
        for other in steps.literals(reason) {
            if other.term() != n {
                hints.push(get(&self.unit_steps, other.term().place()))?;
            }
        }
        let mut step = reason;
        if !hints.is_empty() {
            hints.push(reason)?;
            let literal = n.signed(self.is_true(n.literal()));
            step = steps.implied(&[literal], &hints)?;
        }
        set(&mut self.unit_steps, n.place(), step)
    }

    /// The step without literals, from one whose literals are false whatever is decided.
    pub fn end_with(
        &mut self,
        conflict: StepId,
        steps: &mut Steps,
        fuel: &mut Fuel,
    ) -> Result<StepId, SearchStop>
        ensures { fuel.new.left ≤ fuel.old.left }
    {
        let literals = distinct(self.alloc, steps.literals(conflict))?;
        let mut hints = Vec::with_capacity(self.alloc, literals.len())?;
        for it in &literals {
            hints.push(self.unit(it.term(), steps, fuel)?)?;
        }
        hints.push(conflict)?;
        steps.implied(&[], &hints)
    }
}
