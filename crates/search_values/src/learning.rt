// What is learned from a step that is false.
ghost use Rattle.std.specs.Prelude.{◌≤◌};

use crate::values::Values;
use search_base::{Fuel, SearchStop, SignedTerm, StepId, TermId, get};
use search_steps::Steps;
use std::collections::BTreeSet;

/// A step that was learned, and the level behind which it is: there all its literals but the first are false.
#[derive(Clone, Copy)]
pub struct Learned {
    pub step: StepId,
    pub behind: u32,
}

/// A clause that is made from one that is false.
#[derive(Drop)]
struct Cut {
    /// The terms that were met.
    seen: BTreeSet<TermId>,
    /// How many of those of the last level are not taken out yet.
    open: u32,
    /// The literals of the clause.
    literals: Vec<SignedTerm>,
    /// The terms whose reasons were used.
    used: Vec<TermId>,
}

impl Cut {
    /// Takes the false literals of a clause, at this last level.
    fn meet(
        &mut self,
        clause: &[SignedTerm],
        level: u32,
        values: &Values,
    ) -> Result<(), SearchStop> {
        for it in clause {
            if values.is_false(*it) && self.seen.insert(it.term())? {
                let own = values.level(*it);
                if own == 0 {
                    self.used.push(it.term())?;
                } else if own == level {
                    self.open = self.open.saturating_add(1);
                } else {
                    self.literals.push(*it)?;
                }
            }
        }
        Ok(())
    }
}

impl Values {
    /// The highest level of the literals of a step.
    pub fn top(&self, step: StepId, steps: &Steps) -> u32 {
        let mut found = 0;
        for it in steps.literals(step) {
            found = found.max(self.level(*it));
        }
        found
    }

    /// What is learned from a step that is false at this level, which is its highest.
    pub fn learn(
        &mut self,
        conflict: StepId,
        level: u32,
        steps: &mut Steps,
        fuel: &mut Fuel,
    ) -> Result<Learned, SearchStop>
        ensures { fuel.new.left ≤ fuel.old.left }
    {
        let mut cut = self.first_cut(conflict, level, steps)?;
        fuel.take(cut.seen.len())?;
        let learned = self.smaller(&mut cut, steps)?;
        let mut hints = self.ordered(&cut.used, steps, fuel)?;
        hints.push(conflict)?;
        let step = steps.implied(&learned, &hints)?;
        let mut behind = 0;
        for it in learned.iter().skip(1) {
            behind = behind.max(self.level(*it));
        }
        Ok(Learned { step, behind })
    }

    /// The clause with one literal of this level, which stands first.
    fn first_cut(&self, conflict: StepId, level: u32, steps: &Steps) -> Result<Cut, SearchStop> {
        let mut cut = Cut {
            seen: BTreeSet::new(self.alloc),
            open: 0,
            literals: Vec::new(self.alloc),
            used: Vec::new(self.alloc),
        };
        cut.meet(steps.literals(conflict), level, self)?;
        for place in (0..self.trail.len()).rev() {
            let literal = get(&self.trail, place);
            if self.level(literal) != level || !cut.seen.contains(&literal.term()) {
                continue;
            }
            cut.open = cut.open.saturating_sub(1);
            if cut.open == 0 {
                cut.literals.insert(0, literal.negated())?;
                return Ok(cut);
            }
            cut.used.push(literal.term())?;
            cut.meet(steps.literals(self.reason_of(literal.term())), level, self)?;
        }
        Ok(cut)
    }

    /// The literals of a clause without those that the others imply.
    fn smaller(&self, cut: &mut Cut, steps: &Steps) -> Result<Vec<SignedTerm>, SearchStop> {
        let mut inside = BTreeSet::new(self.alloc);
        for it in &cut.literals {
            inside.insert(it.term())?;
        }
        let mut kept = Vec::with_capacity(self.alloc, cut.literals.len())?;
        let mut is_first = true;
        for it in &cut.literals {
            if is_first || !self.is_implied(*it, &inside, steps) {
                kept.push(*it)?;
            } else {
                self.use_reason(*it, &mut cut.used, steps)?;
            }
            is_first = false;
        }
        Ok(kept)
    }

    /// Whether a false literal follows from others, and from what is so whatever is decided.
    fn is_implied(&self, literal: SignedTerm, inside: &BTreeSet<TermId>, steps: &Steps) -> bool {
        let Some(reason) = self.reason(literal) else {
            return false;
        };
        let truth = literal.negated();
        steps.literals(reason).iter().all(|it| *it == truth
            || inside.contains(&it.term())
            || self.level(*it) == 0)
    }

    /// Notes the terms from which a false literal follows.
    fn use_reason(
        &self,
        literal: SignedTerm,
        used: &mut Vec<TermId>,
        steps: &Steps,
    ) -> Result<(), SearchStop> {
        used.push(literal.term())?;
        for it in steps.literals(self.reason_of(literal.term())) {
            if *it != literal.negated() && self.level(*it) == 0 {
                used.push(it.term())?;
            }
        }
        Ok(())
    }

    /// The steps from which the values of terms follow, in the order in which they came: first those that are so whatever is decided.
    fn ordered(
        &mut self,
        used: &[TermId],
        steps: &mut Steps,
        fuel: &mut Fuel,
    ) -> Result<Vec<StepId>, SearchStop>
        ensures { fuel.new.left ≤ fuel.old.left }
    {
        let mut terms = Vec::with_capacity(self.alloc, used.len())?;
        for n in used {
            let literal = n.literal();
            terms.push((self.level(literal) > 0, self.place(literal), *n))?;
        }
        terms.sort_unstable();
        terms.dedup();
        let mut found = Vec::with_capacity(self.alloc, terms.len())?;
        for (is_above, _, n) in &terms {
            let step = if *is_above {
                self.reason_of(*n)
            } else {
                self.unit(*n, steps, fuel)?
            };
            found.push(step)?;
        }
        Ok(found)
    }
}
