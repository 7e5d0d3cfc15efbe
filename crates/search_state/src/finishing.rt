// Steps from clauses in the making.
ghost use Rattle.std.specs.Prelude.{◌≤◌};

use crate::prover::Prover;
use search_base::{Fuel, SearchStop, SignedTerm, StepId, copied, distinct};
use search_steps::Lemma;
use std::collections::BTreeSet;

/// A lemma that stands on more literals is said of what those follow from. A clause of a certificate has at most 1,000.
const MOST_PREMISES: usize = 300;

/// Literals from which others follow, and the steps for that, in their order.
#[derive(Drop)]
struct Fewer {
    literals: Vec<SignedTerm>,
    hints: Vec<StepId>,
}

/// Literals that are true, by their places: what came last is the last one.
type Premises = BTreeSet<(u32, SignedTerm)>;

impl Prover {
    /// The step that has these literals, and the negation of each premise, or of what the last ones follow from, where there are many.
    pub fn finish(
        &mut self,
        lemma: &Lemma,
        clause: &[SignedTerm],
        fuel: &mut Fuel,
    ) -> Result<StepId, SearchStop>
        ensures { fuel.new.left ≤ fuel.old.left }
    {
        let mut literals = copied(self.alloc, clause)?;
        if lemma.premises.len() > MOST_PREMISES {
            let fewer = self.fewer(&lemma.premises, fuel)?;
            put_negated(&mut literals, &fewer.literals)?;
            return self.finish_with(&literals, fewer.hints, lemma);
        }
        put_negated(&mut literals, &lemma.premises)?;
        self.finish_with(&literals, Vec::new(self.alloc), lemma)
    }

    /// The step of these literals from these steps and those of a lemma; the last one of these, where it says just that.
    fn finish_with(
        &mut self,
        literals: &[SignedTerm],
        hints: Vec<StepId>,
        lemma: &Lemma,
    ) -> Result<StepId, SearchStop> {
        let literals = distinct(self.alloc, literals)?;
        let mut hints = hints;
        if let Some(last) = lemma.hints.last() {
            if hints.is_empty() && self.says(*last, &literals) {
                return Ok(*last);
            }
        }
        hints.extend_from_slice(&lemma.hints)?;
        self.steps.implied(&literals, &hints)
    }

    /// Whether a step has these literals.
    fn says(&self, step: StepId, literals: &[SignedTerm]) -> bool {
        let own = self.steps.literals(step);
        own.len() == literals.len() && own.iter().all(|it| literals.contains(it))
    }

    /// Literals from which others follow by propagation, which are fewer. Each that is replaced was assigned after those that it is
    /// replaced by.
    fn fewer(&self, premises: &[SignedTerm], fuel: &mut Fuel) -> Result<Fewer, SearchStop>
        ensures { fuel.new.left ≤ fuel.old.left }
    {
        let mut todo = BTreeSet::new(self.alloc);
        for it in premises {
            todo.insert((self.values.place(*it), *it))?;
        }
        let mut kept = Vec::new(self.alloc);
        let mut hints = Vec::new(self.alloc);
        while todo.len().saturating_add(kept.len()) > MOST_PREMISES {
            let Some((_, it)) = todo.pop_last() else {
                break;
            };
            fuel.take(1)?;
            match self.values.reason(it) {
                Some(reason) if self.values.is_true(it) => {
                    hints.push(reason)?;
                    self.put_grounds(reason, it, &mut todo)?;
                }
                _ => kept.push(it)?,
            }
        }
        for (_, it) in &todo {
            kept.push(*it)?;
        }
        hints.reverse();
        Ok(Fewer {
            literals: kept,
            hints,
        })
    }

    /// Puts the literals from which one follows by a step.
    fn put_grounds(
        &self,
        reason: StepId,
        literal: SignedTerm,
        todo: &mut Premises,
    ) -> Result<(), SearchStop> {
        for other in self.steps.literals(reason) {
            if *other != literal {
                todo.insert((self.values.place(*other), other.negated()))?;
            }
        }
        Ok(())
    }
}

fn put_negated(literals: &mut Vec<SignedTerm>, premises: &[SignedTerm]) -> Result<(), SearchStop> {
    for it in premises {
        literals.push(it.negated())?;
    }
    Ok(())
}
