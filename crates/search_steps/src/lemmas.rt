// Clauses in the making.
use crate::rules::StepRule;
use crate::steps::Steps;
use search_base::{SearchStop, SignedTerm, StepId, TermId};
use search_terms::Terms;
use std::alloc::Global;
use std::collections::BTreeMap;

/// A clause in the making: the literals that it stands on, and the steps that it follows from.
#[derive(Drop)]
pub struct Lemma {
    pub premises: Vec<SignedTerm>,
    pub hints: Vec<StepId>,
    /// The equations that the steps show, by the two terms, the lower one first.
    shown: BTreeMap<(SignedTerm, SignedTerm), TermId>,
}

/// Two terms, the lower one first.
fn key(a: SignedTerm, b: SignedTerm) -> (SignedTerm, SignedTerm) {
    if b < a { (b, a) } else { (a, b) }
}

impl Lemma {
    /// A clause that stands on nothing.
    pub fn new(alloc: Global) -> Lemma {
        Lemma {
            premises: Vec::new(alloc),
            hints: Vec::new(alloc),
            shown: BTreeMap::new(alloc),
        }
    }

    /// Lets the clause stand on a literal.
    pub fn assume(&mut self, literal: SignedTerm) -> Result<(), SearchStop> {
        if !self.premises.contains(&literal) {
            self.premises.push(literal)?;
        }
        Ok(())
    }

    /// The equation of two terms that the steps show.
    pub fn equation(&self, a: SignedTerm, b: SignedTerm) -> Option<TermId> {
        self.shown.get(&key(a, b)).copied()
    }

    /// Notes that the steps show an equation of two terms.
    pub fn show(
        &mut self,
        a: SignedTerm,
        b: SignedTerm,
        equation: TermId,
    ) -> Result<(), SearchStop> {
        self.shown.insert(key(a, b), equation)?;
        Ok(())
    }
}

/// The step for an equation and those that lead from its one side to the other, in the order of the equation.
pub fn path_step(
    alloc: Global,
    terms: &Terms,
    steps: &mut Steps,
    equation: TermId,
    from: SignedTerm,
    parts: &[TermId],
) -> Result<StepId, SearchStop> {
    let mut ordered = Vec::with_capacity(alloc, parts.len())?;
    for it in parts {
        ordered.push(it.literal())?;
    }
    if terms.part(equation, 0) != from {
        ordered.reverse();
    }
    chain_step(alloc, steps, equation, &ordered, StepRule::Path)
}

/// The step that says an equation where others hold.
pub fn chain_step(
    alloc: Global,
    steps: &mut Steps,
    equation: TermId,
    parts: &[SignedTerm],
    rule: StepRule,
) -> Result<StepId, SearchStop> {
    let mut literals = vec![in alloc; equation.literal()]?;
    let mut words = vec![in alloc; equation.literal()]?;
    for it in parts {
        literals.push(it.negated())?;
        words.push(*it)?;
    }
    steps.add(&literals, rule, &words)
}
