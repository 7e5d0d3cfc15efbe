// Which steps and terms stand in a certificate.
use crate::words::{Word, Words};
use search_base::{SearchStop, StepId, TermId, get, number};
use search_steps::Steps;
use search_terms::{Problem, Terms};
use std::alloc::Global;

/// Marks a place of a list.
fn mark(needed: &mut [bool], place: usize) {
    if let Some(it) = needed.get_mut(place) {
        *it = true;
    }
}

/// The steps from which these follow, and these themselves. What a step follows from stands before it, so one pass down finds all.
pub(crate) fn needed_steps(
    alloc: Global,
    steps: &Steps,
    wanted: &[StepId],
) -> Result<Vec<bool>, SearchStop> {
    let mut needed = vec![in alloc; false; steps.end()]?;
    for step in wanted {
        mark(&mut needed, step.place());
    }
    for n in (0..number(steps.end())?).rev() {
        let step = StepId::of(n);
        if get(&needed, step.place()) {
            for word in steps.hints(step) {
                mark(&mut needed, StepId::of_word(*word).place());
            }
        }
    }
    Ok(needed)
}

/// Marks the terms that a step speaks of.
fn mark_words(steps: &Steps, step: StepId, needed: &mut [bool]) {
    let words = Words::of(steps, step);
    for place in 0..words.len() {
        if let Word::SignedTerm(literal) = words.at(place) {
            mark(needed, literal.term().place());
        }
    }
}

/// Marks the parts of the terms that are marked. Parts stand before their whole, so one pass down finds all.
fn mark_parts(terms: &Terms, needed: &mut [bool]) -> Result<(), SearchStop> {
    for n in (0..number(terms.end())?).rev() {
        let term = TermId::of(n);
        if get(needed, term.place()) && !terms.op(term).is_leaf() {
            for k in 0..terms.arity(term) {
                mark(needed, terms.part(term, k).term().place());
            }
        }
    }
    Ok(())
}

/// The terms that the definitions and these steps speak of, and their parts.
pub(crate) fn needed_terms(
    alloc: Global,
    problem: &Problem,
    terms: &Terms,
    steps: &Steps,
    needed_steps: &[bool],
) -> Result<Vec<bool>, SearchStop> {
    let mut needed = vec![in alloc; false; terms.end()]?;
    for literal in &problem.definitions {
        mark(&mut needed, literal.term().place());
    }
    for n in 0..number(steps.end())? {
        let step = StepId::of(n);
        if get(needed_steps, step.place()) {
            mark_words(steps, step, &mut needed);
        }
    }
    mark_parts(terms, &mut needed)?;
    Ok(needed)
}
