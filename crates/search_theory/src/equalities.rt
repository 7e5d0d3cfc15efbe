// What follows from classes of equal terms, as steps.
ghost use Rattle.std.specs.Prelude.{◌≤◌};

use crate::proofs::{prove, prove_as};
use search_base::{Found, Fuel, SearchStop, SignedTerm, StepId, TermId};
use search_classes::Clash;
use search_rational::Rational;
use search_state::Prover;
use search_steps::{Lemma, StepRule, chain_step, sum_step};

/// Brings classes together. Gives back a step that is false.
pub fn close(prover: &mut Prover, fuel: &mut Fuel) -> Found
    ensures { fuel.new.left ≤ fuel.old.left }
{
    prover.classes.close(&mut prover.terms, fuel)?;
    let Some(clash) = prover.classes.take_clash() else {
        return Ok(None);
    };
    let mut lemma = Lemma::new(prover.alloc);
    let step = match clash {
        Clash::Differ(equation) => {
            prove_as(prover, equation, &mut lemma, fuel)?;
            prover.finish(&lemma, &[equation.literal()], fuel)?
        }
        Clash::Constants(one, two) => {
            let found = prove(prover, one, two, &mut lemma, fuel)?
                .literal()
                .negated();
            let rows = [(found, Rational::ONE)];
            lemma.hints.push(sum_step(
                prover.alloc,
                &prover.terms,
                &mut prover.steps,
                &rows,
                fuel,
            )?)?;
            prover.finish(&lemma, &[], fuel)?
        }
        Clash::Apart(one, two) => {
            let found = prove(prover, one, two, &mut lemma, fuel)?.literal();
            lemma.hints.push(
                prover
                    .steps
                    .add(&[found.negated()], StepRule::Apart, &[found])?,
            )?;
            prover.finish(&lemma, &[], fuel)?
        }
    };
    Ok(Some(step))
}

/// Steps that say that the parts of two equal contents are equal.
pub(crate) fn parts_equal(
    prover: &mut Prover,
    one: SignedTerm,
    two: SignedTerm,
    fuel: &mut Fuel,
) -> Result<Vec<StepId>, SearchStop>
    ensures { fuel.new.left ≤ fuel.old.left }
{
    let mut lemma = Lemma::new(prover.alloc);
    let whole = prove(prover, one, two, &mut lemma, fuel)?;
    let mut found = Vec::new(prover.alloc);
    for k in 0..prover
        .terms
        .arity(one.term())
        .min(prover.terms.arity(two.term()))
    {
        let (a, b) = (
            prover.terms.part(one.term(), k),
            prover.terms.part(two.term(), k),
        );
        if a != b && (!prover.classes.has(a) || !prover.classes.are_same(a, b)) {
            found.push(part_equal(prover, whole, a, b, &mut lemma, fuel)?)?;
        }
    }
    Ok(found)
}

/// The step that says that two parts are equal where the wholes are.
fn part_equal(
    prover: &mut Prover,
    whole: TermId,
    a: SignedTerm,
    b: SignedTerm,
    lemma: &mut Lemma,
    fuel: &mut Fuel,
) -> Result<StepId, SearchStop>
    ensures { fuel.new.left ≤ fuel.old.left }
{
    let whole = whole.literal();
    let equation = prover.terms.equal(a, b)?.literal();
    let step = prover.steps.add(
        &[whole.negated(), equation],
        StepRule::Part,
        &[whole, equation],
    )?;
    lemma.hints.push(step)?;
    let found = prover.finish(lemma, &[equation], fuel)?;
    let _ = lemma.hints.pop();
    Ok(found)
}

/// The step that says that two terms in one class are the same, by this equation of them.
pub fn same(prover: &mut Prover, equation: TermId, fuel: &mut Fuel) -> Result<StepId, SearchStop>
    ensures { fuel.new.left ≤ fuel.old.left }
{
    let mut lemma = Lemma::new(prover.alloc);
    prove_as(prover, equation, &mut lemma, fuel)?;
    prover.finish(&lemma, &[equation.literal()], fuel)
}

/// The step that says that a choice is its first value, since the second is the same.
pub fn either(
    prover: &mut Prover,
    equation: TermId,
    choice: TermId,
    values: [SignedTerm; 2],
    cases: [StepId; 2],
    fuel: &mut Fuel,
) -> Result<StepId, SearchStop>
    ensures { fuel.new.left ≤ fuel.old.left }
{
    let mut lemma = Lemma::new(prover.alloc);
    let other = prover.terms.equation(choice.literal(), values[1])?;
    if values[0] == values[1] {
        lemma.hints.extend_from_slice(&cases)?;
        return prover.finish(&lemma, &[equation.literal()], fuel);
    }
    let between = prove(prover, values[1], values[0], &mut lemma, fuel)?;
    let parts = [other.literal(), between.literal()];
    let path = chain_step(
        prover.alloc,
        &mut prover.steps,
        equation,
        &parts,
        StepRule::Path,
    )?;
    lemma.hints.extend_from_slice(&cases)?;
    lemma.hints.push(path)?;
    prover.finish(&lemma, &[equation.literal()], fuel)
}

/// A step that says that two terms are not equal, by this equation of them; None where that is not known.
pub fn differs(
    prover: &mut Prover,
    a: SignedTerm,
    b: SignedTerm,
    found: TermId,
    fuel: &mut Fuel,
) -> Found
    ensures { fuel.new.left ≤ fuel.old.left }
{
    let mut lemma = Lemma::new(prover.alloc);
    let Some(equation) = unequal(prover, a, b, &mut lemma, fuel)? else {
        return Ok(None);
    };
    let (left, right) = (
        prover.terms.part(equation, 0),
        prover.terms.part(equation, 1),
    );
    let is_turned = !prover.classes.are_same(left, a);
    let (a, b) = if is_turned { (b, a) } else { (a, b) };
    let mut parts = Vec::new(prover.alloc);
    if left != a {
        parts.push(prove(prover, left, a, &mut lemma, fuel)?.literal())?;
    }
    parts.push(found.literal())?;
    if b != right {
        parts.push(prove(prover, b, right, &mut lemma, fuel)?.literal())?;
    }
    if parts.as_slice() != [equation.literal()].as_slice() {
        lemma.hints.push(chain_step(
            prover.alloc,
            &mut prover.steps,
            equation,
            &parts,
            StepRule::Path,
        )?)?;
    }
    Ok(Some(prover.finish(&lemma, &[found.literal().negated()], fuel)?))
}

/// An equation that is known to be false of two terms that equal these, or of two constants that differ.
fn unequal(
    prover: &mut Prover,
    a: SignedTerm,
    b: SignedTerm,
    lemma: &mut Lemma,
    fuel: &mut Fuel,
) -> Result<Option<TermId>, SearchStop>
    ensures { fuel.new.left ≤ fuel.old.left }
{
    if let Some(known) = known_unequal(prover, a, b) {
        lemma.assume(known.literal().negated())?;
        return Ok(Some(known));
    }
    match (prover.classes.constant(a), prover.classes.constant(b)) {
        (Some(left), Some(right)) if !prover.classes.are_same(a, b) => {
            let equation = prover.terms.equal(left, right)?;
            let rows = [(equation.literal().negated(), Rational::ONE)];
            lemma.hints.push(sum_step(
                prover.alloc,
                &prover.terms,
                &mut prover.steps,
                &rows,
                fuel,
            )?)?;
            Ok(Some(equation))
        }
        _ => Ok(None),
    }
}

/// An equation about the class of a term that is false, and has a side in that of another one.
fn known_unequal(prover: &Prover, a: SignedTerm, b: SignedTerm) -> Option<TermId> {
    for it in prover.classes.different(a) {
        let (left, right) = (prover.terms.part(*it, 0), prover.terms.part(*it, 1));
        if prover.classes.are_same(left, b) || prover.classes.are_same(right, b) {
            return Some(*it);
        }
    }
    None
}
