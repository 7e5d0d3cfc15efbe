// Choices.
ghost use Rattle.std.specs.Prelude.{◌≤◌};

use search_agenda::Note;
use search_base::{Found, Fuel, SearchStop, SignedTerm, StepId, TermId};
use search_state::{Conditional, Prover};
use search_steps::StepRule;
use search_terms::TermKind;
use search_theory::{attach, close, either};

/// A choice is one of its values, where its condition is known or the two are equal. Gives back a step that is false.
pub(crate) fn choose(
    prover: &mut Prover,
    n: TermId,
    condition: SignedTerm,
    values: [SignedTerm; 2],
    fuel: &mut Fuel,
) -> Found
    ensures { fuel.new.left ≤ fuel.old.left }
{
    let Some(holds) = prover.values.value(condition) else {
        return open(prover, n, condition, values, fuel);
    };
    let value = if holds { values[0] } else { values[1] };
    let equation = prover.terms.equation(n.literal(), value)?.literal();
    prover.look_at(condition)?;
    prover.look_at(equation)?;
    let step = case(prover, equation, condition, holds)?;
    attach(prover, step, fuel)
}

/// The step that says that a choice is its first value where its condition holds, or its second where it does not.
fn case(
    prover: &mut Prover,
    equation: SignedTerm,
    condition: SignedTerm,
    holds: bool,
) -> Result<StepId, SearchStop> {
    let (literal, place) = if holds {
        (condition.negated(), 0)
    } else {
        (condition, 1)
    };
    prover.steps.add_words(
        &[literal, equation],
        StepRule::Case,
        &[equation.word(), place],
    )
}

/// The steps for both sides of a choice.
fn cases(
    prover: &mut Prover,
    n: TermId,
    condition: SignedTerm,
    values: [SignedTerm; 2],
) -> Result<[StepId; 2], SearchStop> {
    let one = prover.terms.equation(n.literal(), values[0])?.literal();
    let two = prover.terms.equation(n.literal(), values[1])?.literal();
    Ok([
        case(prover, one, condition, true)?,
        case(prover, two, condition, false)?,
    ])
}

/// A choice whose condition is not known: its values are looked at first, and then the condition.
fn open(
    prover: &mut Prover,
    n: TermId,
    condition: SignedTerm,
    values: [SignedTerm; 2],
    fuel: &mut Fuel,
) -> Found
    ensures { fuel.new.left ≤ fuel.old.left }
{
    prover.wait_for(condition)?;
    if prover.terms.kind(n.literal()) == TermKind::Bool {
        prover.look_at(condition)?;
        return Ok(None);
    }
    prover.register(values[0], fuel)?;
    prover.register(values[1], fuel)?;
    let conflict = close(prover, fuel)?;
    if conflict.is_some() {
        return Ok(conflict);
    }
    if prover.classes.are_same(values[0], values[1]) {
        return the_same(prover, n, condition, values, fuel);
    }
    look_at_values(prover, n, condition, values)?;
    Ok(None)
}

/// A choice is its first value, where that equals the second one.
fn the_same(
    prover: &mut Prover,
    n: TermId,
    condition: SignedTerm,
    values: [SignedTerm; 2],
    fuel: &mut Fuel,
) -> Found
    ensures { fuel.new.left ≤ fuel.old.left }
{
    let equation = prover.terms.equation(n.literal(), values[0])?;
    prover.look_at(equation.literal())?;
    let cases = cases(prover, n, condition, values)?;
    let step = either(prover, equation, n, values, cases, fuel)?;
    attach(prover, step, fuel)
}

/// Looks at the values of a choice, and when it comes again, at its condition.
fn look_at_values(
    prover: &mut Prover,
    n: TermId,
    condition: SignedTerm,
    values: [SignedTerm; 2],
) -> Result<(), SearchStop> {
    if prover.agenda.note(n, Note::Opened)? {
        prover.look_again(n)?;
        prover.look_at(values[0])?;
        return prover.look_at(values[1]);
    }
    prover.wait_for_classes(&values)?;
    if prover.terms.is_number(n) {
        let cases = cases(prover, n, condition, values)?;
        let item = prover.item;
        prover.agenda.add_choice(item)?;
        prover.choices.insert(
            item,
            Conditional {
                term: n,
                condition,
                values,
                cases,
            },
        )?;
    }
    prover.look_at(condition)
}
