// Choices between numbers.
ghost use Rattle.std.specs.Prelude.{◌≤◌};

use crate::probes::first_wrong;
use search_base::{Found, Fuel, SearchStop, SignedTerm, StepId, copied, distinct};
use search_rational::Rational;
use search_rows::{LinearRow, RowSource};
use search_sides::{comparison, difference, sum_up};
use search_state::{Conditional, Prover};
use search_steps::Lemma;
use search_terms::TermOp;
use search_theory::attach;

/// Says that a choice is not above or not below one of its values, whatever its condition. Gives back a step that is false.
pub fn bounds(prover: &mut Prover, choice: &Conditional, fuel: &mut Fuel) -> Found
    ensures { fuel.new.left ≤ fuel.old.left }
{
    let values = choice.values;
    let conflict = bounds_by(prover, choice, values[0], fuel)?;
    if conflict.is_some() || values[0] == values[1] {
        return Ok(conflict);
    }
    bounds_by(prover, choice, values[1], fuel)
}

/// Says that a choice is not above or not below a value.
fn bounds_by(prover: &mut Prover, choice: &Conditional, value: SignedTerm, fuel: &mut Fuel) -> Found
    ensures { fuel.new.left ≤ fuel.old.left }
{
    let it = choice.term.literal();
    let low = prover.terms.make(TermOp::Le, &[value, it])?.literal();
    let high = prover.terms.make(TermOp::Le, &[it, value])?.literal();
    let conflict = bound_side(prover, choice, low, fuel)?;
    if conflict.is_some() {
        return Ok(conflict);
    }
    bound_side(prover, choice, high, fuel)
}

/// Says a comparison of a choice, where it is open and follows from both values.
fn bound_side(prover: &mut Prover, choice: &Conditional, side: SignedTerm, fuel: &mut Fuel) -> Found
    ensures { fuel.new.left ≤ fuel.old.left }
{
    if !prover.values.is_open(side) {
        return Ok(None);
    }
    match bound_both(prover, choice, side, fuel)? {
        Some(step) => attach(prover, step, fuel),
        None => Ok(None),
    }
}

/// The step that says that a comparison follows from both values of a choice.
fn bound_both(prover: &mut Prover, choice: &Conditional, side: SignedTerm, fuel: &mut Fuel) -> Found
    ensures { fuel.new.left ≤ fuel.old.left }
{
    let Some(one) = bound(prover, choice, 0, side, fuel)? else {
        return Ok(None);
    };
    let Some(two) = bound(prover, choice, 1, side, fuel)? else {
        return Ok(None);
    };
    let literals = without(prover, one, two, choice.condition)?;
    Ok(Some(prover.steps.implied(&literals, &[one, two])?))
}

/// The literals of two steps but for those of a condition.
fn without(
    prover: &Prover,
    one: StepId,
    two: StepId,
    condition: SignedTerm,
) -> Result<Vec<SignedTerm>, SearchStop> {
    let mut found = copied(prover.alloc, prover.steps.literals(one))?;
    found.extend_from_slice(prover.steps.literals(two))?;
    found.retain(|it| it.term() != condition.term());
    distinct(prover.alloc, &found)
}

/// The step that says that a comparison follows where a choice is one of its values, since its condition is so.
fn bound(
    prover: &mut Prover,
    choice: &Conditional,
    place: usize,
    side: SignedTerm,
    fuel: &mut Fuel,
) -> Found
    ensures { fuel.new.left ≤ fuel.old.left }
{
    let values = choice.values;
    let cases = choice.cases;
    let (value, case, holds) = if place == 0 {
        (values[0], cases[0], choice.condition)
    } else {
        (values[1], cases[1], choice.condition.negated())
    };
    let equation = prover
        .terms
        .equation(choice.term.literal(), value)?
        .literal();
    let assumed = side.negated();
    let mut equal = difference(prover, choice.term.literal(), value, fuel)?;
    equal.add_source(RowSource::holds(equation), Rational::ONE)?;
    let equal = prover.numbers.solved.reduce(equal, fuel)?;
    let rows = rows_where(prover, assumed, holds, &equal, fuel)?;
    match first_wrong(prover, &rows, fuel)? {
        Some(row) if !row.weight(RowSource::holds(assumed)).is_zero() => {
            let mut lemma = Lemma::new(prover.alloc);
            lemma.hints.push(case)?;
            sum_up(prover, &row, &mut lemma, &[assumed, equation, holds], fuel)?;
            Ok(Some(prover.finish(&lemma, &[side, holds.negated()], fuel)?))
        }
        _ => Ok(None),
    }
}

/// The row of a comparison, and that of a condition, where it is one, both by an equation.
fn rows_where(
    prover: &mut Prover,
    assumed: SignedTerm,
    holds: SignedTerm,
    equal: &LinearRow,
    fuel: &mut Fuel,
) -> Result<Vec<LinearRow>, SearchStop>
    ensures { fuel.new.left ≤ fuel.old.left }
{
    let mut found = Vec::new(prover.alloc);
    let row = comparison(prover, assumed, fuel)?;
    let other = if prover.terms.op(holds.term()) == TermOp::Le {
        Some(comparison(prover, holds, fuel)?)
    } else {
        None
    };
    found.push(prover.numbers.solved.reduce(row, fuel)?.without(equal)?)?;
    if let Some(row) = other {
        found.push(prover.numbers.solved.reduce(row, fuel)?.without(equal)?)?;
    }
    Ok(found)
}
